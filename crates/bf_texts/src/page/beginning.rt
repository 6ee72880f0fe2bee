//! What the page does first.

/// What is drawn first: the head, and the view and the place that the address names.
pub const SCRIPT: &str = r##"// ---- the beginning

drawHead();
const first = fromHash();
setView(first.view);
choose(first, 'address');
if (first.r < 0 && failedRuns && seen.view === 'grid') {
  const left = runFailed.indexOf(1) * pitch;
  if (left > grid.clientWidth - nameWidth) grid.scrollLeft = left - 3 * pitch;
  paint();
}
"##;

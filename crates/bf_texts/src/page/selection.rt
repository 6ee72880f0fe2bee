//! What is seen and what is chosen.

/// The view with its filters, the run, task and index that are chosen, and the address of these.
pub const SCRIPT: &str =
    r##"// ---- what is seen, and what is chosen: a run, a task, an index, -1 where there is none

const seen = {view: 'grid', states: new Set(), find: '', open: new Set(), rows: [], cols: []};
let chosen = {r: -1, t: -1, i: -1};
const failedRuns = runFailed.reduce((sum, n) => sum + n, 0);
const VIEWS = ['grid', 'graph', ...(hasTimes && R ? ['gantt'] : [])];
const hashOf = ({r, t, i}) => '#' + (seen.view === 'grid' ? '' : seen.view + '/') +
  (r < 0 ? '' : starts[r]) + (t < 0 ? '' : '/' + ids[t]) + (i < 0 ? '' : '/' + i);
const fromHash = () => {
  let parts = [];
  try {
    parts = plain(location.hash.slice(1)).split('/');
  } catch { /* no address of ours */ }
  const view = VIEWS.slice(1).includes(parts[0]) ? parts.shift() : 'grid';
  const r = runAt.has(parts[0]) ? runAt.get(parts[0]) : -1;
  const t = taskAt.has(parts[1]) ? taskAt.get(parts[1]) : -1;
  const isIndex = r >= 0 && t >= 0 && /^\d{1,4}$/.test(parts[2]) && codeAt(r, t, Number(parts[2]));
  return {view, r, t, i: isIndex ? Number(parts[2]) : -1};
};

"##;

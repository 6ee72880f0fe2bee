//! Choosing a place, a view, a filter or a size.

/// What each choice changes on the page, and the next failure.
pub const SCRIPT: &str = r##"// ---- choosing

// The address follows what is chosen, a moment later: browsers allow so many changes in so many seconds.
let addressing = 0;
const address = () => {
  clearTimeout(addressing);
  addressing = setTimeout(() => {
    try {
      history.replaceState(null, '', hashOf(chosen));
    } catch { /* too many: a later one does */ }
  }, 150);
};
// The graph and the Gantt are always of some run: of the first that failed, or the last.
const someRun = () => failedRuns ? runFailed.indexOf(1) : R - 1;
const choose = (next, by) => {
  chosen = {r: next.r < 0 && seen.view !== 'grid' ? someRun() : next.r, t: next.t, i: next.i};
  if (by === 'address') clearTimeout(addressing);
  else address();
  if (seen.view === 'graph') drawStates();
  else if (seen.view === 'gantt') drawTries();
  else {
    if (chosen.i >= 0 && !seen.open.has(chosen.t)) {
      seen.open.add(chosen.t);
      filter();
    }
    reveal(place());
    painted = '';
    paint();
  }
  showDetails();
};
const move = (row, col) => {
  row = Math.max(-1, Math.min(seen.rows.length - 1, row));
  col = Math.max(row < 0 ? 0 : -1, Math.min(seen.cols.length - 1, col));
  if (row < 0 && col >= seen.cols.length) return;
  choose({r: col < 0 ? -1 : seen.cols[col], ...(row < 0 ? {t: -1, i: -1} : seen.rows[row])});
};
// The next failure, by run and then by row.
const nextFailure = step => {
  const {row, col} = place(), N = seen.rows.length, all = N * seen.cols.length;
  const from = col >= 0 ? col * N + row : step > 0 ? -1 : 0;
  for (let k = 1; k <= all; k++) {
    const at = ((from + step * k) % all + all) % all, c = Math.floor(at / N), {t, i} = seen.rows[at % N], code = codeAt(seen.cols[c], t, i);
    if (code && stateOf[code] === FAILED) return move(at % N, c);
  }
};
const nextFailedRun = step => {
  const from = chosen.r < 0 && step > 0 ? -1 : Math.max(0, chosen.r);
  for (let k = 1; k <= R; k++) {
    const r = ((from + step * k) % R + R) % R;
    if (!runFailed[r]) continue;
    const own = order.find(t => stateOf[codeOf(r, t)] === FAILED);
    return choose({r, t: seen.view !== 'grid' && chosen.t >= 0 ? chosen.t : own === undefined ? -1 : own, i: -1});
  }
};
const setView = view => {
  seen.view = view;
  for (const each of VIEWS) {
    $(each + '-view').hidden = each !== view;
    $('tab-' + each).setAttribute('aria-selected', each === view);
    $('tab-' + each).tabIndex = each === view ? 0 : -1;
  }
  $('find').hidden = view === 'graph';
  $('less').disabled = $('more').disabled = false;
  if (view === 'grid') filter();
  else if (view === 'graph' && !drawn && T) drawGraph();
};
const refilter = () => {
  if (seen.view === 'grid') filter();
  else if (seen.view === 'graph') drawStates();
  else drawTries();
};
const resize = step => {
  if (seen.view === 'graph') {
    scale = Math.min(2, Math.max(0.1, scale * (step > 0 ? 1.25 : 0.8)));
    return drawn && zoom();
  }
  if (seen.view === 'gantt') {
    chart.stretch = Math.min(64, Math.max(1, chart.stretch * (step > 0 ? 2 : 0.5)));
    return layOutTries();
  }
  const middle = (grid.scrollLeft + (grid.clientWidth - nameWidth) / 2) / pitch;
  pitch = (step > 0 ? WIDTHS.find(width => width > pitch) : WIDTHS.filter(width => width < pitch).pop()) || pitch;
  pitchIsChosen = true;
  layOut();
  grid.scrollLeft = middle * pitch - (grid.clientWidth - nameWidth) / 2;
};

"##;

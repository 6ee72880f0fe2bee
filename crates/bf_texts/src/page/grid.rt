//! The grid of tasks by runs.

/// Which rows and columns the grid has, and how those in sight are painted.
pub const SCRIPT: &str = r##"// ---- the grid

const WIDTHS = [8, 12, 18, 26];
const ROW = 22;
const HEAD = 58;
const grid = $('grid');
const head = $('head');
const rowBox = $('rows');
const corner = h('div', {className: 'corner', role: 'columnheader'}, 'run');
const labels = h('div', {className: 'labels', role: 'none'});
const headCells = h('div', {className: 'cells', role: 'none'});
const band = h('div', {id: 'band', hidden: true});
head.append(corner, labels, headCells);
rowBox.append(band);
let pitch = 18;
let pitchIsChosen = false;
let nameWidth = 200;
let painted = '';
const rowPool = [];
const headPool = [];
const foldWidth = most.some(n => n) ? 14 : 0;
const padOf = t => Math.min(depth[t], 8) * 10;

// Over each column stand a piece of its moment and the group that it is in, by the least time between two runs, in hours.
const [groupOf, unitOf] = (() => {
  let gap = Infinity;
  for (let r = 1; r < R; r++) gap = Math.min(gap, (Date.parse(starts[r]) - Date.parse(starts[r - 1])) / 3600000);
  const part = (from, to) => r => starts[r].slice(from, to);
  if (R > 1 && gap >= 300 * 24) return [r => starts[r].slice(0, 3) + '0s', part(2, 4)];
  if (R > 1 && gap >= 28 * 24) return [part(0, 4), part(5, 7)];
  if (gap >= 6) return [part(0, 7), part(8, 10)];
  return gap >= 0.25 ? [part(0, 10), part(11, 13)] : [part(0, 13), part(14, 16)];
})();

// Which rows and columns are shown.
const filter = () => {
  const {states, find} = seen, wanted = [...states];
  const named = order.filter(t => ids[t].toLowerCase().includes(find));
  const shownTasks = states.size ? named.filter(t => wanted.some(s => taskSum[t * 5 + s])) : named;
  const hits = (r, t) => instancesOf(r, t) ? hasAny(r, t, wanted) : states.has(stateOf[codeOf(r, t)]);
  seen.cols = [...starts.keys()].filter(r => !states.size || shownTasks.some(t => hits(r, t)));
  seen.rows = [];
  for (const t of shownTasks) {
    seen.rows.push({t, i: -1});
    if (seen.open.has(t)) for (let i = 0; i < most[t]; i++) seen.rows.push({t, i});
  }
  const all = seen.cols.length === R && shownTasks.length === T;
  $('shown').textContent = all ? '' : `${number(shownTasks.length)} of ${plural(T, 'task')}, ${number(seen.cols.length)} of ${plural(R, 'run')}`;
  layOut();
};
const layOut = () => {
  const digits = n => n ? 6 + number(n).length * 7 : 0;
  const widthOf = t => padOf(t) + foldWidth + ids[t].length * 7.3 + (most[t] ? 14 + digits(most[t]) : 0) + digits(taskSum[t * 5 + FAILED]);
  const widest = order.reduce((widest, t) => Math.max(widest, widthOf(t)), 40);
  nameWidth = Math.round(Math.min(32 + widest, Math.max(150, grid.clientWidth * 0.36)));
  // Where no width was chosen, one by which all runs fit, and else one that is read well.
  const fits = Math.floor((grid.clientWidth - nameWidth - 8) / Math.max(1, seen.cols.length));
  if (!pitchIsChosen) pitch = fits < WIDTHS[0] ? 12 : Math.min(18, fits);
  grid.style.setProperty('--pw', pitch + 'px');
  head.style.width = rowBox.style.width = nameWidth + seen.cols.length * pitch + 8 + 'px';
  rowBox.style.height = seen.rows.length * ROW + 6 + 'px';
  corner.style.width = nameWidth - 4 + 'px';
  grid.setAttribute('aria-rowcount', seen.rows.length + 1);
  grid.setAttribute('aria-colcount', seen.cols.length + 1);
  $('less').disabled = pitch <= WIDTHS[0];
  $('more').disabled = pitch >= WIDTHS[WIDTHS.length - 1];
  painted = '';
  paint();
  drawMap();
};
const place = () => ({
  row: chosen.t < 0 ? -1 : seen.rows.findIndex(({t, i}) => t === chosen.t && i === chosen.i),
  col: chosen.r < 0 ? -1 : seen.cols.indexOf(chosen.r),
});
const newRow = () => {
  const parts = {
    pad: h('span', {className: 'pad'}), fold: h('button', {className: 'fold', tabIndex: -1}), id: h('span', {className: 'id'}),
    count: h('span', {className: 'n'}), related: h('span', {className: 'rel', 'aria-hidden': true}), bad: h('span', {className: 'bad'}),
  };
  const name = h('div', {className: 'name', role: 'rowheader', 'aria-colindex': 1}, Object.values(parts));
  const cells = h('div', {className: 'cells', role: 'none'});
  const row = h('div', {className: 'row', role: 'row'}, name, cells);
  rowBox.append(row);
  return {row, name, cells, parts, squares: []};
};
// Squares for the columns from one to another. Only what changed is written, and a square has an id while it is the active one.
const fill = (box, squares, from, to, role, active, each) => {
  while (squares.length < to - from) {
    const made = h('span', {role});
    squares.push({made, kind: '', label: '', id: '', column: -1});
    box.append(made);
  }
  for (let k = 0; k < squares.length; k++) {
    const it = squares[k], column = from + k;
    const [kind, label] = column < to ? each(column) : ['gone', ''];
    if (it.kind !== kind) it.made.className = it.kind = kind;
    if (it.label !== label) it.made.setAttribute('aria-label', it.label = label);
    if (it.column !== column) it.made.setAttribute('aria-colindex', (it.column = column) + 2);
    const id = column === active.column ? active.id : '';
    if (it.id === id) continue;
    it.id = id;
    if (id) it.made.id = id;
    else it.made.removeAttribute('id');
  }
};
const paintLabels = (c0, c1) => {
  const {cols} = seen, every = Math.ceil(18 / pitch), firstSeen = Math.ceil(grid.scrollLeft / pitch);
  const put = (tag, className, text, left) => {
    const label = h(tag, {className}, text);
    label.style.left = left + 'px';
    labels.append(label);
  };
  labels.replaceChildren();
  let first = c0;
  while (first > 0 && groupOf(cols[first - 1]) === groupOf(cols[c0])) first--;
  for (let c = c0; c < c1; c++) {
    const group = groupOf(cols[c]), begins = c === 0 || group !== groupOf(cols[c - 1]);
    if (begins) first = c;
    if (begins || c === c0) {
      let end = Math.max(c, firstSeen);
      const from = end;
      while (end < cols.length && (end - from) * pitch < 90 && groupOf(cols[end]) === group) end++;
      const room = end < cols.length ? (end - from) * pitch : 90;
      const text = [group, group.length > 5 ? group.slice(-3) : ''].find(text => text.length * 6.6 + 5 <= room) || '';
      if (end > from) put('i', '', text, nameWidth + from * pitch);
    }
    const isAlone = c === first || c + every > cols.length || groupOf(cols[c + every - 1]) === group;
    if ((c - first) % every === 0 && isAlone) put('span', 'u', unitOf(cols[c]), nameWidth + c * pitch + pitch / 2 - 10);
  }
};
const paintName = (it, n, at) => {
  const {t, i} = seen.rows[n], {pad, fold, id, count, related, bad} = it.parts, isWhole = i < 0, isOpen = seen.open.has(t);
  const failures = isWhole ? taskSum[t * 5 + FAILED] : 0;
  it.row.style.top = n * ROW + 'px';
  it.row.className = n === at.row ? 'row on' : 'row';
  it.row.setAttribute('aria-rowindex', n + 2);
  if (isWhole && most[t]) it.row.setAttribute('aria-expanded', isOpen);
  else it.row.removeAttribute('aria-expanded');
  it.name.id = `n${n}`;
  it.name.className = n === at.row && at.col < 0 ? 'name at' : 'name';
  it.name.style.width = nameWidth - 4 + 'px';
  pad.style.width = padOf(t) + (isWhole ? 0 : 10) + 'px';
  fold.hidden = !foldWidth;
  fold.style.visibility = isWhole && most[t] ? '' : 'hidden';
  fold.textContent = isOpen ? '\u25be' : '\u25b8';
  fold.setAttribute('aria-label', `${isOpen ? 'Close' : 'Open'} ${ids[t]}`);
  id.textContent = isWhole ? ids[t] : `[${i}]`;
  count.textContent = isWhole && most[t] ? `[${number(most[t])}]` : '';
  related.textContent = chosen.t < 0 || !isWhole ? '' : up[chosen.t].includes(t) ? '\u2191' : down[chosen.t].includes(t) ? '\u2193' : '';
  bad.textContent = failures ? number(failures) : '';
  bad.title = failures ? `${number(failures)} failed` : '';
};
const paint = () => {
  const at = place(), {states, rows, cols} = seen, left = grid.scrollLeft, top = grid.scrollTop;
  const c0 = Math.max(0, Math.floor(left / pitch) - 6);
  const c1 = Math.min(cols.length, Math.ceil((left + grid.clientWidth - nameWidth) / pitch) + 6);
  const n0 = Math.max(0, Math.floor(top / ROW) - 4), n1 = Math.min(rows.length, Math.ceil((top + grid.clientHeight) / ROW) + 2);
  const key = [n0, n1, c0, c1, at.row, at.col].join();
  if (key === painted) return;
  painted = key;
  const from = nameWidth + c0 * pitch + 'px';
  const active = at.row >= 0 && at.col >= 0 ? `c${at.row}.${at.col}` : at.row >= 0 ? `n${at.row}` : at.col >= 0 ? `h${at.col}` : '';
  const here = {column: at.col, id: active}, elsewhere = {column: -1, id: ''};
  paintLabels(c0, c1);
  headCells.style.left = from;
  fill(headCells, headPool, c0, c1, 'columnheader', at.row < 0 ? here : elsewhere, c => {
    const r = cols[c];
    return [`q s${runFailed[r]}${at.row < 0 && at.col === c ? ' at' : ''}`, `run ${short(starts[r])}, ${STATES[runFailed[r]]}`];
  });
  while (rowPool.length < n1 - n0) rowPool.push(newRow());
  rowPool.forEach((it, k) => {
    const n = n0 + k;
    it.row.hidden = n >= n1;
    if (n >= n1) return;
    paintName(it, n, at);
    it.cells.style.left = from;
    const {t, i} = rows[n];
    fill(it.cells, it.squares, c0, c1, 'gridcell', n === at.row ? here : elsewhere, c => {
      const r = cols[c], code = codeAt(r, t, i), isChosen = n === at.row && c === at.col;
      if (!code) return ['q none', 'none'];
      const state = STATES[stateOf[code]];
      const isDim = states.size && !states.has(stateOf[code]) && !(isExpanded[code] && hasAny(r, t, [...states]));
      const label = isChosen ? `${ids[t]}${i < 0 ? '' : ` ${i}`}, ${short(starts[r])}, ${state}` : state;
      return [classOf[code] + (isChosen ? ' at' : '') + (isDim ? ' dim' : ''), label];
    });
  });
  band.hidden = at.col < 0;
  band.style.left = nameWidth + at.col * pitch + 'px';
  if (active && $(active)) grid.setAttribute('aria-activedescendant', active);
  else grid.removeAttribute('aria-activedescendant');
  drawBrush();
};
const reveal = ({row, col}) => {
  const x = col * pitch, y = row * ROW, width = grid.clientWidth - nameWidth, height = grid.clientHeight - HEAD;
  if (row >= 0 && y < grid.scrollTop) grid.scrollTop = y - ROW;
  else if (row >= 0 && y + ROW > grid.scrollTop + height) grid.scrollTop = y + 2 * ROW - height;
  if (col >= 0 && x < grid.scrollLeft) grid.scrollLeft = x - 2 * pitch;
  else if (col >= 0 && x + pitch > grid.scrollLeft + width) grid.scrollLeft = x + 3 * pitch - width;
};
const toggle = t => {
  if (!most[t]) return;
  if (!seen.open.delete(t)) seen.open.add(t);
  filter();
  if (chosen.t === t && chosen.i >= 0 && !seen.open.has(t)) choose({...chosen, i: -1});
};

"##;

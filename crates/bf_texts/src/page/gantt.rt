//! The Gantt chart of a run.

/// The tries of a run as bars over time, in the order that is asked for.
pub const SCRIPT: &str = r##"// ---- the Gantt: the tries of a run, each from its start to its end

const gantt = $('gantt');
const axis = $('axis');
const barBox = $('bars');
const axisCorner = h('div', {className: 'corner', role: 'none'});
const axisLabels = h('div', {className: 'labels', role: 'none', 'aria-hidden': true});
axis.append(axisCorner, axisLabels);
const AXIS = 30;
const orderAt = new Uint16Array(T);
order.forEach((t, k) => { orderAt[t] = k; });
const byTask = (a, b) => orderAt[a.t] - orderAt[b.t] || a.i - b.i || a.attempt - b.attempt;
const SORTS = {
  task: byTask,
  start: (a, b) => a.start - b.start || byTask(a, b),
  duration: (a, b) => b.end - b.start - (a.end - a.start) || byTask(a, b),
};
const SECOND = 1000, MINUTE = 60 * SECOND, HOUR = 60 * MINUTE, DAY = 24 * HOUR;
const TICKS = [
  1, 2, 5, 10, 20, 50, 100, 200, 500, ...[1, 2, 5, 10, 15, 30].flatMap(n => n * SECOND), ...[1, 2, 5, 10, 15, 30].map(n => n * MINUTE),
  ...[1, 2, 3, 6, 12].map(n => n * HOUR), DAY,
];
const chart = {rows: [], sort: 'start', from: 0, length: 1, stretch: 1, names: 0, width: 0, attempt: 0, at: -1};
const barPool = [];
const tryName = ({t, i, attempt}) => `${ids[t]}${i < 0 ? '' : ` [${i}]`} try ${attempt}`;
const tryWords = it => `${STATES[it.state]}, ${lasted(it.end - it.start)} from ${momentOf(it.start)}, ${codeWords(it.exit)}`;
const sorters = Object.keys(SORTS).map(sort => {
  const button = h('button', {tabIndex: 0}, sort), header = h('span', {role: 'columnheader'}, button);
  button.onclick = () => {
    chart.sort = sort;
    gantt.scrollTop = 0;
    drawTries();
  };
  axisCorner.append(header);
  return {sort, header};
});
const drawTries = () => {
  const {r, t, i} = chosen, {states, find} = seen, all = r < 0 ? [] : triesOf(r);
  const first = all.reduce((least, {start}) => Math.min(least, start), Infinity);
  const last = all.reduce((most, {start, end}) => Math.max(most, start, end), -Infinity);
  chart.from = first;
  chart.length = Math.max(1, last - first);
  chart.rows = all.filter(it => ids[it.t].toLowerCase().includes(find) && (!states.size || states.has(it.state))).sort(SORTS[chart.sort]);
  const own = it => it.t === t && (it.i === i || i < 0);
  chart.at = chart.rows.findIndex(it => own(it) && it.i === i && it.attempt === chart.attempt);
  if (chart.at < 0) chart.at = chart.rows.findIndex(own);
  const few = chart.rows.length < all.length ? `${number(chart.rows.length)} of ` : '';
  $('shown').textContent = r < 0 ? '' : `run ${short(starts[r])}, ${STATES[runFailed[r]]}, ${few}${plural(all.length, 'try', 'tries')}` +
    (all.length ? ` in ${lasted(last - first)}` : '');
  for (const {sort, header} of sorters) {
    if (sort === chart.sort) header.setAttribute('aria-sort', sort === 'duration' ? 'descending' : 'ascending');
    else header.removeAttribute('aria-sort');
  }
  layOutTries();
};
const layOutTries = () => {
  const {rows} = chart, widest = rows.reduce((widest, it) => Math.max(widest, tryName(it).length * 7.3), 60);
  chart.names = Math.round(Math.min(widest + 16, Math.max(120, gantt.clientWidth * 0.3))) + 86;
  chart.width = Math.max(120, gantt.clientWidth - chart.names - 24) * chart.stretch;
  axis.style.width = barBox.style.width = chart.names + chart.width + 16 + 'px';
  barBox.style.height = rows.length * ROW + 6 + 'px';
  axisCorner.style.width = chart.names - 4 + 'px';
  gantt.setAttribute('aria-rowcount', rows.length + 1);
  $('less').disabled = chart.stretch <= 1;
  $('more').disabled = chart.stretch >= 64;
  const y = chart.at * ROW, height = gantt.clientHeight - AXIS;
  if (chart.at >= 0 && y < gantt.scrollTop) gantt.scrollTop = y - ROW;
  else if (chart.at >= 0 && y + ROW > gantt.scrollTop + height) gantt.scrollTop = y + 2 * ROW - height;
  paintAxis();
  paintTries();
};
const paintAxis = () => {
  const share = chart.width / chart.length, least = 76 / share;
  const step = TICKS.find(step => step >= least) || Math.ceil(least / DAY) * DAY;
  axisLabels.style.left = chart.names + 'px';
  axisLabels.replaceChildren();
  for (let at = 0; chart.rows.length && at * share <= chart.width - 40; at += step) {
    const label = h('i', {}, at ? '+' + lasted(at) : '0');
    label.style.left = at * share + 'px';
    axisLabels.append(label);
  }
};
const newBar = () => {
  const id = h('span', {className: 'id', role: 'rowheader', 'aria-colindex': 1}), took = h('span', {className: 'took', role: 'gridcell', 'aria-colindex': 3});
  const name = h('div', {className: 'name', role: 'none'}, id, took), bar = h('span', {'aria-hidden': true});
  const track = h('div', {className: 'track', role: 'gridcell', 'aria-colindex': 2}, bar), row = h('div', {className: 'row', role: 'row'}, name, track);
  barBox.append(row);
  return {row, id, took, name, bar, track};
};
const paintTries = () => {
  const {rows, names, width, from, length, at} = chart, share = width / length, top = gantt.scrollTop;
  const n0 = Math.max(0, Math.floor(top / ROW) - 4), n1 = Math.min(rows.length, Math.ceil((top + gantt.clientHeight) / ROW) + 2);
  while (barPool.length < n1 - n0) barPool.push(newBar());
  barPool.forEach((it, k) => {
    const n = n0 + k;
    it.row.hidden = n >= n1;
    if (n >= n1) return;
    const each = rows[n], isChosen = n === at, isRelated = each.t === chosen.t && (each.i === chosen.i || chosen.i < 0);
    it.row.style.top = n * ROW + 'px';
    it.row.className = isRelated ? 'row on' : 'row';
    it.row.setAttribute('aria-rowindex', n + 2);
    it.name.className = isChosen ? 'name at' : 'name';
    it.name.style.width = names - 4 + 'px';
    it.id.id = `t${n}`;
    it.id.textContent = tryName(each);
    it.id.setAttribute('aria-label', isChosen ? `${tryName(each)}, ${tryWords(each)}` : tryName(each));
    it.took.textContent = lasted(each.end - each.start);
    it.track.style.left = names + 'px';
    it.track.style.width = width + 'px';
    it.track.setAttribute('aria-label', tryWords(each));
    it.bar.className = `q s${each.state}${isChosen ? ' at' : ''}`;
    it.bar.style.left = (each.start - from) * share + 'px';
    it.bar.style.width = Math.max(0, each.end - each.start) * share + 'px';
  });
  if (at >= n0 && at < n1) gantt.setAttribute('aria-activedescendant', `t${at}`);
  else gantt.removeAttribute('aria-activedescendant');
};
const chooseTry = n => {
  const it = chart.rows[Math.max(0, Math.min(chart.rows.length - 1, n))];
  if (!it) return;
  chart.attempt = it.attempt;
  choose({r: chosen.r, t: it.t, i: it.i});
};
const longest = () => chart.rows.reduce((best, it, n) => it.end - it.start > chart.rows[best].end - chart.rows[best].start ? n : best, 0);

"##;

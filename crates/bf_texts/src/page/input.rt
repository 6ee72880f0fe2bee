//! What is done by keys and pointers.

/// What each key, button, click, scroll and movement of a pointer does.
pub const SCRIPT: &str = r##"// ---- what is done by keys and pointers

grid.onkeydown = event => {
  const {row, col} = place(), page = Math.max(1, Math.floor((grid.clientHeight - HEAD) / ROW) - 1), last = seen.cols.length - 1;
  const keys = {
    ArrowLeft: [row, col - 1], ArrowRight: [row, col + 1], ArrowUp: [row - 1, col], ArrowDown: [row + 1, col],
    Home: [event.ctrlKey ? 0 : row, 0], End: [event.ctrlKey ? seen.rows.length - 1 : row, last],
    PageUp: [Math.max(0, row - page), col], PageDown: [row + page, col],
  };
  const to = keys[event.key];
  if (event.altKey || event.metaKey || event.ctrlKey && event.key !== 'Home' && event.key !== 'End') return;
  if (to) move(...(row < 0 && col < 0 ? [0, 0] : to));
  else if (event.key === 'f') nextFailure(1);
  else if (event.key === 'F') nextFailure(-1);
  else if (event.key === 'Enter') details.focus();
  else if (event.key === ' ' && row >= 0) toggle(seen.rows[row].t);
  else if (event.key === 'Escape') choose({r: -1, t: -1, i: -1});
  else return;
  event.preventDefault();
};
gantt.onkeydown = event => {
  const page = Math.max(1, Math.floor((gantt.clientHeight - AXIS) / ROW) - 1), {at, rows} = chart, {r, t, i} = chosen;
  const keys = {ArrowUp: at - 1, ArrowDown: at + 1, Home: 0, End: rows.length - 1, PageUp: at - page, PageDown: at + page, l: longest()};
  const to = keys[event.key];
  if (event.altKey || event.metaKey || event.ctrlKey || event.target !== gantt) return;
  if (to !== undefined) chooseTry(to);
  else if (event.key === 'ArrowLeft') choose({r: Math.max(0, r - 1), t, i});
  else if (event.key === 'ArrowRight') choose({r: Math.min(R - 1, r + 1), t, i});
  else if (event.key === 'Enter') details.focus();
  else if (event.key === 'Escape') choose({r, t: -1, i: -1});
  else return;
  event.preventDefault();
};
details.onkeydown = event => {
  if (event.key !== 'Escape') return;
  const views = {grid, graph: canvas.querySelector('a[tabindex="0"]') || details, gantt};
  views[seen.view].focus();
};
// The row and the column under a pointer.
const under = event => {
  const box = grid.getBoundingClientRect(), x = event.clientX - box.left, y = event.clientY - box.top;
  return {
    row: y < HEAD ? -1 : Math.floor((y - HEAD + grid.scrollTop) / ROW),
    col: x < nameWidth ? -1 : Math.floor((x - nameWidth + grid.scrollLeft) / pitch),
  };
};
const isPlace = ({row, col}) => row < seen.rows.length && col < seen.cols.length && (row >= 0 || col >= 0);
grid.onclick = event => {
  const at = under(event);
  if (!isPlace(at)) return;
  if (event.target.className === 'fold') toggle(seen.rows[at.row].t);
  else move(at.row, at.col);
};
const tip = $('tip');
const tipText = ({row, col}) => {
  const r = col < 0 ? -1 : seen.cols[col];
  if (row < 0) return `run \u00b7 ${short(starts[r])} \u00b7 ${STATES[runFailed[r]]}`;
  const {t, i} = seen.rows[row], name = ids[t] + (i < 0 ? '' : ` [${i}]`), code = col < 0 ? 0 : codeAt(r, t, i);
  if (col < 0) return name;
  return code ? `${name} \u00b7 ${short(starts[r])} \u00b7 ${i < 0 ? stateWords(r, t) : STATES[stateOf[code]]}` : '';
};
const showTip = (event, text) => {
  tip.textContent = event.pointerType === 'touch' ? '' : text;
  tip.hidden = !tip.textContent;
  if (tip.hidden) return;
  const {width, height} = tip.getBoundingClientRect();
  const isLow = event.clientY + 22 + height > innerHeight;
  tip.style.left = Math.min(event.clientX + 12, innerWidth - width - 8) + 'px';
  tip.style.top = (isLow ? event.clientY - height - 8 : event.clientY + 18) + 'px';
};
grid.onpointermove = event => {
  const at = under(event);
  showTip(event, isPlace(at) ? tipText(at) : '');
};
// The row of the Gantt under a pointer, -1 for the axis.
const rowUnder = event => {
  const y = event.clientY - gantt.getBoundingClientRect().top;
  return y < AXIS ? -1 : Math.floor((y - AXIS + gantt.scrollTop) / ROW);
};
gantt.onclick = event => {
  const n = rowUnder(event);
  if (n >= 0 && n < chart.rows.length) chooseTry(n);
};
gantt.onpointermove = event => {
  const it = chart.rows[rowUnder(event)];
  showTip(event, it ? `${tryName(it)} \u00b7 ${tryWords(it)}` : '');
};
grid.onpointerleave = gantt.onpointerleave = () => { tip.hidden = true; };
gantt.onscroll = () => {
  tip.hidden = true;
  requestAnimationFrame(paintTries);
};
let isWaiting = false;
grid.onscroll = () => {
  tip.hidden = true;
  if (isWaiting) return;
  isWaiting = true;
  requestAnimationFrame(() => {
    isWaiting = false;
    paint();
    drawBrush();
  });
};
map.onpointerdown = event => {
  map.setPointerCapture(event.pointerId);
  dragBrush(event);
};
map.onpointermove = dragBrush;
VIEWS.forEach((view, k) => {
  const tab = $('tab-' + view);
  tab.hidden = false;
  tab.onclick = () => {
    setView(view);
    choose(chosen);
  };
  tab.onkeydown = event => {
    const step = {ArrowLeft: VIEWS.length - 1, ArrowRight: 1}[event.key];
    if (!step) return;
    const other = $('tab-' + VIEWS[(k + step) % VIEWS.length]);
    other.click();
    other.focus();
  };
});
$('less').onclick = () => resize(-1);
$('more').onclick = () => resize(1);
$('before-failed').onclick = () => nextFailedRun(-1);
$('next-failed').onclick = () => nextFailedRun(1);
$('before-failed').hidden = $('next-failed').hidden = !failedRuns;
$('find').oninput = () => {
  seen.find = $('find').value.trim().toLowerCase();
  refilter();
};
document.querySelector('.skip').onclick = event => {
  event.preventDefault();
  grid.focus();
};
addEventListener('hashchange', () => {
  const next = fromHash();
  if (next.view !== seen.view) setView(next.view);
  choose(next, 'address');
});
let resizing = 0;
addEventListener('resize', () => {
  clearTimeout(resizing);
  resizing = setTimeout(() => {
    if (seen.view === 'grid') layOut();
    else if (seen.view === 'gantt') layOutTries();
  }, 100);
});
matchMedia('(prefers-color-scheme: dark)').addEventListener('change', () => seen.view === 'grid' && drawMap());

"##;

//! The overview of a grid that doesn't fit.

/// A small picture of the whole grid, and the part of it that is in sight.
pub const SCRIPT: &str =
    r##"// ---- the overview, where the grid doesn't show all: of each piece the worst state, the paler the fewer of its squares are no success

const map = $('map');
const mapBox = $('mapbox');
const brush = $('brush');
const MAP = 40;
const BADNESS = [0, 4, 3, 1, 2];
const colourOf = name => {
  const hex = getComputedStyle(document.documentElement).getPropertyValue(name).trim().slice(1);
  return (hex.length === 3 ? [...hex].map(c => c + c) : hex.match(/../g)).map(pair => parseInt(pair, 16));
};
const mixed = (from, to, share) => from.map((value, k) => value + share * (to[k] - value));
const drawMap = () => {
  const {rows, cols} = seen, N = rows.length, C = cols.length;
  const overflows = C * pitch + nameWidth > grid.clientWidth + 8 || N * ROW > grid.clientHeight;
  mapBox.hidden = !overflows || C * N < 400;
  if (mapBox.hidden) return;
  const W = Math.min(C, Math.max(1, Math.floor(map.clientWidth * devicePixelRatio))), H = Math.min(N, Math.floor(MAP * devicePixelRatio));
  const worst = new Int8Array(W * H).fill(-1), all = new Uint32Array(W * H), bad = new Uint32Array(W * H);
  for (let c = 0; c < C; c++) {
    const x = Math.floor(c * W / C), base = cols[c] * T;
    let own = null;
    for (let n = 0; n < N; n++) {
      const {t, i} = rows[n];
      if (i === 0) own = instancesOf(cols[c], t);
      const code = i < 0 ? cell[base + t] : own && i < own.length ? own.charCodeAt(i) : 0;
      if (!code) continue;
      const at = Math.floor(n * H / N) * W + x, s = stateOf[code];
      all[at]++;
      if (s !== SUCCESS && s !== SKIPPED) bad[at]++;
      if (worst[at] < 0 || BADNESS[s] > BADNESS[worst[at]]) worst[at] = s;
    }
  }
  const ink = STATES.map((_, s) => colourOf('--s' + s)), pale = ink.map(colour => mixed(colourOf('--bg'), colour, 0.45));
  map.width = W;
  map.height = H;
  const pen = map.getContext('2d'), image = pen.createImageData(W, H);
  worst.forEach((s, at) => {
    if (s < 0) return;
    const isGood = s === SUCCESS || s === SKIPPED;
    const colour = isGood ? pale[s] : mixed(pale[SUCCESS], ink[s], 0.4 + 0.6 * Math.min(1, 4 * bad[at] / all[at]));
    image.data.set([...colour, 255], at * 4);
  });
  pen.putImageData(image, 0, 0);
  drawBrush();
};
const drawBrush = () => {
  if (mapBox.hidden) return;
  const width = Math.max(1, seen.cols.length * pitch), height = Math.max(1, seen.rows.length * ROW);
  const x0 = grid.scrollLeft / width, x1 = Math.min(1, (grid.scrollLeft + grid.clientWidth - nameWidth) / width);
  const y0 = grid.scrollTop / height, y1 = Math.min(1, (grid.scrollTop + grid.clientHeight - HEAD) / height);
  brush.style.left = x0 * map.clientWidth - 2 + 'px';
  brush.style.width = Math.max(6, (x1 - x0) * map.clientWidth + 4) + 'px';
  brush.style.top = y0 * MAP - 2 + 'px';
  brush.style.height = Math.max(6, (y1 - y0) * MAP + 4) + 'px';
};
const dragBrush = event => {
  if (!(event.buttons & 1)) return;
  const box = map.getBoundingClientRect();
  grid.scrollLeft = (event.clientX - box.left) / box.width * seen.cols.length * pitch - (grid.clientWidth - nameWidth) / 2;
  grid.scrollTop = (event.clientY - box.top) / box.height * seen.rows.length * ROW - (grid.clientHeight - HEAD) / 2;
};

"##;

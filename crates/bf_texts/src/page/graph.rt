//! The picture of the graph.

/// Where the graph's tasks and edges lie, and how they are drawn.
pub const SCRIPT: &str =
    r##"// ---- the graph: layers by the longest path, fewer crossings by means of neighbours, and heights as near to neighbours as may be

const NODE = 30;
const GAP = 12;
const MOST_PLACES = 6000;
const nameOf = t => ids[t].length > 26 ? `${ids[t].slice(0, 14)}\u2026${ids[t].slice(-11)}` : ids[t];
const ranksOf = () => {
  const rank = new Int32Array(T);
  for (const t of order) for (const u of up[t]) rank[t] = Math.max(rank[t], rank[u] + 1);
  for (const t of order) if (!up[t].length && down[t].length) rank[t] = Math.min(...down[t].map(d => rank[d])) - 1;
  return rank;
};
// The nodes, the places that long edges take in the layers between, where these aren't too many, and for each edge its way.
const layersOf = () => {
  const rank = [...ranksOf()], before = up.map(() => []), after = up.map(() => []), layers = [], ways = [];
  const edges = order.flatMap(t => up[t].map(u => [u, t]));
  const hasPlaces = edges.reduce((sum, [u, t]) => sum + rank[t] - rank[u] - 1, 0) <= MOST_PLACES;
  for (const [u, t] of edges) {
    const way = [u];
    for (let layer = rank[u] + 1; hasPlaces && layer < rank[t]; layer++) {
      way.push(rank.length);
      rank.push(layer);
      before.push([]);
      after.push([]);
    }
    way.push(t);
    for (let k = 1; k < way.length; k++) {
      after[way[k - 1]].push(way[k]);
      before[way[k]].push(way[k - 1]);
    }
    ways.push(way);
  }
  for (const n of [...order, ...[...rank.keys()].slice(T)]) (layers[rank[n]] = layers[rank[n]] || []).push(n);
  return {rank, before, after, layers, ways};
};
// How many pairs of edges cross between neighbouring layers: by a tree of sums, in the order of their beginnings.
const crossingsOf = ({rank, after, layers}, at) => layers.reduce((sum, layer) => {
  const ends = layer.flatMap(n => after[n].filter(m => rank[m] === rank[n] + 1).map(m => at[m]).sort((a, b) => a - b));
  const tree = new Int32Array(ends.reduce((most, end) => Math.max(most, end), 0) + 2);
  ends.forEach((end, k) => {
    let notBeyond = 0;
    for (let p = end + 1; p > 0; p -= p & -p) notBeyond += tree[p];
    sum += k - notBeyond;
    for (let p = end + 1; p < tree.length; p += p & -p) tree[p]++;
  });
  return sum;
}, 0);
const mean = (all, of) => all.reduce((sum, m) => sum + of[m], 0) / all.length;
const uncross = made => {
  const {before, after, layers} = made, at = new Float64Array(made.rank.length);
  const note = layer => layer.forEach((n, k) => { at[n] = k; });
  layers.forEach(note);
  let best = layers.map(layer => [...layer]), least = crossingsOf(made, at);
  for (let turn = 0; turn < 12 && least; turn++) {
    const near = turn % 2 ? after : before, wish = new Float64Array(at.length);
    for (const layer of turn % 2 ? [...layers].reverse() : layers) {
      for (const n of layer) wish[n] = near[n].length ? mean(near[n], at) : at[n];
      layer.sort((a, b) => wish[a] - wish[b] || at[a] - at[b]);
      note(layer);
    }
    const now = crossingsOf(made, at);
    if (now < least) [least, best] = [now, layers.map(layer => [...layer])];
  }
  best.forEach((layer, k) => { layers[k] = layer; });
};
// The heights of a layer in its order, each as near to what it wishes as the others let it: neighbours that clash go as one block.
const settle = (layer, y, high, wish) => {
  const blocks = [];
  let offset = 0;
  for (const n of layer) {
    blocks.push({sum: wish(n) - offset - high(n) / 2, size: 1});
    offset += high(n);
    for (let last = blocks.length - 1; last > 0 && blocks[last - 1].sum / blocks[last - 1].size > blocks[last].sum / blocks[last].size; last--) {
      blocks[last - 1].sum += blocks[last].sum;
      blocks[last - 1].size += blocks[last].size;
      blocks.pop();
    }
  }
  let next = 0, top = 0;
  for (const {sum, size} of blocks) {
    for (let k = 0; k < size; k++) {
      const n = layer[next++];
      y[n] = sum / size + top + high(n) / 2;
      top += high(n);
    }
  }
};
const layOutGraph = () => {
  const made = layersOf(), {rank, before, after, layers, ways} = made;
  uncross(made);
  const y = new Float64Array(rank.length), high = n => n < T ? NODE + GAP : GAP + 4;
  for (const layer of layers) settle(layer, y, high, () => 0);
  for (let turn = 0; turn < 10; turn++) {
    for (const layer of turn % 2 ? [...layers].reverse() : layers) {
      settle(layer, y, high, n => {
        const near = turn >= 8 ? [...before[n], ...after[n]] : turn % 2 ? after[n] : before[n];
        return near.length ? mean(near, y) : y[n];
      });
    }
  }
  const bows = ways.some(way => way.length === 2 && rank[way[1]] - rank[way[0]] > 1);
  const top = y.reduce((least, each) => Math.min(least, each), Infinity) - NODE / 2 - 16 - (bows ? BOW : 0);
  const height = y.reduce((most, each) => Math.max(most, each), 0) - top + NODE / 2 + 16;
  const x = [], width = [];
  let right = 16;
  layers.forEach((layer, k) => {
    const room = t => nameOf(t).length * 7.25 + 40 + (most[t] ? 16 + 7 * String(most[t]).length : 0);
    width[k] = layer.reduce((widest, n) => n < T ? Math.max(widest, room(n)) : widest, 24);
    x[k] = right;
    right += width[k] + Math.min(110, 40 + layer.length * 1.5);
  });
  return {rank, x, width, y: y.map(each => each - top), ways, layers: layers.map(layer => layer.filter(n => n < T)), w: right + 10, h: height};
};
// A way as a path. An edge over several layers that has no places in them goes in a bow above what stands between.
const BOW = 70;
const pathOf = ({rank, x, y, width}) => way => way.map((n, k) => {
  const to = rank[n];
  if (k === 0) return `M${x[to] + width[to]} ${y[n].toFixed(1)}`;
  const from = rank[way[k - 1]], x0 = x[from] + width[from], half = (x0 + x[to]) / 2, bow = Math.min(BOW, 12 * (to - from - 1));
  const [y0, y1] = [y[way[k - 1]], y[n]];
  return `C${bow ? x0 + 20 : half} ${(y0 - bow).toFixed(1)} ${bow ? x[to] - 20 : half} ${(y1 - bow).toFixed(1)} ${x[to]} ${y1.toFixed(1)}` +
    (n >= T ? `H${x[to] + width[to]}` : '');
}).join('');

const canvas = $('scroll');
const SIGNS = ['', 'M3 3L11 11M11 3L3 11', 'M7 3.4L11.4 10.6H2.6Z', 'M3 7H11', ''];
let drawn = null;
let scale = 1;
const nodeOf = (made, t) => {
  const left = made.x[made.rank[t]], wide = made.width[made.rank[t]], y = made.y[t];
  const box = (dx, dy) => svg('rect', {class: 'box', x: left + dx, y: y - NODE / 2 + dy, width: wide, height: NODE, rx: 6});
  const fill = svg('rect', {class: 'fill', x: left + 8, y: y - 8, width: 16, height: 16, rx: 3});
  const sign = svg('path', {class: 'sign', transform: `translate(${left + 9} ${y - 7})`});
  const count = svg('text', {class: 'sub', x: left + wide - 7, y: y + 4, 'text-anchor': 'end'});
  const parts = [box(0, 0), fill, sign, svg('text', {x: left + 30, y: y + 4}, nameOf(t)), count];
  const node = svg('a', {}, svg('title', {}, ids[t]), ...(source[t] >= 0 ? [box(3, -3)] : []), ...parts);
  node.onclick = event => {
    event.preventDefault();
    choose({r: chosen.r, t, i: -1});
  };
  return {node, fill, sign, count};
};
const drawGraph = () => {
  const made = layOutGraph(), path = pathOf(made);
  const edges = svg('path', {class: made.ways.length > 1000 ? 'edge pale' : 'edge', d: made.ways.map(path).join('')});
  const hot = svg('path', {class: 'hot'});
  const nodes = tasks.map((_, t) => nodeOf(made, t));
  const picture = svg('svg', {viewBox: `0 0 ${made.w} ${made.h}`, role: 'group', 'aria-label': 'Graph of the tasks'}, edges, hot);
  picture.append(...nodes.map(({node}) => node));
  picture.onkeydown = event => {
    const t = chosen.t < 0 ? order[0] : chosen.t, layer = made.layers[made.rank[t]], k = layer.indexOf(t);
    const nearest = all => [...all].sort((a, b) => Math.abs(made.y[a] - made.y[t]) - Math.abs(made.y[b] - made.y[t]))[0];
    const keys = {
      ArrowLeft: nearest(up[t]), ArrowRight: nearest(down[t]), ArrowUp: layer[k - 1], ArrowDown: layer[k + 1],
      Home: order[0], End: order[T - 1],
    };
    if (event.ctrlKey || event.altKey || event.metaKey) return;
    if (event.key === 'Enter') details.focus();
    else if (keys[event.key] === undefined) return;
    else {
      choose({r: chosen.r, t: keys[event.key], i: -1});
      nodes[chosen.t].node.focus({preventScroll: true});
    }
    event.preventDefault();
  };
  drawn = {...made, picture, nodes, hot, path};
  canvas.replaceChildren(picture);
  const fits = Math.min((canvas.clientWidth - 4) / made.w, (canvas.clientHeight - 4) / made.h);
  scale = Math.min(1, Math.max(0.6, fits));
  zoom();
};
const zoom = () => {
  drawn.picture.setAttribute('width', drawn.w * scale);
  drawn.picture.setAttribute('height', drawn.h * scale);
};
const drawStates = () => {
  const {r, t} = chosen;
  if (!drawn) return;
  drawn.nodes.forEach(({node, fill, sign, count}, k) => {
    const code = r < 0 ? 0 : codeOf(r, k), s = stateOf[code], isDim = seen.states.size && !(code && hasAny(r, k, [...seen.states]));
    fill.setAttribute('fill', !code || s === NO_STATUS ? 'none' : `var(--s${s})`);
    fill.setAttribute('stroke', code ? `var(--s${s})` : 'var(--line)');
    sign.setAttribute('d', code ? SIGNS[s] : '');
    sign.setAttribute('class', s === UPSTREAM_FAILED ? 'sign full' : 'sign');
    count.textContent = code && isExpanded[code] ? `[${number(instancesOf(r, k).length)}]` : '';
    node.setAttribute('class', (k === t ? 'on' : '') + (isDim ? ' dim' : ''));
    node.setAttribute('tabindex', k === (t < 0 ? order[0] : t) ? 0 : -1);
    node.setAttribute('href', hashOf({r, t: k, i: -1}));
    node.setAttribute('aria-label', `${ids[k]}${code ? ', ' + STATES[s] : ''}, ${up[k].length} upstream, ${down[k].length} downstream`);
  });
  drawn.hot.setAttribute('d', t < 0 ? '' : drawn.ways.filter(way => way[0] === t || way[way.length - 1] === t).map(drawn.path).join(''));
  $('shown').textContent = r < 0 ? '' : `run ${short(starts[r])}, ${STATES[runFailed[r]]}`;
  if (t < 0) return;
  const x = drawn.x[drawn.rank[t]] * scale, y = drawn.y[t] * scale, right = x + drawn.width[drawn.rank[t]] * scale;
  if (x < canvas.scrollLeft || right > canvas.scrollLeft + canvas.clientWidth) canvas.scrollLeft = x - canvas.clientWidth / 2;
  if (y - 20 < canvas.scrollTop || y + 20 > canvas.scrollTop + canvas.clientHeight) canvas.scrollTop = y - canvas.clientHeight / 2;
};

"##;

//! Reading the texts that are told.

/// What the graph, the cells, the report and the times say. The last two are read only where they are wanted.
pub const SCRIPT: &str = r##"// ---- the graph file

const graph = JSON.parse(plain(raw('graph')));
const tasks = graph.tasks.map(task => ({rule: 'all_success', kind: 'program', command: [], retries: 0, ...task}));
const T = tasks.length;
const ids = tasks.map(task => task.id);
const taskAt = new Map(ids.map((id, t) => [id, t]));
const up = tasks.map(task => [...new Set((task.upstream || []).map(id => taskAt.get(id)))]);
const down = tasks.map(() => []);
up.forEach((ups, t) => ups.forEach(u => down[u].push(t)));
const source = tasks.map(task => task.expand === undefined ? -1 : taskAt.get(task.expand));
const isSource = tasks.map((_, t) => source.includes(t));
// The rows: behind a task come those of its downstreams that wait for nothing more, depth first. How deep they stand so is `depth`.
const order = [];
const depth = new Uint16Array(T);
const waits = up.map(ups => ups.length);
for (let left = [...waits.keys()].filter(t => !waits[t]).reverse(); left.length;) {
  const t = left.pop();
  order.push(t);
  const ready = down[t].filter(d => --waits[d] === 0);
  for (const d of ready) depth[d] = depth[t] + 1;
  left.push(...ready.reverse());
}

// ---- the cells: a letter for each task in each run, and behind them the letters of the instances of those that are expanded

const graphPath = plain(raw('graph-path'));
const reportPath = plain(raw('report-path'));
const zonePath = plain(raw('zone-path'));
const cellLines = raw('cells').split('\n');
const [, , dagId, , runCount, reportBytes] = cellLines[0].split(' ');
const R = Number(runCount);
const hasReport = $('report').firstChild !== null;
const LETTERS = {
  s: 0, r: 0, f: 1, x: 3, b: 3, k: 3, e: 3, u: 2, i: 2, n: 4, p: 4, q: 4, S: 0, R: 0, F: 1, X: 3,
  1: 0, 2: 1, 3: 3, 4: 3, 5: 2, 6: 4, 7: 0, 8: 1, 9: 3,
};
const codeOfLetter = letter => letter.charCodeAt(0);
const isOdd = code => code < 65;
const stateOf = new Uint8Array(128);
const isExpanded = new Uint8Array(128);
const classOf = [];
for (const letter in LETTERS) {
  const code = codeOfLetter(letter);
  stateOf[code] = LETTERS[letter];
  isExpanded[code] = 'SRFX789'.includes(letter) ? 1 : 0;
  const marks = ['q', 's' + LETTERS[letter], 'rR'.includes(letter) ? 're' : '', isExpanded[code] ? 'ex' : '', isOdd(code) ? 'odd' : ''];
  classOf[code] = marks.filter(Boolean).join(' ');
}
const starts = [];
const ends = [];
const words = [];
const cell = new Uint8Array(R * T);
const runFailed = new Uint8Array(R);
const total = [0, 0, 0, 0, 0];
const taskSum = new Uint32Array(T * 5);
const runSum = new Uint32Array(R * 5);
const most = new Uint16Array(T);
const failedIn = new Uint16Array(T);
const firstFailed = new Uint16Array(T);
let odd = 0;
for (let r = 0; r < R; r++) {
  const [start, end, state, letters, ...instances] = cellLines[r + 1].split(' ');
  starts.push(start);
  ends.push(end);
  words.push(instances);
  runFailed[r] = state === 'failed' ? 1 : 0;
  let word = 0;
  for (let t = 0; t < T; t++) {
    const code = letters.charCodeAt(t), s = stateOf[code];
    cell[r * T + t] = code;
    if (isOdd(code)) odd++;
    if (s === FAILED && failedIn[t]++ === 0) firstFailed[t] = r;
    if (!isExpanded[code]) {
      taskSum[t * 5 + s]++;
      runSum[r * 5 + s]++;
      continue;
    }
    const own = instances[word++];
    if (own.length > most[t]) most[t] = own.length;
    for (let i = 0; i < own.length; i++) {
      const each = stateOf[own.charCodeAt(i)];
      taskSum[t * 5 + each]++;
      runSum[r * 5 + each]++;
    }
  }
  for (let s = 0; s < 5; s++) total[s] += runSum[r * 5 + s];
}
cellLines.length = 0;
const runAt = new Map(starts.map((start, r) => [start, r]));
const codeOf = (r, t) => cell[r * T + t];
const letterOf = (r, t) => String.fromCharCode(codeOf(r, t));
const ran = (r, t) => !'bkeuinpq456'.includes(letterOf(r, t));
const hasNoStatus = (r, t) => stateOf[codeOf(r, t)] === NO_STATUS;
// The letters of the instances of a task in a run, or null. Which word of the run has them is worked out once.
const wordAt = [];
const instancesOf = (r, t) => {
  if (!isExpanded[codeOf(r, t)]) return null;
  if (!wordAt[r]) {
    wordAt[r] = new Uint16Array(T);
    for (let each = 0, word = 0; each < T; each++) if (isExpanded[codeOf(r, each)]) wordAt[r][each] = word++;
  }
  return words[r][wordAt[r][t]];
};
const countsOf = (r, t) => {
  const counts = [0, 0, 0, 0, 0], instances = instancesOf(r, t);
  if (!instances) counts[stateOf[codeOf(r, t)]] = 1;
  else for (const letter of instances) counts[LETTERS[letter]]++;
  return counts;
};
const hasAny = (r, t, states) => countsOf(r, t).some((n, s) => n && states.includes(s));
// The code of a task or of one of its instances; 0 where there is no such instance.
const codeAt = (r, t, i) => {
  if (i < 0) return codeOf(r, t);
  const instances = instancesOf(r, t);
  return instances && i < instances.length ? instances.charCodeAt(i) : 0;
};

// ---- the report, which is looked at only where details are wanted

let report = null;
const runOffsets = [];
const readReport = () => {
  if (report !== null) return;
  report = raw('report');
  for (let at = report.indexOf('\n@run '); at >= 0; at = report.indexOf('\n@run ', at + 1)) runOffsets.push(at + 1);
  runOffsets.push(report.lastIndexOf('\n@end ') + 1);
};
// The instances of a task in a run: their lines, with what they were given.
const readInstances = (r, t) => {
  if (!hasReport) return null;
  readReport();
  const lines = report.slice(runOffsets[r], runOffsets[r + 1] - 1).split('\n'), front = ids[t] + ' ', found = [];
  for (const each of lines) {
    if (!each.startsWith(front) && (!found.length || each[0] !== '@')) {
      if (found.length) break;
      continue;
    }
    const line = plain(each), last = found[found.length - 1];
    if (line.startsWith('@item ')) last.item = line.slice(6);
    else if (line.startsWith('@pull ')) last.pulls.push([line.slice(6, line.indexOf(' ', 6)), line.slice(line.indexOf(' ', 6) + 1)]);
    else {
      const [, index, state, tries] = line.split(' ', 4);
      const value = line.slice(front.length + index.length + state.length + tries.length + 3);
      found.push({index: Number(index), state: STATES.indexOf(state), tries: Number(tries), value, item: null, pulls: []});
    }
  }
  return found;
};
const valueOf = (r, t) => hasReport ? readInstances(r, t)[0].value : null;
// A report of version 1 doesn't tell what instances were given.
const tellsGiven = () => {
  readReport();
  return !report.startsWith('@backfill 1 ');
};

// ---- the times of tries, which are looked at only where they are wanted

const hasTimes = $('times').firstChild !== null;
let times = null;
const timeOffsets = starts.map(() => []);
const readTimes = () => {
  if (times !== null) return;
  times = raw('times');
  for (let at = times.indexOf('\n') + 1; at > 0 && at < times.length; at = times.indexOf('\n', at) + 1) {
    timeOffsets[runAt.get(times.slice(at, times.indexOf(' ', at)))].push(at);
  }
};
// The tries of a run whose times are known: of several records of one try the last. What came of an instance is what came of its last
// try, and those before it failed. What the report doesn't have is as what has no status.
const triesOf = r => {
  readTimes();
  const found = new Map(), lasts = new Map();
  for (const at of timeOffsets[r]) {
    const [, id, ...numbers] = times.slice(at, times.indexOf('\n', at)).split(' ');
    const t = taskAt.get(id), [i, attempt, start, end, exit] = numbers.map(Number);
    found.set(`${t} ${i} ${attempt}`, {t, i, attempt, start, end, exit});
    lasts.set(`${t} ${i}`, Math.max(attempt, lasts.get(`${t} ${i}`) || 0));
  }
  return Array.from(found.values(), it => {
    const code = codeAt(r, it.t, it.i);
    return {...it, state: !code ? NO_STATUS : it.attempt < lasts.get(`${it.t} ${it.i}`) ? FAILED : stateOf[code]};
  });
};

"##;

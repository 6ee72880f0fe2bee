//! Why a task or a run has its state.

/// The sentences of `explain`, and where it began that a task wasn't tried.
pub const SCRIPT: &str = r##"// ---- why: the sentences of `explain`

// Why a rule says what it says: words, or the states of those that are named behind `because of`.
const SINCE = {
  all_success: {u: [1, 2], k: [3], r: 'since all are success'},
  all_failed: {k: [0, 3], r: 'since all are failed or upstream_failed'},
  all_skipped: {k: [0, 1, 2], r: 'since all are skipped'},
  all_done: {r: 'since all are done'},
  one_success: {u: 'since none is a success and not all are skipped', k: 'since all are skipped', r: [0]},
  one_failed: {k: 'since none is failed or upstream_failed', r: [1, 2]},
  one_done: {k: 'since none is success or failed', r: [0, 1]},
  none_failed: {u: [1, 2], r: 'since none is failed or upstream_failed'},
  none_failed_min_one_success: {
    u: [1, 2], k: 'since none is a success', r: 'since none is failed or upstream_failed and not all are skipped',
  },
  none_skipped: {k: [3], r: 'since none is skipped'},
  always: {r: 'whatever came of them'},
};
const SAYS = {r: 'run', u: 'upstream_failed', k: 'skipped'};
const BECAME = ['was a success', 'failed', 'was upstream_failed', 'was skipped', 'had no status'];
// The states of upstreams for which a rule skips. Those of a success are left out, since nothing began there.
const SKIPS_FOR = {
  all_success: [3], all_failed: [3], all_skipped: [1, 2], one_success: [3], one_done: [2, 3], none_failed_min_one_success: [3], none_skipped: [3],
};
const having = (r, t, states) => up[t].filter(u => hasAny(r, u, states));
const blockedUp = (r, t, branches) => up[t].filter(u => hasNoStatus(r, u) && (!branches || tasks[u].kind === 'branch'));
const haveNoStatus = names => `${listed(names)} ${names.length === 1 ? 'has' : 'have'} no status`;
const pushed = value => value === null ? "what isn't in this page" : value === '-' ? 'nothing' : cut(shown(value));
const since = (r, t, says) => {
  const reason = SINCE[tasks[t].rule][says];
  if (typeof reason === 'string') return reason;
  return 'because of ' + listed(having(r, t, reason).map(u => {
    const counts = countsOf(r, u), instances = instancesOf(r, u);
    return ids[u] + (instances ? ` (${reason.reduce((sum, s) => sum + counts[s], 0)} of ${instances.length})` : '');
  }));
};
const cameOf = (r, t) => {
  const instances = instancesOf(r, t);
  return instances ? `came to ${plural(instances.length, 'instance')} (${counted(countsOf(r, t))})` : BECAME[stateOf[codeOf(r, t)]];
};
const reaches = (from, to) => {
  const reached = new Set([from]), left = [from];
  while (left.length) {
    const t = left.pop();
    if (t === to) return true;
    for (const d of down[t]) if (!reached.has(d)) reached.add(d) && left.push(d);
  }
  return false;
};
// The branches that succeeded and don't follow a task; without the report all that succeeded.
const skippingBranches = (r, t) => up[t].filter(u => {
  if (tasks[u].kind !== 'branch' || stateOf[codeOf(r, u)] !== SUCCESS) return false;
  const value = valueOf(r, u);
  if (value === null) return true;
  const named = value === '-' ? [] : [JSON.parse(value)].flat();
  return !named.some(name => taskAt.has(name) && reaches(taskAt.get(name), t));
});
const whyExpanded = (r, t, letter) => {
  const over = source[t], overInstances = source[over] >= 0, n = (instancesOf(r, t) || '').length;
  if (letter === 'i') return `It is expanded over ${ids[over]}, which pushed no list: it ${cameOf(r, over)}.`;
  if (letter === 'e') return `It is expanded over ${ids[over]}, ${overInstances ? 'whose instances pushed nothing' : 'which pushed an empty list'}.`;
  const items = overInstances ? `${plural(n, 'value')} that its instances pushed` : `${plural(n, 'item')} of the list that it pushed`;
  return `It is expanded over ${ids[over]}: ${items}.`;
};
const whyDecided = (r, t) => {
  const letter = letterOf(r, t), out = [];
  if (letter === 'b') {
    return skippingBranches(r, t).map(b => `The branch ${ids[b]} succeeded and doesn't follow it: it pushed ${pushed(valueOf(r, b))}.`);
  }
  const blocked = blockedUp(r, t, letter === 'q').map(u => ids[u]);
  if (letter === 'q') return [`Directly upstream, the ${blocked.length === 1 ? 'branch' : 'branches'} ${haveNoStatus(blocked)}.`];
  if (letter === 'p') return [`Directly upstream, ${haveNoStatus(blocked)}.`];
  const says = letter === 'k' || letter === 'u' ? letter : 'r';
  if (!up[t].length) out.push('It has no upstream tasks, so no rule holds it back.');
  else {
    const counts = [0, 0, 0, 0, 0];
    for (const u of up[t]) countsOf(r, u).forEach((n, s) => { counts[s] += n; });
    const over = `${plural(counts.reduce((sum, n) => sum + n), 'upstream instance')} (${counted(counts)})`;
    out.push(`Its rule ${tasks[t].rule}, over ${over}, says ${SAYS[says]}, ${since(r, t, says)}.`);
  }
  if (says !== 'r') return out;
  if (tasks[t].depends_on_past) {
    const past = r === 0 ? 'this is the first run' : `in the run of ${starts[r - 1]} it ${cameOf(r - 1, t)}`;
    out.push(`It depends on its past, and ${past}.`);
  }
  if (letter !== 'n' && source[t] >= 0) out.push(whyExpanded(r, t, letter));
  return out;
};
const whyTried = (t, {tries, state}) => {
  const allowed = tasks[t].retries + 1;
  if (state === SUCCESS) return [tries === 1 ? 'Its first try succeeded.' : `Its try ${tries} succeeded, behind ${tries - 1} that failed.`];
  if (state === SKIPPED) return [`Its try ${tries} exited with 99, which skips it.`];
  const out = [];
  if (tries !== allowed) out.push(`Its try ${tries} failed, and this graph allows ${allowed}.`);
  else out.push(allowed === 1 ? 'Its one try failed.' : `All its ${tries} tries failed.`);
  if (tasks[t].kind === 'branch') out.push("A branch fails, too, where what it pushes names a task that isn't directly downstream of it.");
  if (source[t] < 0 && isSource[t]) {
    out.push("It fails, too, where it doesn't push a list of 0 to 1,024 items, since a task is expanded over it.");
  }
  out.push("Why a try failed isn't in a report: what its program wrote to standard error says it.");
  return out;
};
// Where it began that a task wasn't tried: tasks in runs, each with what came of it.
const rootsOf = (run, task) => {
  const found = [], looked = new Set(), left = [[run, task]];
  if (ran(run, task)) return found;
  while (left.length) {
    const [r, t] = left.pop(), letter = letterOf(r, t);
    if (looked.has(r * T + t)) continue;
    looked.add(r * T + t);
    if (ran(r, t)) {
      if (hasAny(r, t, [FAILED])) found.push([r, t, 'failed']);
      else if (hasAny(r, t, [SKIPPED])) found.push([r, t, 'exited with 99']);
    } else if (letter === 'b') {
      for (const b of skippingBranches(r, t).filter(b => !looked.has(r * T + b))) {
        looked.add(r * T + b);
        found.push([r, b, `pushed ${pushed(valueOf(r, b))}`]);
      }
    } else if (letter === 'e') found.push([r, source[t], 'pushed no items']);
    else if (letter === 'n') left.push([r - 1, t]);
    else if (letter === 'i') left.push([r, source[t]]);
    else if (!isOdd(codeOf(r, t))) {
      const from = letter === 'u' ? having(r, t, [FAILED, UPSTREAM_FAILED]) :
        letter === 'k' ? having(r, t, SKIPS_FOR[tasks[t].rule] || []) : blockedUp(r, t, letter === 'q');
      for (const u of from.reverse()) left.push([r, u]);
    }
  }
  return found;
};
const isFar = (r, t) => ([root, u]) => root !== r || !up[t].includes(u);
const inTheRun = (r, root) => root === r ? '' : ` in the run of ${starts[root]}`;
const why = (r, t, i, instance) => {
  if (isOdd(codeOf(r, t))) return ["What the report has doesn't follow from this graph."];
  const out = whyDecided(r, t);
  if (!ran(r, t)) {
    const far = rootsOf(r, t).filter(isFar(r, t)).map(([root, u, what]) => `${ids[u]} ${what}${inTheRun(r, root)}`);
    if (far.length) out.push(`It began where ${listed(far)}.`);
  } else if (instancesOf(r, t) && i < 0) out.push(`It came to ${plural(instancesOf(r, t).length, 'instance')}: ${counted(countsOf(r, t))}.`);
  else if (instance) out.push(...whyTried(t, instance));
  return out;
};
const whyRun = r => {
  const last = order.filter(t => !down[t].length && hasAny(r, t, [FAILED, UPSTREAM_FAILED])).map(t => ids[t]);
  const blocked = order.filter(t => hasNoStatus(r, t)).map(t => ids[t]), out = [];
  if (last.length) out.push(`${listed(last)}, which no task follows, ${last.length === 1 ? 'is' : 'are'} failed or upstream_failed.`);
  if (blocked.length) out.push(`${haveNoStatus(blocked)}.`);
  const wouldBe = out.length ? 'failed' : 'success', foreign = (runFailed[r] ? 'failed' : 'success') === wouldBe ? []
    : ["What the report has doesn't follow from this graph.", `By this graph it would be ${wouldBe}:`];
  return out.length ? [...foreign, ...out] : [...foreign, 'None of the tasks that no task follows is failed or upstream_failed, and every task has a status.'];
};

"##;

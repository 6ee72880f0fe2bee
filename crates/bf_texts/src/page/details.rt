//! The details beside the views.

/// What is told of the instance, run or task that is chosen, or of the whole report.
pub const SCRIPT: &str = r##"// ---- the details

const details = $('details');
const copyButton = text => {
  const button = h('button', {}, 'Copy');
  button.onclick = async () => {
    try {
      await navigator.clipboard.writeText(text);
    } catch {
      const area = h('textarea', {value: text});
      document.body.append(area);
      area.select();
      document.execCommand('copy');
      area.remove();
    }
    button.textContent = 'Copied';
    setTimeout(() => { button.textContent = 'Copy'; }, 1500);
  };
  return button;
};
const titled = (title, ...children) => [h('h3', {}, title), ...children];
const MOST_SHOWN = 4096;
const textBox = (title, text) => {
  const heading = h('h3', {}, title, copyButton(text));
  if (text.length <= MOST_SHOWN) return [heading, h('pre', {tabIndex: 0}, text)];
  const box = h('pre', {tabIndex: 0}, text.slice(0, MOST_SHOWN) + '...');
  const all = h('button', {className: 'link'}, `all ${number(text.length)} characters`);
  all.onclick = () => {
    box.textContent = text;
    all.remove();
  };
  return [heading, box, all];
};
const shortened = (all, most, make) => {
  const list = h('ul', {}, all.slice(0, most).map(make));
  if (all.length <= most) return [list];
  const more = h('button', {className: 'link'}, `${number(all.length - most)} more`);
  more.onclick = () => {
    list.append(...all.slice(most).map(make));
    more.remove();
  };
  return [list, more];
};
const link = (r, t, label, i = -1) => h('a', {href: hashOf({r, t, i}), className: 'mono'}, label);
const muted = text => h('span', {className: 'muted'}, text);
const stateWords = (r, t) => instancesOf(r, t) ? counted(countsOf(r, t)) : STATES[stateOf[codeOf(r, t)]];
const taskLine = r => t => h('li', {}, square(codeOf(r, t)), link(r, t, ids[t]), muted(stateWords(r, t)));
const sumLines = sums => h('ul', {}, STATES.map((state, s) => sums[s] ? h('li', {}, stateSquare(s), state, h('b', {}, number(sums[s]))) : null));
const steps = (r, t, i) => h('div', {className: 'step'},
  r > 0 ? link(r - 1, t, '\u2039 ' + short(starts[r - 1])) : null,
  r < R - 1 ? link(r + 1, t, short(starts[r + 1]) + ' \u203a') : null,
  i >= 0 ? link(r, t, 'all instances') : null,
  t >= 0 ? link(-1, t, 'this task') : null,
  t >= 0 ? link(r, -1, 'this run') : null);
const instanceLinks = (r, t) => h('div', {className: 'many'}, Array.from(instancesOf(r, t), (letter, i) => {
  const made = h('a', {href: hashOf({r, t, i}), title: `[${i}] ${STATES[LETTERS[letter]]}`}, square(codeOfLetter(letter)));
  made.setAttribute('aria-label', `instance ${i}, ${STATES[LETTERS[letter]]}`);
  return made;
}));
const givenBoxes = (r, t, instance) => {
  const out = [];
  if (instance.value !== '-') out.push(...textBox('Pushed', shown(instance.value)));
  if (instance.item !== null) out.push(...textBox('Item', shown(instance.item)));
  for (const [id, value] of instance.pulls) {
    out.push(...textBox(['Pulled from ', link(r, taskAt.get(id), id)], value === '-' ? 'nothing' : shown(value)));
  }
  const line = byHand(r, t, instance);
  if (line !== null) out.push(...textBox('By hand', line));
  return out;
};
const hasFailure = (r, t, i) => i < 0 ? hasAny(r, t, [FAILED, UPSTREAM_FAILED, NO_STATUS]) : stateOf[codeAt(r, t, i)] === FAILED;
// Where it began, or itself; of what has no failure just where a failure began.
const placesToClear = (r, t, i, roots) => {
  const own = hasFailure(r, t, i), began = own ? roots : roots.filter(([, , what]) => what === 'failed');
  return own && !began.length ? [[r, t, i]] : began.slice(0, 3).map(([root, u]) => [root, u, -1]);
};
const clearBoxes = (r, t, i, roots) => {
  if (starts[r] === ends[r]) return [];
  return placesToClear(r, t, i, roots).flatMap(([root, u, index]) => {
    const title = root === r && u === t ? 'Clear' : `Clear ${ids[u]}${inTheRun(r, root)}`;
    return [...textBox(title, clearLine(root, u, index)), h('p', {className: 'muted'}, `with what follows from it: ${cleared(root, u)}`)];
  });
};
const isHandUntold = (r, t, instance) => instance && instance.tries && tasks[t].command.length && byHand(r, t, instance) === null;
const tryLine = ({attempt, start, end, exit}) =>
  h('li', {}, muted(`try ${attempt}`), h('span', {}, momentOf(start), h('br'), `${lasted(end - start)}, ${codeWords(exit)}`));
const tryLines = (r, t, i) => {
  const own = hasTimes ? triesOf(r).filter(it => it.t === t && it.i === i).sort((a, b) => a.attempt - b.attempt) : [];
  return own.length ? titled('Tries', ...shortened(own, 12, tryLine)) : [];
};
const instanceDetails = (r, t, i) => {
  const code = codeAt(r, t, i), instances = instancesOf(r, t), isWhole = instances && i < 0;
  const instance = isWhole || !hasReport ? null : readInstances(r, t)[Math.max(0, i)];
  const roots = rootsOf(r, t), far = roots.filter(isFar(r, t));
  const state = isWhole ? `${plural(instances.length, 'instance')}: ${counted(countsOf(r, t))}` : STATES[stateOf[code]];
  const tries = instance && instance.tries ? muted(`${plural(instance.tries, 'try', 'tries')} of ${tasks[t].retries + 1}`) : null;
  return [
    h('h2', {className: 'mono'}, ids[t] + (i < 0 ? '' : ` [${i}]`)),
    h('p', {className: 'mono muted'}, starts[r]),
    h('p', {className: 'state'}, square(code), state, tries),
    ...titled('Why', ...why(r, t, i, instance).map(text => h('p', {}, text))),
    ...shortened(far, 5, ([root, u]) =>
      h('li', {}, square(codeOf(root, u)), link(root, u, ids[u]), root === r ? null : muted(short(starts[root])))),
    ...(isWhole ? titled('Instances', instanceLinks(r, t)) : tryLines(r, t, i)),
    ...(instance ? givenBoxes(r, t, instance) : []),
    ...(up[t].length ? titled('Upstream', ...shortened(up[t], 12, taskLine(r))) : []),
    ...(down[t].length ? titled('Downstream', ...shortened(down[t], 12, taskLine(r))) : []),
    ...clearBoxes(r, t, i, roots),
    ...(!hasReport || isOdd(codeOf(r, t)) || isHandUntold(r, t, instance) ? textBox('Explain', explainLine(r, t, i)) : []),
    steps(r, t, i),
  ];
};
const runDetails = r => {
  const failed = order.filter(t => hasAny(r, t, [FAILED])), untried = order.filter(t => hasAny(r, t, [UPSTREAM_FAILED, NO_STATUS]));
  return [
    h('h2', {}, `Run ${short(starts[r])}`),
    h('p', {className: 'mono muted'}, `${starts[r]} to ${ends[r]}`),
    h('p', {className: 'state'}, stateSquare(runFailed[r]), STATES[runFailed[r]]),
    ...titled('Why', ...whyRun(r).map(text => h('p', {}, text))),
    ...titled('Task instances', sumLines(runSum.slice(r * 5, r * 5 + 5))),
    ...(failed.length ? titled('Failed', ...shortened(failed, 20, taskLine(r))) : []),
    ...(untried.length ? titled('Not tried', ...shortened(untried, 12, taskLine(r))) : []),
    steps(r, -1, -1),
  ];
};
const taskDetails = t => {
  const task = tasks[t], runs = [...starts.keys()].filter(r => stateOf[codeOf(r, t)] === FAILED);
  const keys = ['kind', 'rule', 'expand', 'depends_on_past', 'retries', 'retry_delay', 'pool', 'pool_slots', 'priority_weight', 'weight_rule'];
  const related = u => h('li', {}, link(-1, u, ids[u]));
  return [
    h('h2', {className: 'mono'}, ids[t]),
    h('ul', {}, keys.map(key => task[key] === undefined ? null : h('li', {}, muted(key), String(task[key])))),
    ...titled('In all runs', sumLines(taskSum.slice(t * 5, t * 5 + 5))),
    ...(runs.length ? titled('Failed in', ...shortened(runs, 12, r => h('li', {}, square(codeOf(r, t)), link(r, t, short(starts[r]))))) : []),
    ...(task.command.length ? textBox('Command', shown(JSON.stringify(task.command))) : []),
    ...(up[t].length ? titled('Upstream', ...shortened(up[t], 12, related)) : []),
    ...(down[t].length ? titled('Downstream', ...shortened(down[t], 12, related)) : []),
  ];
};
const saveReport = () => {
  const url = URL.createObjectURL(new Blob([plain(raw('report'))], {type: 'text/plain'}));
  h('a', {href: url, download: 'report.txt'}).click();
  setTimeout(() => URL.revokeObjectURL(url), 1000);
};
const summary = () => {
  const failing = order.filter(t => failedIn[t]).sort((a, b) => failedIn[b] - failedIn[a]);
  const line = t => {
    const first = short(starts[firstFailed[t]]), runs = failedIn[t] === 1 ? first : `${plural(failedIn[t], 'run')}, first ${first}`;
    return h('li', {}, stateSquare(FAILED), link(firstFailed[t], t, ids[t]), muted(runs));
  };
  return [
    h('h2', {}, failedRuns ? `${number(failedRuns)} of ${plural(R, 'run')} failed` : R ? 'Every run is a success' : 'No runs'),
    ...(failing.length ? titled('Tasks that failed themselves', ...shortened(failing, 20, line)) : []),
    h('p', {className: 'muted'}, 'Choose a square to see why it has its state, what it was given and pushed, and the line that runs it again.'),
    ...titled('Files', h('ul', {}, h('li', {}, 'graph', muted(shown(graphPath))),
      h('li', {}, 'report', muted(`${shown(reportPath)} ${number(Number(reportBytes))} bytes`)))),
    hasReport ? h('button', {onclick: saveReport}, 'Save the report that this page holds') : null,
  ];
};
const showDetails = () => {
  const {r, t, i} = chosen;
  const made = r >= 0 && t >= 0 ? instanceDetails(r, t, i) : r >= 0 ? runDetails(r) : t >= 0 ? taskDetails(t) : summary();
  details.replaceChildren(...made.filter(Boolean));
  details.scrollTop = 0;
};

"##;

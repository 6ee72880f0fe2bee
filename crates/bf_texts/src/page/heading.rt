//! What stands over the views.

/// The name, the range of runs, notes, and the states to filter by.
pub const SCRIPT: &str = r##"// ---- the head of the page

const square = code => h('span', {className: classOf[code], 'aria-hidden': true});
const stateSquare = s => square(codeOfLetter('sfukn'[s]));
const note = text => $('notes').append(h('p', {className: 'note'}, text));
const drawHead = () => {
  const instances = total.reduce((sum, n) => sum + n, 0);
  document.title = `${dagId}: ${plural(R, 'run')}, ${number(failedRuns)} failed`;
  $('dag').textContent = dagId;
  if (!R) $('range').append('The report has no runs.');
  else {
    $('range').append(
      h('span', {className: 'mono'}, short(starts[0])), ' to ', h('span', {className: 'mono'}, short(starts[R - 1])),
      h('span', {className: 'muted'}, ` \u00b7 ${plural(R, 'run')}, `), h('b', {className: failedRuns ? 'bad' : ''}, `${number(failedRuns)} failed`),
      h('span', {className: 'muted'}, ` \u00b7 ${plural(T, 'task')} \u00b7 ${plural(instances, 'task instance')}`));
  }
  if (odd) {
    note(`${plural(odd, 'task')} in runs ${odd === 1 ? 'has' : 'have'} a state that doesn't follow from this graph file, ` +
      'and a dashed edge. Was it changed since?');
  }
  if (!hasReport) {
    const bytes = Number(reportBytes);
    note(`Tries, values, items and pulls aren't in this page, ${bytes > 134217728 ?
      `since its report has ${number(bytes)} bytes, and a page holds at most 134,217,728` : 'which was made with --states-only'
    }. Each task has the line by which explain tells them.`);
  }
  STATES.forEach((state, s) => {
    if (!total[s]) return;
    const chip = h('button', {className: 'chip', 'aria-pressed': false, title: `Only tasks and runs with ${state}`},
      stateSquare(s), state, h('b', {}, number(total[s])));
    chip.onclick = () => {
      if (!seen.states.delete(s)) seen.states.add(s);
      chip.setAttribute('aria-pressed', seen.states.has(s));
      refilter();
    };
    $('chips').append(chip);
  });
};

"##;

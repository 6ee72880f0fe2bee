//! Lines to copy.

/// The lines that clear or explain a task, and the one that runs it by hand.
pub const SCRIPT: &str = r##"// ---- lines to copy

const option = (name, word) => word.startsWith('-') ? [`${name}=${word}`] : [name, word];
const zone = zonePath ? option('--zone-file', zonePath) : [];
const paths = [...(graphPath.startsWith('-') || reportPath.startsWith('-') ? ['--'] : []), graphPath, reportPath];
const seed = (r, t, i) => [...option('--task', ids[t]), '--run', short(starts[r]), ...(i < 0 ? [] : ['--index', String(i)])];
const clearLine = (r, t, i) => {
  const range = ['--from', short(starts[0]), '--to', short(starts[R - 1])];
  const line = ['backfill', 'clear', ...zone, ...range, ...seed(r, t, i), ...paths];
  return `${line.map(quoted).join(' ')} > ${quoted(reportPath + '.new')}`;
};
const explainLine = (r, t, i) => ['backfill', 'explain', ...zone, ...seed(r, t, i), ...paths].map(quoted).join(' ');
// How many tasks a clear would clear, in how many runs.
const cleared = (r, t) => {
  let level = new Set([t]), places = 0, runs = 0;
  for (; r < R && level.size; r++, runs++) {
    for (const each of level) for (const d of down[each]) level.add(d);
    places += level.size;
    level = new Set([...level].filter(each => tasks[each].depends_on_past));
  }
  return `${plural(places, 'task')} in ${plural(runs, 'run')}`;
};
// What sets the variables of a try that these words name; null where one is a date, which the page knows in UTC alone.
const settingsOf = (r, t, {index, tries}, words) => {
  const [date] = starts[r].split('T'), airflow = starts[r].replace('Z', '+00:00');
  const variables = {
    BACKFILL_DAG_ID: dagId, BACKFILL_TASK_ID: ids[t], BACKFILL_RUN: starts[r], BACKFILL_DATE: date, BACKFILL_DATE_NODASH: date.replaceAll('-', ''),
    BACKFILL_INTERVAL_START: starts[r], BACKFILL_INTERVAL_END: ends[r], BACKFILL_MAP_INDEX: index, BACKFILL_TRY_NUMBER: tries,
    AIRFLOW_CTX_DAG_ID: dagId, AIRFLOW_CTX_TASK_ID: ids[t], AIRFLOW_CTX_EXECUTION_DATE: airflow, AIRFLOW_CTX_TRY_NUMBER: tries,
  };
  const named = Object.keys(variables).filter(name => words.some(word => word.includes(name)));
  if ((graph.zone || 'UTC') !== 'UTC' && named.includes('BACKFILL_DATE')) return null;
  return named.length ? `env ${named.map(name => `${name}=${quoted(String(variables[name]))} `).join('')}` : '';
};
// The words of an instance's last try, behind the variables that they name; null where they aren't known.
const byHand = (r, t, {index, tries, item, pulls}) => {
  const {command} = tasks[t];
  if (!command.length || !tries || command.some(word => word.item || word.pull !== undefined) && !tellsGiven()) return null;
  if (command.some(word => word.item) && item === null) return null;
  const context = {
    logical_date: starts[r], data_interval_start: starts[r], data_interval_end: ends[r],
    dag_id: dagId, task_id: ids[t], map_index: String(index), try_number: String(tries),
  };
  const text = word => {
    if (typeof word === 'string') return word;
    if (word.context) return context[word.context];
    const value = word.item ? item : (pulls.find(([id]) => id === word.pull) || [0, '-'])[1];
    return value === '-' ? '' : value[0] === '"' ? JSON.parse(value) : value;
  };
  const words = command.map(text), settings = settingsOf(r, t, {index, tries}, words);
  return settings === null ? null : settings + words.map(quoted).join(' ');
};

"##;

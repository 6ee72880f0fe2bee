//! Words for what is shown.

/// The names of states; numbers, times and values as they are shown; words as a shell reads them.
pub const SCRIPT: &str = r##"// ---- words

const STATES = ['success', 'failed', 'upstream_failed', 'skipped', 'no_status'];
const [SUCCESS, FAILED, UPSTREAM_FAILED, SKIPPED, NO_STATUS] = [0, 1, 2, 3, 4];
const number = n => n.toLocaleString('en-US');
const plural = (n, one, many = one + 's') => `${number(n)} ${n === 1 ? one : many}`;
const counted = counts => STATES.map((state, s) => counts[s] ? `${number(counts[s])} ${state}` : '').filter(Boolean).join(', ');
const listed = (all, most = 5) => {
  const names = all.length > most + 1 ? [...all.slice(0, most), `${number(all.length - most)} more`] : all;
  return names.length > 1 ? `${names.slice(0, -1).join(', ')} and ${names[names.length - 1]}` : names.join('');
};
// A time of so many milliseconds, and a moment by these since 1970.
const lasted = ms => {
  const whole = Math.abs(ms), sign = ms < 0 ? '-' : '';
  const pair = (great, one, small, other) => {
    const n = Math.floor(whole / great), rest = Math.floor(whole % great / small);
    return sign + `${number(n)} ${one}` + (rest ? ` ${rest} ${other}` : '');
  };
  if (whole < 1000) return `${ms} ms`;
  if (whole < 60000) return `${sign}${Math.floor(whole / 100) / 10} s`;
  return whole < 3600000 ? pair(60000, 'min', 1000, 's') : pair(3600000, 'h', 60000, 'min');
};
const momentOf = ms => Math.abs(ms) <= 8.64e15 ? new Date(ms).toISOString() : String(ms);
const codeWords = code => code === -1 ? 'not started' : `code ${code}`;
const short = moment => moment.endsWith('T00:00:00Z') ? moment.slice(0, 10) : moment;
// Characters that an eye or a terminal may take for something else, but for those below U+0020: controls, format characters, separators of
// lines, and such as are ignored by default (Unicode 16).
const UNSEEN = '\\x7f-\\x9f\\xad\\u034f\\u0600-\\u0605\\u061c\\u06dd\\u070f\\u0890-\\u0891\\u08e2\\u115f-\\u1160\\u17b4-\\u17b5\\u180b-\\u180f' +
  '\\u200b-\\u200f\\u2028-\\u202e\\u2060-\\u206f\\u3164\\ufe00-\\ufe0f\\ufeff\\uffa0\\ufff0-\\ufffb' +
  '\\u{110bd}\\u{110cd}\\u{13430}-\\u{1343f}\\u{1bca0}-\\u{1bca3}\\u{1d173}-\\u{1d17a}\\u{e0000}-\\u{e0fff}';
const unseen = new RegExp(`[${UNSEEN}]`, 'gu');
const control = new RegExp(`[\\x00-\\x1f${UNSEEN}]`, 'u');
const escaped = new RegExp(`[\\\\'\\x00-\\x1f${UNSEEN}]`, 'gu');
// JSON text with what isn't seen as \u and four digits, or two such: JSON of the same value.
const escapes = c => c.split('').map(unit => '\\u' + unit.charCodeAt(0).toString(16).padStart(4, '0')).join('');
const shown = json => json.replace(unseen, escapes);
const cut = text => {
  const characters = [...text];
  return characters.length <= 200 ? text : `${characters.slice(0, 200).join('')}... (${number(characters.length)} characters)`;
};
// Words that a shell doesn't take for the name of a program.
const RESERVED = 'case coproc do done elif else esac fi for function if in select then time until while'.split(' ');
// A word as a shell reads it.
const quoted = word => {
  if (/^[A-Za-z0-9_@+:,./-]+$/.test(word) && !RESERVED.includes(word)) return word;
  if (!control.test(word)) return "'" + word.replaceAll("'", "'\\''") + "'";
  const octal = c => Array.from(new TextEncoder().encode(c), byte => '\\' + byte.toString(8).padStart(3, '0')).join('');
  return "$'" + word.replace(escaped, c => c === '\\' || c === "'" ? '\\' + c : octal(c)) + "'";
};

"##;

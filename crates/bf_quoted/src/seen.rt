//! What a terminal shows as itself.
ghost use Rattle.std.specs.Prelude.{◌≡◌};
ghost use Rattle.std.specs.Int.{is_in_range};
ghost use Rattle.std.specs.List.{list_any};
ghost use Rattle.std.specs.Str.{chars};
ghost use Rattle.bf_quoted.specs.Seen.{is_unseen_in};

/// The stretches of characters, from the first to the last, that a terminal doesn't show as themselves: the controls,
/// format characters and separators of lines of Unicode 16, and what it says is ignored by default.
const UNSEEN: [(char, char); 27] = [
    ('\0', '\u{1f}'),
    ('\u{7f}', '\u{9f}'),
    ('\u{ad}', '\u{ad}'),
    ('\u{34f}', '\u{34f}'),
    ('\u{600}', '\u{605}'),
    ('\u{61c}', '\u{61c}'),
    ('\u{6dd}', '\u{6dd}'),
    ('\u{70f}', '\u{70f}'),
    ('\u{890}', '\u{891}'),
    ('\u{8e2}', '\u{8e2}'),
    ('\u{115f}', '\u{1160}'),
    ('\u{17b4}', '\u{17b5}'),
    ('\u{180b}', '\u{180f}'),
    ('\u{200b}', '\u{200f}'),
    ('\u{2028}', '\u{202e}'),
    ('\u{2060}', '\u{206f}'),
    ('\u{3164}', '\u{3164}'),
    ('\u{fe00}', '\u{fe0f}'),
    ('\u{feff}', '\u{feff}'),
    ('\u{ffa0}', '\u{ffa0}'),
    ('\u{fff0}', '\u{fffb}'),
    ('\u{110bd}', '\u{110bd}'),
    ('\u{110cd}', '\u{110cd}'),
    ('\u{13430}', '\u{1343f}'),
    ('\u{1bca0}', '\u{1bca3}'),
    ('\u{1d173}', '\u{1d17a}'),
    ('\u{e0000}', '\u{e0fff}'),
];

/// Answers whether a character lies from `first` to `last`, both included.
fn is_within(c: char, first: char, last: char) -> bool
    ensures { result ≡ is_in_range first last c }
{
    first <= c && c <= last
}

/// Answers whether a terminal doesn't show the character as itself, such as a control, one without width, or one that
/// turns the direction of text.
#[tactic(auto, unfolding(crate::specs::Seen::is_unseen_in))]
pub(crate) fn is_unseen(c: char) -> bool
    ensures { result ≡ is_unseen_in c }
{
    UNSEEN
        .iter()
        .any(|(first, last)| is_within(c, *first, *last))
}

/// Answers whether a text has a character that a terminal doesn't show as itself (`is_unseen`).
pub(crate) fn has_unseen(text: &str) -> bool
    ensures { result ≡ list_any is_unseen_in (chars text.now) }
{
    text.chars().any(|c| is_unseen(c))
}

//! Texts that are safe on a terminal and to paste.
//!
//! A word of a shell's line stands as it is, in `'..'` or in `$'..'`; a value stands as JSON text. In both no character is left that a
//! terminal doesn't show as itself: no control, no line feed, nothing without width and nothing that turns the direction of a text.
//! Which these are is `is_unseen_in` of `specs/Seen.antt`, for all that the program writes there.
#![tactic(auto)]

mod laws;
mod line;
mod seen;
mod value;
mod word;

pub use laws::{
    a_shell_reads_the_word, a_shell_reads_the_words_of_a_line, all_of_a_value_is_seen,
    all_of_a_word_is_seen,
};
pub use line::push_line;
pub use value::{push_shown_lines, push_shown_value};
pub use word::push_quoted;

//! The page that shows a report: one HTML file of eight fixed pieces, and between them seven texts.
//!
//! The fixed pieces are those of `bf_texts::page`, of which the last, with the script, is in parts. Each text stands between
//! two tags, escaped by one rule, `safe`: `%`, `<`, carriage return and U+0000 as `%` and two digits, all else as it is. So a
//! text can't end the tag that it stands in, and is read back byte by byte, by percent-decoding. `write_page` writes the page
//! piece by piece; no text is copied.
#![tactic(auto)]

mod counted;
mod laws;
mod page;
mod safe;
mod sending;

pub use counted::can_be_counted;
pub use laws::{
    all_tags_are_fixed, cells_stand_as_they_are, pages_differ_where_texts_do, texts_are_read_back,
    texts_begin_no_tag,
};
pub use page::{PageTexts, write_page};

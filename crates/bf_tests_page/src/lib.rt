//! Tests of the page that shows a report, and of texts that are safe on a terminal and to paste.
//!
//! What a browser makes of a page is looked at by tests/pages/browser.sh.
#![tactic(auto)]

#[cfg(test)]
mod page_as_a_file;
#[cfg(test)]
mod texts_on_a_terminal;

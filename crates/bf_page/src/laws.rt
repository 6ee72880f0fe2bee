//! What holds of all texts on a page. These functions do nothing: their contracts are the laws, over the definitions alone.
ghost use Rattle.std.specs.Prelude.{◌≡◌, ℕ, List};
ghost use Rattle.std.specs.List.{All, AllPass, filter};
ghost use Rattle.bf_page.specs.declared.page.PageTexts.{PageTexts};
ghost use Rattle.bf_page.specs.Page.{page_text, fixed_text, TellTheSame};
ghost use Rattle.bf_page.specs.Safe.{safe, plain, IsTame, is_tag, is_cell_byte};

/// A law: percent-decoding what a page has of a text gives the text back, whatever it is.
pub fn texts_are_read_back()
    ensures { (text : List ℕ) → plain (safe text) ≡ text }
{}

/// A law: what a page has of a text has no `<`, so that it begins no tag, and no carriage return or U+0000, which a
/// browser would change.
pub fn texts_begin_no_tag()
    ensures { (text : List ℕ) → All IsTame (safe text) }
{}

/// A law: a page has a text unescaped where each of its bytes is one that cells are made of.
pub fn cells_stand_as_they_are()
    ensures { (text : List ℕ) → AllPass is_cell_byte text → safe text ≡ text }
{}

/// A law: a page has just the `<` of its fixed pieces, whatever its texts are.
pub fn all_tags_are_fixed()
    ensures { (texts : PageTexts) → filter is_tag (page_text texts) ≡ filter is_tag fixed_text }
{}

/// A law: pages that are equal have equal texts.
pub fn pages_differ_where_texts_do()
    ensures { (one two : PageTexts) → page_text one ≡ page_text two → TellTheSame one two }
{}

//! Whether the bytes of a page can be counted.
ghost use Rattle.std.specs.Prelude.{◌≡◌, ◌<◌, ◌^◌, length, true};
ghost use Rattle.std.specs.List.{list_any};
ghost use Rattle.bf_page.specs.inner.Counted.{is_long};
ghost use Rattle.bf_page.specs.Page.{page_text};

use crate::page::PageTexts;
use bf_texts::page;

/// 2^58 bytes: where no text is longer, a page of up to 42 fixed texts and seven others, each byte of which may be
/// escaped as three, has fewer than 2^64 bytes.
const LONGEST: usize = 288_230_376_151_711_744;

/// Whether one of these texts has more than `LONGEST` bytes.
fn has_long(texts: &[&str]) -> bool
    ensures { result ≡ list_any (λ text. is_long text.now) texts.now }
{
    texts.iter().any(|text| text.len() > LONGEST)
}

/// True only where a page of these texts has fewer than 2^64 bytes, so that 64 bits can count them. False for any
/// other, and for some that no memory holds.
pub fn can_be_counted(texts: &PageTexts<'_>) -> bool
    ensures { result ≡ true → length (page_text texts.now) < 2 ^ 64 }
{
    let fixed = [
        page::TO_GRAPH_PATH,
        page::TO_REPORT_PATH,
        page::TO_ZONE_PATH,
        page::TO_CELLS,
        page::TO_GRAPH,
        page::TO_REPORT,
        page::TO_TIMES,
    ];
    let told = [
        texts.graph_path,
        texts.report_path,
        texts.zone_path,
        texts.cells,
        texts.times,
    ];
    !has_long(&fixed)
        && !has_long(&page::BEHIND_TIMES)
        && !has_long(&told)
        && texts.graph.len() <= LONGEST
        && texts.report.len() <= LONGEST
}

//! The page that shows a report.
ghost use Rattle.std.specs.Prelude.{◌≡◌, OnOk, IfErr};
ghost use Rattle.bf_device.specs.declared.sending.Cause.TheVariants;
ghost use Rattle.bf_device.specs.Device.{sent, HasHalted, HasGoneOn};
ghost use Rattle.bf_page.specs.Page.{page_text, EndsAt};

use crate::sending::{Piece, send_pieces};
use bf_device::{Write, WriteFault};
use bf_texts::page;

/// The texts that a page has.
#[derive(Clone, Copy, Debug)]
pub struct PageTexts<'a> {
    /// The path of the graph file, as the command line has it.
    pub graph_path: &'a str,
    /// The path of the report, as the command line has it.
    pub report_path: &'a str,
    /// The path of the zone file, as the command line has it; empty where it has none.
    pub zone_path: &'a str,
    /// The cells of the report, as `bf_cells` makes them.
    pub cells: &'a str,
    /// The bytes of the graph file.
    pub graph: &'a [u8],
    /// The bytes of the report; empty where the page leaves them out.
    pub report: &'a [u8],
    /// The times of the journal; empty where there is none.
    pub times: &'a str,
}

/// Writes a page, in as many writes as the device needs. `Err` tells how many bytes went out, modulo 2^64, before a
/// write failed or took nothing, or before the 1,001st interruption.
pub fn write_page<W: Write>(texts: &PageTexts<'_>, out: &mut W) -> Result<(), WriteFault>
    ensures ok { OnOk result (W.written out.new
        ≡ sent (W.written out.old) (page_text texts.now)) }
    ensures part { IfErr result (λ fault. EndsAt fault.sent (page_text texts.now)
        (W.written out.old) (W.written out.new)) }
    ensures only_io { IfErr result (λ fault. fault.cause ≡ TheVariants.Io) }
    ensures halted { IfErr result (λ _. HasHalted (W.failures out.old) (W.failures out.new)
        (W.interruptions out.old) (W.interruptions out.new)) }
    ensures went_on { OnOk result (HasGoneOn (W.failures out.old) (W.failures out.new)
        (W.interruptions out.old) (W.interruptions out.new)) }
{
    let pieces = [
        Piece {
            fixed: page::TO_GRAPH_PATH,
            told: texts.graph_path.as_bytes(),
        },
        Piece {
            fixed: page::TO_REPORT_PATH,
            told: texts.report_path.as_bytes(),
        },
        Piece {
            fixed: page::TO_ZONE_PATH,
            told: texts.zone_path.as_bytes(),
        },
        Piece {
            fixed: page::TO_CELLS,
            told: texts.cells.as_bytes(),
        },
        Piece {
            fixed: page::TO_GRAPH,
            told: texts.graph,
        },
        Piece {
            fixed: page::TO_REPORT,
            told: texts.report,
        },
        Piece {
            fixed: page::TO_TIMES,
            told: texts.times.as_bytes(),
        },
    ];
    send_pieces(out, &pieces, &page::BEHIND_TIMES)
}

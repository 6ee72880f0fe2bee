//! The page as a file.
use bf_device::{Cause, Halt, Halting, Memory, WriteFault};
use bf_page::{PageTexts, write_page};
use bf_texts::page;
use std::alloc::Global;
use std::test::Fail;

const TOLD: PageTexts<'static> = PageTexts {
    graph_path: "g%.json",
    report_path: "<r>.txt",
    zone_path: "",
    cells: "@cells 1 d 0 0 26\n",
    graph: b"{\"dag_id\":\r\n",
    report: b"</script>%3C\0",
    times: "@times 1\n",
};

/// Its text: each text by hand, between the fixed pieces.
fn text(alloc: Global) -> Result<String, Fail> {
    let mut text = String::new(alloc);
    for piece in [
        page::TO_GRAPH_PATH,
        "g%25.json",
        page::TO_REPORT_PATH,
        "%3Cr>.txt",
        page::TO_ZONE_PATH,
        page::TO_CELLS,
        "@cells 1 d 0 0 26\n",
        page::TO_GRAPH,
        "{\"dag_id\":%0D\n",
        page::TO_REPORT,
        "%3C/script>%253C%00",
        page::TO_TIMES,
        "@times 1\n",
    ] {
        text.push_str(piece)?;
    }
    for piece in page::BEHIND_TIMES {
        text.push_str(piece)?;
    }
    Ok(text)
}

#[test]
fn a_page_has_its_texts_between_fixed_pieces(rt: HostRuntime) -> Result<(), Fail> {
    let mut out = Memory::new(rt.alloc());
    assert_eq!(rt; write_page(&TOLD, &mut out), Ok(()));
    assert_eq!(rt; out.as_slice(), text(rt.alloc())?.as_bytes());
    Ok(())
}

#[test]
fn a_page_that_halts_has_its_first_bytes(rt: HostRuntime) -> Result<(), Fail> {
    let text = text(rt.alloc())?;
    for (halt, times) in [(Halt::Failed, 1), (Halt::Again, 1_001)] {
        for call in [0, 1, page::TO_GRAPH_PATH.len() + 2] {
            let mut out = Halting::new(Memory::new(rt.alloc()), halt, call as u64, times);
            let answer = write_page(&TOLD, &mut out);
            let fault = WriteFault {
                sent: call as u64,
                cause: Cause::Io,
            };
            assert_eq!(rt; answer, Err(fault));
            let written = out.into_inner();
            assert_eq!(rt; written.as_slice().len(), call);
            assert!(rt; text.as_bytes().starts_with(written.as_slice()));
        }
    }
    Ok(())
}

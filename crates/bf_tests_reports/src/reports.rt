//! Reports: their text, and the words of what is told of a bad one.
use bf_device::{Bytes, Memory};
use bf_report::{Report, write_report};
use bf_report_reader::{ReportFault, read_report};
use std::alloc::Global;
use std::test::Fail;

/// One run, which ends where it starts.
pub(crate) const ONE: &str = "@backfill 1 d\n\
    @run 2024-01-01T00:00:00Z 2024-01-01T00:00:00Z success\n\
    a -1 success 1 -\n\
    @end 1\n";

/// Three runs of five tasks, with every state and every kind of value.
pub(crate) const FULL: &str = "@backfill 1 full-graph_1.0\n\
    @run 1970-01-01T00:00:00Z 1970-01-01T00:00:00Z failed\n\
    src -1 success 101 [3,1,[2,null,true,\"a b\"]]\n\
    m 0 success 1 3\n\
    m 1 failed 7 -\n\
    m 2 skipped 1 -\n\
    sum -1 upstream_failed 0 -\n\
    other -1 success 1 \"-\"\n\
    last -1 no_status 0 -\n\
    @run 2199-12-31T23:59:58Z 2199-12-31T23:59:59Z success\n\
    src -1 skipped 0 -\n\
    m -1 skipped 2 -\n\
    sum 0 success 1 -9223372036854775808\n\
    other -1 success 1 \"\\u0000\\n\"\n\
    last -1 success 1 -\n\
    @run 2199-12-31T23:59:59Z 2208-12-31T23:59:59Z success\n\
    src -1 failed 1 -\n\
    m -1 success 1 []\n\
    sum -1 success 1 false\n\
    other 0 success 1 \"1.5\"\n\
    other 1 success 100 -\n\
    last -1 success 1 -\n\
    @end 3\n";

/// A report of version 2: a list, an instance for each of its items, and what was pulled from these.
const TWO: &str = "@backfill 2 d\n\
    @run 2024-01-01T00:00:00Z 2024-01-02T00:00:00Z success\n\
    src -1 success 1 [3,1,2]\n\
    m 0 success 1 3\n\
    @item 3\n\
    m 1 success 1 -\n\
    @item 1\n\
    m 2 success 1 2\n\
    @item 2\n\
    sum -1 success 1 [3,2]\n\
    @pull m [3,2]\n\
    @end 1\n";

/// Two runs in version 2, with items and pulls of every kind, and tasks that have neither.
const GIVEN: &str = "@backfill 2 d\n\
    @run 2024-01-01T00:00:00Z 2024-01-02T00:00:00Z failed\n\
    src -1 success 1 [null,\"-\",[]]\n\
    m 0 failed 3 -\n\
    @item null\n\
    @pull src [null,\"-\",[]]\n\
    @pull gone -\n\
    m 1 success 1 true\n\
    @item \"-\"\n\
    @pull src [null,\"-\",[]]\n\
    m 2 skipped 1 -\n\
    @item []\n\
    last -1 upstream_failed 0 -\n\
    @run 2024-01-02T00:00:00Z 2024-01-03T00:00:00Z success\n\
    src -1 skipped 0 -\n\
    m -1 no_status 0 -\n\
    last -1 success 2 -\n\
    @pull m \"-\"\n\
    @pull src 0\n\
    @end 2\n";

/// Reads the report of a text.
pub(crate) fn report_of(alloc: Global, text: &str) -> Result<Report, Fail> {
    let mut device = Bytes::new(text.as_bytes().to_vec(alloc)?);
    Ok(read_report(alloc, &mut device)?)
}

/// Writes a report, and gives its text.
fn text_of(alloc: Global, report: &Report) -> Result<Vec<u8>, Fail> {
    let mut out = Memory::new(alloc);
    write_report(alloc, report, &mut out)?;
    Ok(out.into_vec())
}

/// Reads a report from a text, writes it again, and gives what was written.
fn written_again(alloc: Global, text: &str) -> Result<Vec<u8>, Fail> {
    let report = report_of(alloc, text)?;
    text_of(alloc, &report)
}

#[test]
fn reports_come_back(rt: HostRuntime) -> Result<(), Fail> {
    for text in [
        ONE,
        FULL,
        TWO,
        GIVEN,
        "@backfill 1 d\n@end 0\n",
        "@backfill 2 d\n@end 0\n",
    ] {
        assert_eq!(rt;
            written_again(rt.alloc(), text)?.as_slice(),
            text.as_bytes()
        );
    }
    Ok(())
}

#[test]
fn faults_have_their_words(rt: HostRuntime) -> Result<(), Fail> {
    for (fault, words) in [
        (ReportFault::BadLine(5), "bad line: 5"),
        (ReportFault::TooLong(3), "line too long: 3"),
        (ReportFault::Truncated, "truncated"),
        (ReportFault::Io, "cannot read"),
        (ReportFault::OutOfMemory, "out of memory"),
    ] {
        assert_eq!(rt; format!(in rt.alloc(); "{fault}")?.as_str(), words);
    }
    Ok(())
}

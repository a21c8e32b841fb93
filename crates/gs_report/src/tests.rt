use super::{Detail, Reporter};
use gs_schedule::Output;
use std::test::Fail;

#[test]
fn a_line_has_its_unit_behind_it(rt: HostRuntime) -> Result<(), Fail> {
    let mut reporter = Reporter::new(rt.alloc(), Detail::Bytes);
    let hand = Output::Hand {
        session: 1,
        frame: 2,
        kind: 5,
        length: 3,
    };
    reporter.report(&hand, Some(b"ABC"))?;
    reporter.report(&Output::Done, None)?;
    assert!(rt; reporter.text() == b"hand 1 2 5 3\nABC\nok\n".as_slice());
    reporter.clear();
    assert!(rt; reporter.text().is_empty());
    Ok(())
}

#[test]
fn sums_alone_are_written(rt: HostRuntime) -> Result<(), Fail> {
    let mut reporter = Reporter::new(rt.alloc(), Detail::Sums);
    reporter.report(&Output::Idr { session: 1 }, None)?;
    reporter.report(&Output::Done, None)?;
    assert!(rt; reporter.text() == b"ok\n".as_slice());
    Ok(())
}

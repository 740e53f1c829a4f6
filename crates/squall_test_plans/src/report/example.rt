//! The example of the crate's first page.

use squall_report::{Report, ReportKind};
use squall_test_example::span;
use std::test::Fail;

#[test]
fn reports_of_a_load(rt: HostRuntime) -> Result<(), Fail> {
    let keys = span("2:0", "3:0").ok_or("a span")?;
    let load = Report::loaded(1, 0, 3, keys).ok_or("a load")?;
    let ReportKind::Loaded { part, span, .. } = load.kind() else {
        return Err("no load".into());
    };
    assert!(rt; part == 3 && span == keys);
    assert!(rt; Report::loaded(0, 0, 3, keys).is_none());
    assert!(rt; Report::done(1, 0, 10000).is_none());
    Ok(())
}

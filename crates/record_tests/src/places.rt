//! Where pages lie.
use journal::layouts::Layout;
use records::numbers::PageNumber;
use std::test::Fail;

#[test]
fn pages_go_round(rt: HostRuntime) -> Result<(), Fail> {
    let Some(layout) = Layout::new(12) else {
        return Err(Fail::new("no layout"));
    };
    assert_eq!(rt; layout.journal(), 4);
    assert_eq!(rt; layout.page_sector(PageNumber(1)), 8);
    assert_eq!(rt; layout.page_sector(PageNumber(4)), 11);
    assert_eq!(rt; layout.page_sector(PageNumber(5)), 8);
    assert_eq!(rt; layout.page_sector(PageNumber(u64::MAX)), 10);
    Ok(())
}

#[test]
fn sizes(rt: HostRuntime) {
    assert!(rt; Layout::new(0).is_none());
    assert!(rt; Layout::new(8).is_none());
    assert!(rt; Layout::new(9).is_some());
    assert!(rt; Layout::new(4_096).is_some());
    assert!(rt; Layout::new(4_097).is_none());
}

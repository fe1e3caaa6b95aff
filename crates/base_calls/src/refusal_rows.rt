// The macro and the table together, as a caller writes them.
use rule_table::{RuleTable, rules};
use std::test::Fail;

fn refusal(cap: u64, link: u32, trip: u32) -> Option<u8> {
    let table = RuleTable::new([1, 2])?;
    table.first(&rules![cap != 0, link == trip])
}

#[test]
fn the_first_row_that_holds(rt: HostRuntime) -> Result<(), Fail> {
    assert_eq!(rt; refusal(0, 2, 1), None);
    assert_eq!(rt; refusal(7, 1, 1), Some(1));
    assert_eq!(rt; refusal(0, 1, 1), Some(2));
    assert!(rt; RuleTable::new([3, 0]).is_none());
    assert!(rt; RuleTable::new([3, 4, 3]).is_none());
    Ok(())
}

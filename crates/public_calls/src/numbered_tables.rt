// Tables by number.
use numbered::Numbered;
use std::alloc::Global;
use std::process::Abort;
use std::test::*;

/// Four puts, of which the last is of a number that had a value.
fn filled(alloc: Global) -> Result<Numbered<u8>, Fail> {
    let mut table = Numbered::new(alloc);
    table.put(5, b'e')?;
    table.put(2, b'b')?;
    table.put(9, b'i')?;
    table.put(5, b'f')?;
    Ok(table)
}

fn finds(rt: &impl Abort, table: &Numbered<u8>, no: u32, value: Option<&u8>) {
    assert_eq!(rt; table.find(no), value);
}

fn begins_with(rt: &impl Abort, table: &Numbered<u8>, row: (u32, &u8)) {
    assert_eq!(rt; table.first(), Some(row));
}

fn ends_with(rt: &impl Abort, table: &Numbered<u8>, count: usize, rows: &[(u32, u8)]) {
    assert_eq!(rt; table.last(count), rows);
}

#[test]
fn entries_stand_in_order_of_their_numbers(rt: HostRuntime) -> Result<(), Fail> {
    let mut table = filled(rt.alloc())?;
    finds(&rt, &table, 5, Some(&b'f'));
    finds(&rt, &table, 4, None);
    begins_with(&rt, &table, (2, &b'b'));
    ends_with(&rt, &table, 2, &[(5, b'f'), (9, b'i')]);
    table.take_out(5);
    ends_with(&rt, &table, 16, &[(2, b'b'), (9, b'i')]);
    table.drop_below(3);
    ends_with(&rt, &table, 16, &[(9, b'i')]);
    Ok(())
}

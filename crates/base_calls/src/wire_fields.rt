// Fields that are written and read.
use aeg_base::{Bytes, Memory};
use aeg_wire::{
    Cursor, no_field_begins_another, put_bytes, put_text, put_u8, put_u16, put_u32, put_u64,
    read_again,
};
use std::alloc::Global;
use std::test::*;

const BYTES: [u8; 18] = [7, 1, 2, 0, 0, 1, 0, 0, 0, 0, 0, 0, 0, 0, 9, 2, 104, 105];

fn reads_numbers(from: &mut Cursor<'_>) -> bool {
    from.take_u8() == Some(7)
        && from.take_u16() == Some(258)
        && from.take_u32() == Some(256)
        && from.take_u64() == Some(9)
}

/// Whether a text is left, which is too short for a number.
fn reads_text(from: &mut Cursor<'_>) -> bool {
    from.rest().len() == 3
        && from.take_u32().is_none()
        && matches!(from.take_text(), Some(text) if text == b"hi".as_slice())
        && from.is_empty()
}

fn reads_front(from: &mut Cursor<'_>) -> bool {
    matches!(from.take_bytes(2), Some(front) if front == [7, 1].as_slice())
}

fn put_fields(out: &mut Bytes) -> Result<(), Memory> {
    put_u8(out, 7)?;
    put_u16(out, 258)?;
    put_u32(out, 256)?;
    put_u64(out, 9)?;
    put_text(out, b"hi")
}

/// Whether the fields are written as those bytes, and two more behind them.
fn writes_fields(alloc: Global) -> Result<bool, Memory> {
    let mut out = Bytes::new(alloc);
    put_fields(&mut out)?;
    let written = out.items() == BYTES.as_slice();
    put_bytes(&mut out, &[1, 2])?;
    Ok(written && out.items().len() == 20)
}

#[test]
fn fields_are_read_and_written(rt: HostRuntime) -> Result<(), Fail> {
    let mut from = Cursor::new(&BYTES);
    assert!(rt; reads_numbers(&mut from));
    assert!(rt; reads_text(&mut from));
    assert!(rt; reads_front(&mut Cursor::new(&BYTES)));
    assert!(rt; writes_fields(rt.alloc())?);
    Ok(())
}

#[test]
fn fields_have_their_laws() {
    read_again();
    no_field_begins_another();
}

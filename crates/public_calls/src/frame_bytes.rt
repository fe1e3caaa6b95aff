// Frames as bytes, and the packets that a turn sends.
ghost use Rattle.frames.specs.Frames.{FitsFrame};

use aeg_base::{Ballot, Bytes, End, Memory, NodeId, Tier};
use frames::{
    FrameErr, Header, Msg, Outbox, Refused, carries, decode, decode_header, encode, encode_log,
};
use log_model::PaxMsg;
use log_values::{AnyValue, BackValue, MidValue, Verdict};
use std::alloc::Global;
use std::test::*;

const PREPARE: [u8; 13] = [1, 3, 0, 0, 0, 7, 0, 0, 0, 1, 0, 0, 0];

/// A frame of each kind, from 1 on.
const FRAMES: [&[u8]; 14] = [
    b"\x01\x01\x03\x01\x00\x0b\x00\x00\x00\x01\x06look 5",
    b"\x01\x02\x00\x00\x00\x08\x01\x00\x00\x00\x01\x02hi",
    &PREPARE,
    b"\x01\x04\x00\x00\x00\x08\x00\x00\x00\x01\x00\x00\x00\x00",
    b"\x01\x05\x01\x00\x00\x0c\x00\x00\x00\x01\x00\x00\x00\x05\x00\x00\x00\x02",
    b"\x01\x06\x02\x00\x00\x0c\x00\x00\x00\x01\x00\x00\x00\x05\x00\x00\x00\x02",
    b"\x01\x07\x00\x01\x00\x02\x00\x00",
    b"\x01\x08\x00\x00\x00\x03\x00\x01\x03",
    b"\x01\x09\x00\x00\x00\x06\x00\x00\x00\x00\x00\x00",
    b"\x01\x0a\x00\x00\x00\x10\x00\x00\x00\x01\x0breserve 1 2",
    b"\x01\x0b\x01\x00\x00\x05\x00\x00\x00\x01\x00",
    b"\x01\x0c\x00\x00\x00\x06\x01\x00\x00\x00\x01\x00",
    b"\x01\x0d\x00\x00\x00\x04\x00\x00\x00\x02",
    b"\x01\x0e\x02\x04\x00\x02\x10\x00",
];

/// Whether the message is written as these bytes.
fn is_written_so(alloc: Global, from: End, msg: &Msg, bytes: &[u8]) -> Result<bool, Fail>
    requires { FitsFrame from msg.now }
{
    let again = encode(alloc, from, msg)?;
    Ok(again.items() == bytes)
}

/// Whether the bytes are read as a message that is written so again.
fn is_frame(alloc: Global, bytes: &[u8]) -> Result<bool, Fail> {
    let frame = decode(alloc, bytes)?;
    is_written_so(alloc, frame.0.from, &frame.1, bytes)
}

/// Why the bytes are no frame.
fn refusal(alloc: Global, bytes: &[u8]) -> Option<FrameErr> {
    decode(alloc, bytes).err()
}

fn is_short(alloc: Global, bytes: &[u8]) -> bool {
    refusal(alloc, bytes) == Some(FrameErr::Refused(Refused::Short))
}

#[test]
fn each_kind_is_read_and_written(rt: HostRuntime) -> Result<(), Fail> {
    for bytes in FRAMES {
        assert!(rt; is_frame(rt.alloc(), bytes)?);
    }
    Ok(())
}

fn fronts_are_short(alloc: Global, bytes: &[u8]) -> bool {
    for n in 0..bytes.len() {
        if !is_short(alloc, &bytes[..n]) {
            return false;
        }
    }
    true
}

#[test]
fn prefixes_are_short(rt: HostRuntime) {
    for bytes in FRAMES {
        assert!(rt; fronts_are_short(rt.alloc(), bytes));
    }
}

/// Frames that are damaged, each with the row that refuses it.
const DAMAGED: [(&[u8], u8); 6] = [
    (&[0, 3, 0, 0, 0, 7, 0, 0, 0, 1, 0, 0, 0], 1),
    (&[1, 15, 0, 0, 0, 7, 0, 0, 0, 1, 0, 0, 0], 2),
    (&[1, 3, 0, 5, 0, 7, 0, 0, 0, 1, 0, 0, 0], 3),
    (&[1, 3, 0, 0, 0x20, 1, 0, 0, 0, 1, 0, 0, 0], 4),
    (&[1, 3, 0, 0, 0, 7, 0, 0, 0, 1, 0, 0, 0, 0], 5),
    (&[1, 3, 0, 0, 0, 7, 0, 0, 0, 0, 0, 0, 0], 6),
];

fn is_refused(alloc: Global, bytes: &[u8], row: u8) -> bool {
    refusal(alloc, bytes) == Some(FrameErr::Refused(Refused::Row(row)))
}

#[test]
fn damaged_frames_name_their_rows(rt: HostRuntime) {
    for (bytes, row) in DAMAGED {
        assert!(rt; is_refused(rt.alloc(), bytes, row));
    }
    assert!(rt; is_short(rt.alloc(), &PREPARE[..12]));
}

#[test]
fn a_header_is_read_alone(rt: HostRuntime) {
    let read = decode_header(&PREPARE);
    assert!(rt;
        matches!(
            read,
            Ok(Header {
                kind: 3,
                len: 7,
                ..
            })
        )
    );
}

/// The first node of the middle tier.
const FIRST: NodeId = NodeId {
    tier: Tier::Mid,
    index: 0,
};

/// The frame of a Prepare that the node sends.
fn prepare_frame(alloc: Global) -> Result<Bytes, Memory> {
    let ballot = Ballot {
        counter: 1,
        node: 0,
    };
    encode_log(alloc, FIRST, &PaxMsg::Prepare(ballot, 0))
}

#[test]
fn a_message_of_a_log_is_written(rt: HostRuntime) -> Result<(), Fail> {
    let frame = prepare_frame(rt.alloc())?;
    assert!(rt; frame.items() == PREPARE.as_slice());
    Ok(())
}

/// Whether the value is one of the odd positions of the middle alone.
fn odd_positions_carry(value: &AnyValue) -> bool {
    carries(Tier::Mid, 1, value) && !carries(Tier::Mid, 0, value) && !carries(Tier::Inv, 1, value)
}

/// Whether the value is one of the backends alone.
fn backends_carry(value: &AnyValue) -> bool {
    carries(Tier::Pay, 0, value) && !carries(Tier::Mid, 0, value)
}

#[test]
fn a_log_has_values_of_its_kind(rt: HostRuntime) {
    assert!(rt; odd_positions_carry(&AnyValue::Mid(MidValue::Verdict(Verdict::Serial))));
    assert!(rt; backends_carry(&AnyValue::Back(BackValue::Settle { floor: 2 })));
}

fn three_packets(alloc: Global) -> Result<Outbox, Fail> {
    let mut outbox = Outbox::new(alloc);
    for client in 1..4 {
        outbox.push(End::Client(client), Bytes::new(alloc))?;
    }
    Ok(outbox)
}

/// To whom the second packet goes, where two are left.
fn second_of_two(mut outbox: Outbox) -> Option<End> {
    outbox.truncate(2);
    let packets = outbox.into_vec();
    match packets.as_slice() {
        [_, (to, _)] => Some(*to),
        _ => None,
    }
}

#[test]
fn packets_go_in_their_order(rt: HostRuntime) -> Result<(), Fail> {
    let outbox = three_packets(rt.alloc())?;
    assert!(rt; outbox.items().len() == 3);
    assert!(rt; second_of_two(outbox) == Some(End::Client(2)));
    Ok(())
}

// What a program does at once, and how a segment ends.
use aeg_base::{Bytes, Key, Tier};

/// One action of a program. A call and a reply end the segment.
#[derive(Debug, Drop)]
pub enum Action {
    Get(Key),
    Put(Key, u64),
    Call(Tier, Bytes),
    Reply(Bytes),
}

/// How a segment ends: with a reply, or with a nested call after which the request goes on at this stage.
#[derive(Debug, Drop, PartialEq)]
pub enum Ending {
    Reply(Bytes),
    Call { tier: Tier, stage: u8, body: Bytes },
}

// A request that waits for its nested call.
use aeg_base::{Bytes, CallNo, Tier};

/// A client's request whose nested call was made: its number and text, the stage at which it goes on, and the call.
#[derive(Debug, Drop)]
pub struct Progress {
    pub seq: u32,
    pub body: Bytes,
    pub stage: u8,
    pub tier: Tier,
    pub number: CallNo,
}

// The steps of the one server, and what they tell.
use aeg_base::{Bytes, CallNo, ReqId, Tier};

/// A step of a history. The number at `Start` and `Resume` is the one that the segment's call gets, or 0 where the
/// segment replies.
#[derive(Clone, Copy, Debug, PartialEq, Eq)]
pub enum Hist {
    Start(ReqId, CallNo),
    Serve(Tier, CallNo),
    Resume(ReqId, CallNo),
}

/// What a step gives: a reply to a request, a nested call with its number, or the code that answers one.
#[derive(Debug, Drop)]
pub enum Told {
    Replied(ReqId, Bytes),
    Called(Tier, CallNo, Bytes),
    Answered(Tier, CallNo, u8),
}

/// A step of an input, with its line and the text of its request, which is empty but at a start.
#[derive(Debug, Drop)]
pub struct Numbered {
    pub line: u32,
    pub hist: Hist,
    pub body: Bytes,
}

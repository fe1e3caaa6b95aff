//! The numbers of the formats: the version, lead bytes and bounds that a later version may change.

pub use aeg_base::limits::BODY_BYTES;

/// The first byte of each frame.
pub const FRAME_VERSION: u8 = 1;

// The kinds of frames.
pub const REQUEST_KIND: u8 = 1;

pub const REPLY_KIND: u8 = 2;

pub const PREPARE_KIND: u8 = 3;

pub const PROMISE_KIND: u8 = 4;

pub const ACCEPT_KIND: u8 = 5;

pub const ACCEPTED_KIND: u8 = 6;

pub const ASK_KIND: u8 = 7;

pub const LEARN_KIND: u8 = 8;

pub const TOKEN_KIND: u8 = 9;

pub const CALL_KIND: u8 = 10;

pub const ANSWER_KIND: u8 = 11;

pub const HAVE_KIND: u8 = 12;

pub const SETTLE_KIND: u8 = 13;

pub const BEHIND_KIND: u8 = 14;

/// The kinds are numbered from 1 to this.
pub const LAST_KIND: u8 = 14;

// The numbers of the tiers, and of a client as a sender.
pub const MID_TIER: u8 = 0;

pub const INV_TIER: u8 = 1;

pub const PAY_TIER: u8 = 2;

pub const CLIENT_SENDER: u8 = 3;

// Whether a promise reports a value.
pub const NO_REPORT: u8 = 0;

pub const REPORT: u8 = 1;

/// The greatest index of a replica: a tier has 2u+1 of them, with u at most 2.
pub const LAST_INDEX: u8 = 4;

/// The last stage at which a request goes on after a call.
pub const LAST_STAGE: u8 = 3;

/// The pairs of a token at most: the writes of a whole job.
pub const TOKEN_PAIRS: u16 = 256;

/// The segments of a job at most, as a count in a byte.
pub const TOKEN_ENDS: u8 = 32;

/// The entries of a batch at most, as a count in a byte.
pub const ENTRIES: u8 = 8;

// The lead bytes of values.
pub const BATCH: u8 = 1;

pub const COMMIT: u8 = 2;

pub const SERIAL: u8 = 3;

pub const CALL: u8 = 4;

pub const SETTLE: u8 = 5;

// The lead bytes of a segment's ends.
pub const REPLY_END: u8 = 0;

pub const CALL_END: u8 = 1;

// The lead bytes of facts.
pub const PROMISED: u8 = 1;

pub const ACCEPTED: u8 = 2;

pub const LEARNED: u8 = 3;

pub const HELD: u8 = 4;

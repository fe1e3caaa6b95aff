//! Every limit of the tier, with its reason.

/// The greatest u of a tier of 2u+1 replicas: an index is one digit.
pub const MAX_FAULTS: u8 = 2;

/// The greatest depth of the pipeline: so many rounds lie between a call and the use of its answer.
pub const MAX_DEPTH: u8 = 4;

/// Clients are numbered from 1 to this, so that a booking's number tells its owner.
pub const CLIENTS: u8 = 16;

/// The last sequence number of a client's requests: a booking's number stays below 2^21.
pub const LAST_SEQ: u32 = 65_536;

/// The bytes of a request, a reply or a call at most.
pub const TEXT_BYTES: usize = 48;

/// The bytes of a frame's body at most: a token of a whole job fits.
pub const BODY_BYTES: u16 = 8_192;

/// The entries of a batch at most.
pub const BATCH_ENTRIES: usize = 8;

/// The segments of a job at most.
pub const JOB_SEGMENTS: usize = 32;

/// The actions of a segment at most, its end included: so each segment ends.
pub const SEGMENT_ACTIONS: usize = 32;

/// The writes of a segment at most: room for undoing them is taken before a job begins.
pub const SEGMENT_PUTS: usize = 8;

/// The positions of a log.
pub const POSITIONS: u16 = 4_096;

/// The rounds of a run: each takes two positions of the middle log.
pub const ROUNDS: u16 = 2_048;

/// The packets of a run at most.
pub const PACKETS: u32 = 65_536;

/// An event begins only where no more packets than these were sent, so that what it sends fits.
pub const PACKETS_BEFORE: u32 = 65_024;

/// The bytes of a journal at most.
pub const JOURNAL_BYTES: u64 = 67_108_864;

/// The bytes of a journal's record at most: the facts of one event fit.
pub const RECORD_BYTES: u32 = 16_384;

/// The bytes of an input at most.
pub const INPUT_BYTES: usize = 8_388_608;

/// The lines of an input at most.
pub const INPUT_LINES: usize = 200_000;

/// The classes of keys: a class has 32 of the 256 locks.
pub const KEY_CLASSES: u8 = 8;

/// The key locks.
pub const LOCKS: u16 = 256;

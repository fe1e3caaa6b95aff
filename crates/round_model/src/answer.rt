// An answer that a replica holds.

/// The code of a call's answer, and of each node of a tier of at most five whether it told that it holds it too.
#[derive(Clone, Copy, Debug, PartialEq, Eq)]
pub struct Answer {
    pub code: u8,
    pub noted: [bool; 5],
}

// What a node of the middle tier came to in a round.
use aeg_base::Seq;
use log_values::Token;

/// The token of its run, and the order in which the job's segments finished.
#[derive(Debug, Drop)]
pub struct Claim {
    pub token: Token,
    pub order: Seq<u8>,
}

// What a middle node keeps beside its log.
use applied_rounds::Applied;
use batcher::Pending;
use numbered::Numbered;
use resp_durable::Held;
use state_verify::Tally;

/// What rounds came to, and the run of the next one; the requests that wait for a round; the claims of the rounds to come,
/// by round; the answers of the backends.
#[derive(Drop)]
pub struct Keeping {
    pub rounds: Applied,
    pub pending: Pending,
    pub tallies: Numbered<Tally>,
    pub held: Held,
}

// What the log learned of a round.
ghost use Rattle.std.specs.Prelude.{◌≡◌, ◌≤◌, option_copied, option_map};
ghost use Rattle.aeg_base.specs.declared.limits.TheConstants.{ROUNDS};
ghost use Rattle.round_model.specs.After.{batch_at, batch_in, verdict_at, verdict_in};

use aeg_base::Round;
use log_values::{AnyValue, Entry, MidValue, Verdict};
use paxos_log::TierLog;

/// The entries of a value, where it is a batch.
fn batch_in(value: &AnyValue) -> Option<&[Entry]>
    ensures { option_map (λ es. es.now) result ≡ batch_in (Some value.now) }
{
    match value {
        AnyValue::Mid(MidValue::Batch(entries)) => Some(entries.items()),
        _ => None,
    }
}

/// The verdict of a value, where it is one.
fn verdict_in(value: &AnyValue) -> Option<&Verdict>
    ensures { option_copied result ≡ verdict_in (Some value.now) }
{
    match value {
        AnyValue::Mid(MidValue::Verdict(verdict)) => Some(verdict),
        _ => None,
    }
}

/// The batch of the round, where it is learned.
pub fn batch_at(log: &TierLog<AnyValue>, round: Round) -> Option<&[Entry]>
    requires { round ≤ ROUNDS }
    ensures { option_map (λ es. es.now) result ≡ batch_at log.now.state.learned round }
{
    batch_in(log.learned(2 * round)?)
}

/// The verdict of the round, where it is learned.
pub fn verdict_at(log: &TierLog<AnyValue>, round: Round) -> Option<&Verdict>
    requires { round ≤ ROUNDS }
    ensures { option_copied result ≡ verdict_at log.now.state.learned round }
{
    verdict_in(log.learned(2 * round + 1)?)
}

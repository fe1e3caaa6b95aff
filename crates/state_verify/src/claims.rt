// What one node claims of a round.
ghost use Rattle.std.specs.Prelude.{◌≡◌, IfOk};
ghost use Rattle.log_values.specs.declared.mid_value.Verdict.TheVariants.{Commit};
ghost use Rattle.round_model.specs.Verdicts.{has_token};

use aeg_base::{Memory, Seq};
use log_values::{Token, Verdict};
use round_model::Claim;
use std::alloc::Global;

/// A claim of its own, of what was told.
pub fn claim(alloc: Global, token: &Token, order: &[u8]) -> Result<Claim, Memory>
    ensures { IfOk result (λ claim. claim ≡ record { token = token.now; order = order.now }) }
{
    let token = token.copy()?;
    let order = Vec::from_slice(alloc, order)?;
    Ok(Claim {
        token,
        order: Seq::of(order),
    })
}

/// The verdict that commits to the claim.
pub fn commit(claim: &Claim) -> Result<Verdict, Memory>
    ensures { IfOk result (λ verdict. verdict ≡ Commit claim.now.token claim.now.order) }
{
    let token = claim.token.copy()?;
    let order = Vec::from_slice(claim.order.allocator(), claim.order.items())?;
    Ok(Verdict::Commit {
        token,
        order: Seq::of(order),
    })
}

/// Whether there is a claim, with this token.
pub fn tells_token(claim: &Option<Claim>, token: &Token) -> bool
    ensures { result ≡ has_token token.now claim.now }
{
    match claim {
        None => false,
        Some(claim) => claim.token.bytes() == token.bytes(),
    }
}

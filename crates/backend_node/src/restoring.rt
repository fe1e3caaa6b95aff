// What a restart makes of the values that the log learned.
ghost use Rattle.std.specs.Prelude.{◌≡◌, IfOk};
ghost use Rattle.round_model.specs.Shims.{new_shim};
ghost use Rattle.server_shim.specs.Ranges.{IsShimIn};
ghost use Rattle.tier_model.specs.BackRows.{after_values};
ghost use Rattle.backend_node.specs.Backends.{AllFit, back_with, backend_by};
ghost use Rattle.backend_node.specs.Deciding.{IsMember};

use crate::serving::Serving;
use aeg_base::Memory;
use log_values::AnyValue;
use node_log::Member;
use paxos_log::TierLog;
use server_shim::Shim;
use svc_api::Backend;

/// A backend in its opening state, and a shim without anything.
fn blank<B: Backend>(member: Member, fresh: &B) -> Result<Serving<B>, Memory>
    requires { IsMember member }
    ensures { IfOk result (λ serving. serving ≡ record { backend = B.opening; shim = new_shim member.faults }) }
{
    let backend = fresh.blank()?;
    Ok(Serving {
        backend,
        shim: Shim::new(member.alloc, member.faults),
    })
}

/// A fresh backend takes the values that the log learned.
pub fn serve_again<B: Backend>(
    member: Member,
    fresh: &B,
    log: &TierLog<AnyValue>,
) -> Result<Serving<B>, Memory>
    requires member { IsMember member }
    requires fit { AllFit log.now.state }
    ensures state { IfOk result (λ serving. back_with log.now.state serving ≡ after_values (backend_by B.opening B.state_after B.code_of)
        (record { log = log.now.state; state = B.opening; shim = new_shim member.faults }) log.now.state.learned) }
    ensures range { IfOk result (λ serving. IsShimIn member.faults serving.shim) }
{
    let mut serving = blank(member, fresh)?;
    for at in 0..log.first_open() {
        let _answer = serving.learn_at(log, at)?;
    }
    Ok(serving)
}

// A nested call that is served by its backend.
ghost use Rattle.std.specs.Prelude.{◌≡◌, None};
ghost use Rattle.server_model.specs.Server.{found_in};
ghost use Rattle.one_server.specs.Steps.{Serves};

use crate::book::Book;
use crate::refusal::StepErr;
use aeg_base::{Bytes, CallNo, Tier};
use server_model::Told;
use svc_api::Backend;

/// Serves a call that wasn't served, and notes its code. The code's place is taken first, since a backend can't take a
/// call back.
pub fn answer<B: Backend>(
    served: &mut Book<u8>,
    backend: &mut B,
    tier: Tier,
    number: CallNo,
    call: &Bytes,
) -> Result<Told, StepErr>
    requires { found_in served.old tier number ≡ None }
    ensures { Serves tier number (B.state_after backend.old call.now) (B.code_of backend.old call.now) served.old served.new backend.old backend.new result }
{
    served.add(tier, number, 0)?;
    match backend.apply(call) {
        Ok(code) => {
            served.set_last(code);
            Ok(Told::Answered(tier, number, code))
        }
        Err(_) => {
            served.drop_last(tier, number);
            Err(StepErr::Memory)
        }
    }
}

// Stops of a disk that an event asks for.
ghost use Rattle.std.specs.Prelude.{◌≡◌};
ghost use Rattle.tier_nodes.specs.Arming.{armed_with, asked_of, doubts, fared_by};

use aeg_disk::Device;
use run_model::Fared;
use tier_model::{Fault, Turn};

/// The write or sync of an event, from 1 to 4, at which its disk stops, and whether what was written stays.
#[derive(Clone, Copy, Debug, PartialEq, Eq)]
pub struct StopAt {
    pub nth: u8,
    pub keep: bool,
}

/// Arms the disk, where a stop is asked for.
pub fn arm<D: Device>(disk: &mut D, stop: Option<StopAt>)
    ensures { D.state disk.new ≡ armed_with stop (D.state disk.old) }
{
    if let Some(at) = stop {
        disk.arm(at.nth, at.keep);
    }
}

/// How an event fares, where its disk does as it is asked.
fn asked(stop: Option<StopAt>) -> Fared
    ensures { result ≡ asked_of stop }
{
    match stop {
        None => Fared::Fine,
        Some(StopAt { nth, keep }) => Fared::Cut { nth, keep },
    }
}

/// Whether the disk failed, and no armed stop was met.
pub fn is_in_doubt(answer: &Result<Turn, Fault>, met: bool) -> bool
    ensures { result ≡ doubts answer.now met }
{
    !met && matches!(answer, Err(Fault::Disk))
}

/// How an event fared, by what its node answered and whether the armed stop was met.
pub fn fared(stop: Option<StopAt>, answer: &Result<Turn, Fault>, met: bool) -> Fared
    ensures { result ≡ fared_by stop answer.now met }
{
    if is_in_doubt(answer, met) {
        return Fared::Fault;
    }
    asked(stop)
}

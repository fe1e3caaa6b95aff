// The disks of the nodes, and stops that a line asks for.
ghost use Rattle.std.specs.Prelude.{◌≡◌, ◌<◌};
ghost use Rattle.world.specs.Arming.{armed_with, asked_of, fared_by};
ghost use Rattle.world.specs.Disks.{place_of as disk_of};

use aeg_base::{NodeId, Tier};
use aeg_disk::Device;
use run_model::Fared;
use tier_model::{Fault, Turn};

/// The write or sync of an event, from 1 to 4, at which its disk stops, and whether what was written stays.
#[derive(Clone, Copy, Debug, PartialEq, Eq)]
pub struct StopAt {
    pub nth: u8,
    pub keep: bool,
}

/// Where the disk of the node is among all.
pub fn place_of(node: NodeId) -> usize
    requires { node.index < 5 }
    ensures is { result ≡ disk_of node }
    ensures within { result < 15 }
{
    let first = match node.tier {
        Tier::Mid => 0,
        Tier::Inv => 5,
        Tier::Pay => 10,
    };
    first + usize::from(node.index)
}

/// Arms the disk, where a stop is asked for.
pub fn arm<D: Device>(disk: &mut D, stop: Option<StopAt>)
    ensures { D.state disk.new ≡ armed_with stop (D.state disk.old) }
{
    if let Some(at) = stop {
        disk.arm(at.nth, at.keep);
    }
}

/// How an event fares, where its disk does as it is asked.
pub fn asked(stop: Option<StopAt>) -> Fared
    ensures { result ≡ asked_of stop }
{
    match stop {
        None => Fared::Fine,
        Some(StopAt { nth, keep }) => Fared::Cut { nth, keep },
    }
}

/// How an event fared, by what its node answered and whether the armed stop was met.
pub fn fared(stop: Option<StopAt>, met: bool, answer: &Result<Turn, Fault>) -> Fared
    ensures { result ≡ fared_by stop met answer.now }
{
    if !met && matches!(answer, Err(Fault::Disk)) {
        return Fared::Fault;
    }
    asked(stop)
}

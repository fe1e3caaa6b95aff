// The floors that middle nodes told.
ghost use Rattle.std.specs.Prelude.{◌≡◌, ◌≤◌};
ghost use Rattle.round_model.specs.Shims.{many_at_least, due};

use aeg_base::CallNo;
use aeg_base::limits::MAX_FAULTS;

/// Whether u+1 of 2u+1 nodes told this floor or a higher one.
fn many_at_least(u: u8, floors: &[CallNo; 5], floor: CallNo) -> bool
    requires few { u ≤ MAX_FAULTS }
    ensures many { result ≡ many_at_least u floors.now floor }
{
    let mut count = 0;
    for node in 0..2 * u + 1 {
        if floor <= floors[node as usize] {
            count += 1;
        }
    }
    count > u
}

/// The (u+1)-th largest floor that 2u+1 nodes told.
pub fn due(u: u8, floors: &[CallNo; 5]) -> CallNo
    requires few { u ≤ MAX_FAULTS }
    ensures due { result ≡ due u floors.now }
{
    let mut due = 0;
    for node in 0..2 * u + 1 {
        let floor = floors[node as usize];
        if due < floor && many_at_least(u, floors, floor) {
            due = floor;
        }
    }
    due
}

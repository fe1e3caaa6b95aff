// The header of a script.
ghost use Rattle.std.specs.Prelude.{◌≡◌, ◌≤◌, IfSome, option_map};
ghost use Rattle.server_model.specs.Words.{words_of};
ghost use Rattle.run_model.specs.Script.{header_in};
ghost use Rattle.net_script.specs.Events.{AreSizes};
ghost use Rattle.net_script.specs.Reading.{header_of as as_header};

use aeg_base::limits::{MAX_DEPTH, MAX_FAULTS};
use server_model::{first_part, next_part, number};

/// The numbers of a header: each tier has 2u+1 nodes, and the pipeline this depth.
#[derive(Clone, Copy)]
pub struct Heading {
    pub u: u8,
    pub depth: u8,
}

/// The header that a line is, as `tiers U depth D`.
pub fn header_of(line: &[u8]) -> Option<Heading>
    ensures is { option_map as_header result ≡ header_in (words_of line.now) }
    ensures sizes { IfSome result (λ h. AreSizes h.u h.depth) }
{
    let (tiers, rest) = first_part(line, b' ');
    let (u, rest) = next_part(rest, b' ')?;
    let (depth, rest) = next_part(rest, b' ')?;
    let (rounds, rest) = next_part(rest, b' ')?;
    if let Some(_) = next_part(rest, b' ') {
        return None;
    }
    if tiers != b"tiers".as_slice() || depth != b"depth".as_slice() {
        return None;
    }
    let u = number(u, 0, u32::from(MAX_FAULTS))?;
    let rounds = number(rounds, 1, u32::from(MAX_DEPTH))?;
    Some(Heading {
        u: u as u8,
        depth: rounds as u8,
    })
}

// The nodes of a tier.
ghost use Rattle.std.specs.Prelude.{◌≡◌, ◌+◌, ◌*◌, ◌<◌, ◌≤◌, true, false, MatchOption};
ghost use Rattle.server_model.specs.Server.{same_tier};
ghost use Rattle.frames.specs.Headers.{end_index};
ghost use Rattle.tier_model.specs.Moves.{is_node_of};

use aeg_base::limits::MAX_FAULTS;
use aeg_base::{End, Tier};

fn is_same(a: Tier, b: Tier) -> bool
    ensures { result ≡ same_tier a b }
{
    match a {
        Tier::Mid => matches!(b, Tier::Mid),
        Tier::Inv => matches!(b, Tier::Inv),
        Tier::Pay => matches!(b, Tier::Pay),
    }
}

/// The index of an end, where it is a node of the tier of 2u+1.
pub fn node_in(u: u8, tier: Tier, from: End) -> Option<u8>
    requires { u ≤ MAX_FAULTS }
    ensures { MatchOption result (is_node_of u tier from ≡ false)
        (λ index. (is_node_of u tier from ≡ true) × ((index ≡ end_index from) × (index < 2 * u + 1))) }
{
    match from {
        End::Client(_) => None,
        End::Node(node) => {
            if is_same(node.tier, tier) && node.index < 2 * u + 1 {
                return Some(node.index);
            }
            None
        }
    }
}

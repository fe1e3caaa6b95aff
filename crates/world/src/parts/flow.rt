// The packets that `flow` delivers.
ghost use Rattle.std.specs.Prelude.{◌≡◌, ℕ, ◌<◌, ◌≤◌, length, slice_get, IfSome};
ghost use Rattle.run_model.specs.BookingRuns.{BookingWorld};
ghost use Rattle.run_model.specs.Resolving.{next_packet};
ghost use Rattle.world.specs.Packets.{is_taken_in};
ghost use Rattle.world.specs.Standing.{AreShown, Shows};

use super::Parts;
use aeg_base::End;

impl Parts {
    /// Whether the packet goes to a node that is up or to a client.
    fn is_taken(&self, packet: u32) -> bool
        requires { AreShown self.now }
        ensures { result ≡ is_taken_in self.now.nodes (slice_get self.now.soup packet) }
    {
        let Some((to, _)) = self.soup.get(packet) else {
            return false;
        };
        match to {
            End::Node(node) => self.nodes.is_up(node),
            End::Client(_) => true,
        }
    }

    /// The first packet from the cursor on that goes to a node that is up or to a client.
    pub fn next(&self, cursor: u32) -> Option<u32>
        requires { AreShown self.now }
        ensures is { (u depth : ℕ) (w : BookingWorld) → Shows u depth w self.now → result ≡ next_packet w cursor }
        ensures from { IfSome result (λ packet. cursor ≤ packet) }
        ensures within { IfSome result (λ packet. packet < length self.now.soup) }
    {
        for packet in cursor..self.soup.len() {
            if self.is_taken(packet) {
                return Some(packet);
            }
        }
        None
    }
}

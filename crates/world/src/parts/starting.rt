// A run before its first event.
ghost use Rattle.std.specs.Prelude.{◌≡◌, ◌≤◌, IfOk};
ghost use Rattle.log_model.specs.Log.{nobody};
ghost use Rattle.net_script.specs.Clients.{fresh};
ghost use Rattle.round_model.specs.Lists.{each};
ghost use Rattle.run_model.specs.World.{start};
ghost use Rattle.world.specs.Standing.{Shows};

use super::Parts;
use crate::nodes::Nodes;
use crate::watch::Watch;
use aeg_base::Memory;
use aeg_base::limits::MAX_FAULTS;
use net_script::{ClientEnd, Soup};
use std::alloc::Global;

/// A client end for each number up to 16. None has the number 0.
fn new_clients(alloc: Global) -> Result<Vec<ClientEnd>, Memory>
    ensures { IfOk result (λ clients. clients.items ≡ each 17 nobody fresh) }
{
    let mut clients = Vec::new(alloc);
    for client in 0..17u8 {
        clients.push(ClientEnd::new(alloc, client))?;
    }
    Ok(clients)
}

impl Parts {
    /// All nodes are down on blank disks, and nothing was sent.
    pub fn new(alloc: Global, u: u8, depth: u8) -> Result<Self, Memory>
        requires { u ≤ MAX_FAULTS }
        ensures { IfOk result (Shows u depth start) }
    {
        let nodes = Nodes::new(alloc, u, depth)?;
        let clients = new_clients(alloc)?;
        Ok(Parts {
            alloc,
            u,
            nodes,
            clients,
            soup: Soup::new(alloc),
            watch: Watch::new(alloc, u),
        })
    }
}

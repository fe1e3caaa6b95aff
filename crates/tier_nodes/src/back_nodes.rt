// Backend nodes are nodes of their tier.
use crate::tier_node::TierNode;
use aeg_base::Memory;
use aeg_disk::Disk;
use backend_node::BackNode;
use frames::Outbox;
use svc_api::Backend;
use tier_model::{Fault, Idle, Turn};

impl<B: Backend> TierNode for BackNode<B> {
    ghost use Rattle.std.specs.Prelude.{refl};
    ghost use Rattle.backend_node.specs.Backends.{backend_by};
    ghost use Rattle.row_laws.specs.Backs.{IsBackIn};
    ghost use Rattle.tier_model.specs.Back.{Back};
    ghost use Rattle.tier_model.specs.Kinds.{back_kind};
    ghost use Rattle.tier_nodes.specs.BackRows.{IsBackNode, log_of};
    ghost use Rattle.tier_nodes.specs.BackRows as rows;

    ghost State = { Back B };

    ghost seen = { λ n. n };

    ghost kind = { λ n. back_kind n.faults (backend_by B.opening B.state_after B.code_of) n.tier n.me };

    ghost log_in = { log_of };

    ghost IsMember = { λ n. IsBackNode n };

    ghost IsIn = { λ n s. IsBackIn n.faults n.tier s };

    fn up(&self) -> bool {
        self.up()
    }

    fn place(&self) -> u64 {
        self.place()
    }

    fn keep(&self) {
        self.keep();
    }

    fn crash(&mut self) {
        self.crash();
    }

    fn deliver<D: Disk>(
        &mut self,
        disk: &mut D,
        bytes: &[u8],
        out: &mut Outbox,
    ) -> Result<Turn, Fault> {
        self.deliver(disk, bytes, out)
    }

    fn lead<D: Disk>(&mut self, disk: &mut D, out: &mut Outbox) -> Result<Turn, Fault> {
        self.lead(disk, out)
    }

    fn offer<D: Disk>(&mut self, disk: &mut D, out: &mut Outbox) -> Result<Turn, Fault> {
        self.offer(disk, out)
    }

    fn offer_idle(&self) -> Result<Option<Idle>, Memory> {
        self.offer_idle()
    }

    fn retry(&mut self, out: &mut Outbox) -> Result<Turn, Fault> {
        self.retry(out)
    }

    fn restart<D: Disk>(&mut self, disk: &mut D) -> Result<(), Fault> {
        self.restart(disk)
    }

    ghost frames = { λ n s from message m k f. rows.frames (backend_by B.opening B.state_after B.code_of) B.bytes n s from message m k f };

    ghost leading = { λ n s m k. rows.leading (backend_by B.opening B.state_after B.code_of) B.bytes n s m k };

    ghost offering = { λ n s m k. rows.offering (backend_by B.opening B.state_after B.code_of) B.bytes n s m k };

    ghost retries = { λ n s m k. rows.retries (backend_by B.opening B.state_after B.code_of) B.bytes n s m k };

    ghost silent = { λ n s. refl };

    ghost restored = { λ n rs m fit. rows.restored (backend_by B.opening B.state_after B.code_of) B.bytes n rs fit };
}

// Middle nodes are nodes of their tier.
use crate::tier_node::TierNode;
use aeg_base::Memory;
use aeg_disk::Disk;
use frames::Outbox;
use mid_node::NodeOf;
use svc_api::Service;
use tier_model::{Fault, Idle, Turn};

impl<S: Service + Drop> TierNode for NodeOf<S> {
    ghost use Rattle.std.specs.Prelude.{refl};
    ghost use Rattle.applied_rounds.specs.States.{programs_of};
    ghost use Rattle.mid_rounds.proofs.Services.{programs_in};
    ghost use Rattle.tier_model.specs.Kinds.{mid_kind};
    ghost use Rattle.tier_model.specs.Mid.{Mid};
    ghost use Rattle.tier_nodes.specs.MidRows.{IsInRange, IsMidNode, log_of};
    ghost use Rattle.tier_nodes.specs.MidRows as rows;

    ghost State = { Mid };

    ghost seen = { λ n. n.node };

    ghost kind = { λ n. mid_kind n.node.faults (programs_of (S.table n.service) (S.beginning n.service)) n.depth n.node.me };

    ghost log_in = { log_of };

    ghost IsMember = { λ n. IsMidNode n };

    ghost IsIn = { λ n σ. IsInRange (programs_of (S.table n.service) (S.beginning n.service)) n σ };

    fn up(&self) -> bool {
        self.up()
    }

    fn place(&self) -> u64 {
        self.place()
    }

    fn keep(&self) {
        self.keep();
    }

    fn crash(&mut self) {
        self.crash();
    }

    fn deliver<D: Disk>(
        &mut self,
        disk: &mut D,
        bytes: &[u8],
        out: &mut Outbox,
    ) -> Result<Turn, Fault> {
        self.deliver(disk, bytes, out)
    }

    fn lead<D: Disk>(&mut self, disk: &mut D, out: &mut Outbox) -> Result<Turn, Fault> {
        self.lead(disk, out)
    }

    fn offer<D: Disk>(&mut self, disk: &mut D, out: &mut Outbox) -> Result<Turn, Fault> {
        self.offer(disk, out)
    }

    fn offer_idle(&self) -> Result<Option<Idle>, Memory> {
        self.offer_idle()
    }

    fn retry(&mut self, out: &mut Outbox) -> Result<Turn, Fault> {
        self.retry(out)
    }

    fn restart<D: Disk>(&mut self, disk: &mut D) -> Result<(), Fault> {
        self.restart(disk)
    }

    ghost frames = { λ n s from message m k f. rows.frames (programs_of (S.table n.service) (S.beginning n.service))
        (programs_in (S.table n.service) (S.beginning n.service) (λ who body stage. S.folds n.service who body stage)
        (λ who body stage asked. S.proper n.service who body stage asked) (λ who body stage. S.again n.service who body stage)) n s from message m k f };

    ghost leading = { λ n s m k. rows.leading (programs_of (S.table n.service) (S.beginning n.service))
        (programs_in (S.table n.service) (S.beginning n.service) (λ who body stage. S.folds n.service who body stage)
        (λ who body stage asked. S.proper n.service who body stage asked) (λ who body stage. S.again n.service who body stage)) n s m k };

    ghost offering = { λ n s m k. rows.offering (programs_of (S.table n.service) (S.beginning n.service))
        (programs_in (S.table n.service) (S.beginning n.service) (λ who body stage. S.folds n.service who body stage)
        (λ who body stage asked. S.proper n.service who body stage asked) (λ who body stage. S.again n.service who body stage)) n s m k };

    ghost retries = { λ n s m k. rows.retries (programs_of (S.table n.service) (S.beginning n.service))
        (programs_in (S.table n.service) (S.beginning n.service) (λ who body stage. S.folds n.service who body stage)
        (λ who body stage asked. S.proper n.service who body stage asked) (λ who body stage. S.again n.service who body stage)) n s m k };

    ghost silent = { λ n s. refl };

    ghost restored = { λ n rs m fit. rows.restored (programs_of (S.table n.service) (S.beginning n.service))
        (programs_in (S.table n.service) (S.beginning n.service) (λ who body stage. S.folds n.service who body stage)
        (λ who body stage asked. S.proper n.service who body stage asked) (λ who body stage. S.again n.service who body stage)) n rs m fit };
}

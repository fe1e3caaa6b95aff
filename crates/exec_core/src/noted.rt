// What an executor keeps of its runs.
ghost use Rattle.std.specs.Prelude.{◌≡◌, ◌≤◌, Option, Some, None, IfOk, OnOk, OnErr};
ghost use Rattle.kv_store.specs.Stores.{unwound, StaysWithin};
ghost use Rattle.exec_core.specs.Counts.{one_more};

use crate::ran::Ran;
use aeg_base::{Memory, Round, Seq};
use kv_store::Store;
use std::alloc::Global;

/// The round and the steps of a run.
#[derive(Debug, Drop)]
pub struct Noted {
    pub round: Round,
    pub steps: Seq<u8>,
}

/// How many runs were made, and the last of them.
#[derive(Debug, Drop)]
pub struct Runs {
    pub count: u64,
    pub last: Option<Noted>,
}

impl Runs {
    /// Before the first run.
    pub fn new() -> Self
        ensures count { result.count ≡ 0 }
        ensures last { result.last ≡ None }
    {
        Runs {
            count: 0,
            last: None,
        }
    }

    /// Notes a run that has just left this store. Where there is no memory for that, the run is undone. The count
    /// stands still at its type's end.
    pub fn note(
        &mut self,
        alloc: Global,
        round: Round,
        ran: Ran,
        store: &mut Store,
    ) -> Result<Ran, Memory>
        requires left { StaysWithin ran.undo.top ran.undo.entries store.old.map }
        requires room { ran.undo.top ≤ store.old.room }
        ensures ran { IfOk result (λ same. same ≡ ran) }
        ensures store { OnOk result (store.new ≡ store.old) }
        ensures undone { OnErr result (store.new.map ≡ unwound ran.undo.entries store.old.map) }
        ensures counted { OnOk result (self.new.count ≡ one_more self.old.count) }
        ensures noted { OnOk result (self.new.last ≡ Some (record { round = round; steps = ran.steps })) }
        ensures unchanged { OnErr result (self.new ≡ self.old) }
    {
        let Ok(steps) = Vec::from_slice(alloc, ran.steps.items()) else {
            let mut undo = ran.undo;
            store.undo(&mut undo);
            return Err(Memory);
        };
        self.count = self.count.saturating_add(1);
        self.last = Some(Noted {
            round,
            steps: Seq::of(steps),
        });
        Ok(ran)
    }
}

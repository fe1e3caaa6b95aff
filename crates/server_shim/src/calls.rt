// Calls that wait to be served.
ghost use Rattle.std.specs.Prelude.{◌≡◌, ◌≤◌, [], Some, None, OnOk, OnErr};
ghost use Rattle.round_model.specs.Lists.{and_then};
ghost use Rattle.round_model.specs.Numbered.{find, put, without, from};
ghost use Rattle.round_model.specs.Shims.{agreed};
ghost use Rattle.server_shim.specs.Calls.{AreReady};

use crate::copies::Copies;
use aeg_base::limits::MAX_FAULTS;
use aeg_base::{Bytes, CallNo, Memory};
use numbered::Numbered;
use std::alloc::Global;

/// The copies of calls by number, and those calls of which u+1 nodes gave equal copies, with their text.
#[derive(Debug, Drop)]
pub struct Calls {
    pub copies: Numbered<Copies>,
    pub ready: Numbered<Bytes>,
}

impl Calls {
    /// None waits.
    pub fn new(alloc: Global) -> Self
        ensures copies { result.copies ≡ [] }
        ensures ready { result.ready ≡ [] }
    {
        Calls {
            copies: Numbered::new(alloc),
            ready: Numbered::new(alloc),
        }
    }

    /// The call has these copies from now on, which agree where those before them did.
    pub fn note(&mut self, u: u8, no: CallNo, copies: Copies) -> Result<(), Memory>
        requires few { u ≤ MAX_FAULTS }
        requires ready { AreReady u self.old.copies self.old.ready }
        requires stays { agreed u copies ≡ None → and_then (find self.old.copies no) (agreed u) ≡ None }
        ensures ok { OnOk result (self.new.copies ≡ put self.old.copies no copies) }
        ensures err { OnErr result (self.new.copies ≡ self.old.copies) }
        ensures ready { AreReady u self.new.copies self.new.ready }
    {
        match copies.agreed(u) {
            Some(text) => {
                let text = text.copy()?;
                self.note_ready(u, no, copies, text)
            }
            None => self.copies.put(no, copies),
        }
    }

    /// The call has these copies from now on, which agree on the text.
    fn note_ready(&mut self, u: u8, no: CallNo, copies: Copies, text: Bytes) -> Result<(), Memory>
        requires few { u ≤ MAX_FAULTS }
        requires ready { AreReady u self.old.copies self.old.ready }
        requires agreed { agreed u copies ≡ Some text }
        ensures ok { OnOk result (self.new.copies ≡ put self.old.copies no copies) }
        ensures err { OnErr result (self.new.copies ≡ self.old.copies) }
        ensures ready { AreReady u self.new.copies self.new.ready }
    {
        self.ready.put(no, text)?;
        match self.copies.put(no, copies) {
            Ok(()) => Ok(()),
            Err(memory) => {
                self.ready.take_out(no);
                Err(memory)
            }
        }
    }

    /// The call waits no more.
    pub fn take_out(&mut self, u: u8, no: CallNo)
        requires ready { AreReady u self.old.copies self.old.ready }
        ensures copies { self.new.copies ≡ without self.old.copies no }
        ensures ready { AreReady u self.new.copies self.new.ready }
    {
        self.copies.take_out(no);
        self.ready.take_out(no);
    }

    /// Calls below this number wait no more.
    pub fn drop_below(&mut self, u: u8, no: CallNo)
        requires ready { AreReady u self.old.copies self.old.ready }
        ensures copies { self.new.copies ≡ from self.old.copies no }
        ensures ready { AreReady u self.new.copies self.new.ready }
    {
        self.copies.drop_below(no);
        self.ready.drop_below(no);
    }
}

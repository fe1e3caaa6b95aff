// What a node knows of its disk, and what the world may do to it besides.
ghost use Rattle.std.specs.Prelude.{◌≡◌, ℕ, ◌+◌, ◌≤◌, List, [], Bool, true, false, length, take, drop, IfOk, OnOk, IsTrue, ◌↔◌};
ghost use Rattle.aeg_disk.specs.Disk.{DiskState, Writes, Syncs, Looks, Lawful, Blank};

use thiserror::Error;

#[derive(Clone, Copy, Debug, PartialEq, Eq, Error)]
pub enum DiskErr {
    #[error("the disk failed")]
    Failed,
    #[error("there is no memory")]
    Memory,
}

pub trait Disk {
    ghost state: { Self → DiskState };

    fn len(&mut self) -> Result<u64, DiskErr>
        ensures size { IfOk result (λ n. n ≡ (state self.old).size) }
        ensures looks { Looks (state self.old) (state self.new) result };

    /// Fills the slice with the bytes from that place on.
    fn read(&mut self, at: u64, into: &mut [u8]) -> Result<(), DiskErr>
        requires { at + length into.old ≤ (state self.old).size }
        ensures bytes { OnOk result ((state self.old).tells ≡ true → into.new ≡ take (length into.old) (drop at (state self.old).bytes)) }
        ensures looks { Looks (state self.old) (state self.new) result };

    /// Writes over what is there, and past the end. Until a sync a crash may leave any bytes in the range.
    fn write_at(&mut self, at: u64, bytes: &[u8]) -> Result<(), DiskErr>
        ensures { Writes at bytes.now (state self.old) (state self.new) result };

    /// After it, a crash leaves what a read gives.
    fn sync(&mut self) -> Result<(), DiskErr>
        ensures { Syncs (state self.old) (state self.new) result };

    ghost lawful: { (d : Self) → (state d).tells ≡ true → Lawful (state d) };
}

/// A disk that the world may arm, put back into power and erase.
pub trait Device: Disk {
    /// Makes the `nth` write or sync from now on stop the disk.
    fn arm(&mut self, nth: u8, keep: bool)
        ensures { Self.state self.new ≡ record (Self.state self.old) { armed = nth; keep = keep } };

    /// Puts the power back, and says whether the disk had been stopped.
    fn power(&mut self) -> bool
        ensures was { result ≡ (Self.state self.old).stopped }
        ensures on { Self.state self.new ≡ record (Self.state self.old) { stopped = false; armed = 0 } };

    /// Leaves a blank disk.
    fn erase(&mut self)
        ensures { Blank (Self.state self.old) (Self.state self.new) };
}

// A service that nested calls go to.
ghost use Rattle.std.specs.Prelude.{◌≡◌, ◌<◌, ℕ, List, IfOk, OnOk, OnErr};

use aeg_base::{Bytes, Memory};

/// A service that serves nested calls, one after another.
pub trait Backend: Drop {
    /// The state in which it opens.
    ghost opening: { Self };

    /// What a call makes of the state.
    ghost state_after: { Self → List ℕ → Self };

    /// The code that a call is answered with: 0 where it is granted, else the row of its denial.
    ghost code_of: { Self → List ℕ → ℕ };

    fn apply(&mut self, call: &Bytes) -> Result<u8, Memory>
        ensures code { IfOk result (λ code. code ≡ code_of self.old call.now) }
        ensures state { OnOk result (self.new ≡ state_after self.old call.now) }
        ensures unchanged { OnErr result (self.new ≡ self.old) };

    /// Each code is a byte.
    ghost bytes: { (s : Self) (call : List ℕ) → code_of s call < 256 };

    /// A backend in its opening state.
    fn blank(&self) -> Result<Self, Memory>
        ensures { IfOk result (λ fresh. fresh ≡ opening) };
}

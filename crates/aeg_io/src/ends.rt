// The two ends of a program: where bytes come from, and where they go.
ghost use Rattle.std.specs.Prelude.{◌≡◌, ◌<◌, ◌≤◌, List, ℕ, length, IfOk, OnOk, Option, None, Ok};
ghost use Rattle.std.specs.Io.{ReadsAtMost};
ghost use Rattle.std.specs.Io.KnownBytes.{ReadConsumes, WriteAppends};
ghost use Rattle.aeg_io.specs.Causes.{Rose, HasCause};
ghost use Rattle.aeg_io.specs.Bytes.{WriteGains};

use thiserror::Error;

/// A read or a write failed.
#[derive(Clone, Copy, Debug, PartialEq, Eq, Error)]
#[error("a read or a write failed")]
pub struct Failed;

/// Where bytes come from.
pub trait Source {
    /// The bytes that are left, where the source tells them.
    ghost left: { Self → Option (List ℕ) };

    /// How often it has failed.
    ghost faults: { Self → ℕ };

    /// Reads some bytes into the front of the slice, none only at the end.
    fn read(&mut self, into: &mut [u8]) -> Result<usize, Failed>
        requires { 0 < length into.old }
        ensures bound { ReadsAtMost result into.new }
        ensures bytes { ReadConsumes (left self.old) (left self.new) result into.new }
        ensures cause { HasCause (faults self.old) (faults self.new) result }
        ensures same { OnOk result (faults self.new ≡ faults self.old) };
}

/// Where bytes go.
pub trait Sink {
    /// The bytes that it took, where the sink tells them.
    ghost taken: { Self → Option (List ℕ) };

    /// The bytes that stand behind it, where they are known. They may come to be known later on.
    ghost holds: { Self → Option (List ℕ) } = { λ _. None };

    /// How often it has failed.
    ghost faults: { Self → ℕ };

    /// Takes some bytes of the front of the piece. That it takes none counts as a fault.
    fn write(&mut self, piece: &[u8]) -> Result<usize, Failed>
        requires { 0 < length piece.now }
        ensures bound { IfOk result (λ n. n ≤ length piece.now) }
        ensures bytes { WriteGains (taken self.old) (taken self.new) result piece.now }
        ensures held { WriteAppends (holds self.old) (holds self.new) result piece.now }
        ensures cause { HasCause (faults self.old) (faults self.new) result }
        ensures same { IfOk result (λ n. 0 < n → faults self.new ≡ faults self.old) }
        ensures none { result ≡ Ok 0 → Rose (faults self.old) (faults self.new) };
}

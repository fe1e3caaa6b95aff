// All that a source has, and all of a piece.
ghost use Rattle.std.specs.Prelude.{◌≡◌, ◌<◌, ◌≤◌, List, ℕ, length, IfOk, IfSome, OnOk, OnErr, IsErrOf, Option, ◌⊎◌};
ghost use Rattle.std.specs.Io.KnownBytes.{Appends, Consumes, IsAtEnd};
ghost use Rattle.aeg_io.specs.Causes.{Rose};
ghost use Rattle.aeg_io.specs.Bytes.{Gains, GainsFront};

use crate::{Failed, Sink, Source};
use aeg_base::Bytes;
use std::alloc::{AllocError, Global};
use thiserror::Error;

/// Why a source's bytes can't all be had: it failed, it has too many, or there was no memory.
#[derive(Clone, Copy, Debug, PartialEq, Eq, Error)]
pub enum ReadErr {
    #[error("the source failed")]
    Fault,
    #[error("the source has too many bytes")]
    TooLong,
    #[error("there is no memory")]
    Memory,
}

impl From<AllocError> for ReadErr {
    ghost use Rattle.std.specs.Prelude.{◌≡◌};
    ghost use Rattle.aeg_io.specs.declared.whole.ReadErr.TheVariants.{Memory};

    ghost from_gives = { λ _ e. e ≡ Memory };

    fn from(_: AllocError) -> Self {
        ReadErr::Memory
    }
}

impl From<Failed> for ReadErr {
    ghost use Rattle.std.specs.Prelude.{◌≡◌};
    ghost use Rattle.aeg_io.specs.declared.whole.ReadErr.TheVariants.{Fault};

    ghost from_gives = { λ _ e. e ≡ Fault };

    fn from(_: Failed) -> Self {
        ReadErr::Fault
    }
}

/// The bytes asked for at a time: few calls for an input at its limit, and a small frame.
const PIECE_BYTES: usize = 8192;

/// All the bytes that are left, at most `max`. Where there are more, it stops behind the first that is too many.
pub fn read_all<S: Source>(alloc: Global, src: &mut S, max: usize) -> Result<Bytes, ReadErr>
    ensures ok { IfOk result (λ bytes. Consumes (S.left src.old) (S.left src.new) bytes × IsAtEnd (S.left src.new)) }
    ensures whole { IfOk result (λ bytes. IfSome (S.left src.old) (λ input. bytes ≡ input)) }
    ensures within { IfOk result (λ bytes. length bytes ≤ max) }
    ensures too_long { IsErrOf result ReadErr.TooLong → (came : List ℕ) × Consumes (S.left src.old) (S.left src.new) came × (max < length came) }
    ensures fault { IsErrOf result ReadErr.Fault → Rose (S.faults src.old) (S.faults src.new) }
    // A fault of the source is answered as one.
    ensures told { IsErrOf result ReadErr.Fault ⊎ (S.faults src.new ≡ S.faults src.old) }
    ensures later { S.faults src.old ≤ S.faults src.new }
{
    let mut items = Vec::new(alloc);
    let mut piece = [0u8; PIECE_BYTES];
    while items.len() <= max {
        let count = src.read(&mut piece)?;
        if count == 0 {
            return Ok(Bytes::of(items));
        }
        items.extend_from_slice(&piece[..count])?;
    }
    Err(ReadErr::TooLong)
}

/// Writes the whole piece. What went out after a failure is a prefix of it.
pub fn put_all<K: Sink>(out: &mut K, piece: &[u8]) -> Result<(), Failed>
    ensures ok { OnOk result (Gains (K.taken out.old) (K.taken out.new) piece.now) }
    ensures held { OnOk result (Appends (K.holds out.old) (K.holds out.new) piece.now) }
    ensures prefix { OnErr result (GainsFront (K.taken out.old) (K.taken out.new) piece.now) }
    ensures failed { OnErr result (Rose (K.faults out.old) (K.faults out.new)) }
    ensures faultless { OnOk result (K.faults out.new ≡ K.faults out.old) }
    ensures later { K.faults out.old ≤ K.faults out.new }
{
    let mut sent = 0;
    while sent < piece.len() {
        let count = out.write(&piece[sent..])?;
        if count == 0 {
            return Err(Failed);
        }
        sent += count;
    }
    Ok(())
}

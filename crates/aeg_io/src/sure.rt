// A source and a sink that never fail.
ghost use Rattle.std.specs.Prelude.{◌≡◌, ◌≤◌, [], List, ℕ, drop, vec_len, None, Some, MatchOption, if◌then◌else◌};

use crate::mem::copy_front;
use crate::{Failed, Sink, Source};
use std::alloc::Global;

/// A source over bytes in memory.
#[derive(Drop)]
pub struct SureSource {
    bytes: Vec<u8>,
    at: usize,
    ghost within: { at ≤ vec_len bytes },
}

impl SureSource {
    pub fn new(bytes: Vec<u8>) -> Self
        ensures { ⟦<SureSource as Source>⟧.left result ≡ Some bytes.items }
    {
        SureSource { bytes, at: 0 }
    }
}

impl Source for SureSource {
    ghost left = { λ s. Some (drop s.at s.bytes.items) };

    ghost faults = { λ _. 0 };

    fn read(&mut self, into: &mut [u8]) -> Result<usize, Failed> {
        let rest = &self.bytes.as_slice()[self.at..];
        let count = copy_front(rest, into, usize::MAX);
        self.at += count;
        Ok(count)
    }
}

/// A sink into memory. Where there is no memory it takes the bytes all the same, and no longer tells what it took.
#[derive(Drop)]
pub struct SureSink {
    taken: Vec<u8>,
    tells: bool,
}

impl SureSink {
    pub fn new(alloc: Global) -> Self
        ensures { ⟦<SureSink as Sink>⟧.taken result ≡ Some [] }
    {
        SureSink {
            taken: Vec::new(alloc),
            tells: true,
        }
    }

    /// What it took, as long as it tells.
    pub fn taken(&self) -> Option<&[u8]>
        ensures { MatchOption result (⟦<SureSink as Sink>⟧.taken self.now ≡ None) (λ took. ⟦<SureSink as Sink>⟧.taken self.now ≡ Some took.now) }
    {
        if self.tells { Some(&self.taken) } else { None }
    }
}

impl Sink for SureSink {
    ghost taken = { λ s. if s.tells then Some s.taken.items else None };

    ghost faults = { λ _. 0 };

    fn write(&mut self, piece: &[u8]) -> Result<usize, Failed> {
        if self.taken.extend_from_slice(piece).is_err() {
            self.tells = false;
        }
        Ok(piece.len())
    }
}

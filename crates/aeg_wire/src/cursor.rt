// Reading fields from the front of bytes.
ghost use Rattle.std.specs.Prelude.{◌≡◌, ◌++◌, ◌∷◌, ℕ, List, [], length, IfSome, IfNone, IsTrue, ◌↔◌};
ghost use Rattle.std.specs.Int.{w16, w32, w64, to_be_bytes};
ghost use Rattle.aeg_wire.specs.Fields.{Took, byte_at, number_at, bytes_at, text_at, text};

use aeg_base::limits::TEXT_BYTES;
use std::marker::Model;

/// Reads fields one after the other. A call that answers none leaves the cursor as it was.
#[derive(Drop)]
pub struct Cursor<'a> {
    left: &'a [u8],
}

impl<'a> Model for Cursor<'a> {
    ghost use Rattle.std.specs.Prelude.{List, ℕ};

    ghost Value = { List ℕ };

    ghost view = { λ c. c.left.now };
}

impl<'a> Cursor<'a> {
    /// A cursor at the front of the bytes.
    pub fn new(bytes: &'a [u8]) -> Self
        ensures { result ≡ bytes.now }
    {
        Cursor { left: bytes }
    }

    /// The bytes that are left.
    pub fn rest(&self) -> &'a [u8]
        ensures { result.now ≡ self.now }
    {
        self.left
    }

    pub fn is_empty(&self) -> bool
        ensures { IsTrue result ↔ (self.now ≡ []) }
    {
        self.left.is_empty()
    }

    pub fn take_u8(&mut self) -> Option<u8>
        ensures exact { Took (λ n. n) result self.old self.new (byte_at self.old) }
        ensures taken { IfSome result (λ n. self.old ≡ n ∷ self.new) }
    {
        let [first, rest @ ..] = self.left else {
            return None;
        };
        self.left = rest;
        Some(*first)
    }

    pub fn take_u16(&mut self) -> Option<u16>
        ensures exact { Took (λ n. n) result self.old self.new (number_at w16 self.old) }
        ensures taken { IfSome result (λ n. self.old ≡ to_be_bytes w16 n ++ self.new) }
    {
        if self.left.len() < 2 {
            return None;
        }
        let (front, rest) = self.left.split_at(2);
        self.left = rest;
        Some(u16::from_be_bytes([front[0], front[1]]))
    }

    pub fn take_u32(&mut self) -> Option<u32>
        ensures exact { Took (λ n. n) result self.old self.new (number_at w32 self.old) }
        ensures taken { IfSome result (λ n. self.old ≡ to_be_bytes w32 n ++ self.new) }
    {
        if self.left.len() < 4 {
            return None;
        }
        let (front, rest) = self.left.split_at(4);
        self.left = rest;
        Some(u32::from_be_bytes([front[0], front[1], front[2], front[3]]))
    }

    pub fn take_u64(&mut self) -> Option<u64>
        ensures exact { Took (λ n. n) result self.old self.new (number_at w64 self.old) }
        ensures taken { IfSome result (λ n. self.old ≡ to_be_bytes w64 n ++ self.new) }
    {
        if self.left.len() < 8 {
            return None;
        }
        let (front, rest) = self.left.split_at(8);
        self.left = rest;
        Some(u64::from_be_bytes([
            front[0], front[1], front[2], front[3], front[4], front[5], front[6], front[7],
        ]))
    }

    pub fn take_bytes(&mut self, n: usize) -> Option<&'a [u8]>
        ensures exact { Took (λ s. s.now) result self.old self.new (bytes_at n self.old) }
        ensures taken { IfSome result (λ taken. (self.old ≡ taken.now ++ self.new) × (length taken.now ≡ n)) }
    {
        if self.left.len() < n {
            return None;
        }
        let (front, rest) = self.left.split_at(n);
        self.left = rest;
        Some(front)
    }

    /// A text: its length in a byte, and so many bytes. None too where the length passes the limit of texts.
    #[tactic(auto, unfolding(crate::specs::Fields::text_at))]
    pub fn take_text(&mut self) -> Option<&'a [u8]>
        ensures exact { Took (λ s. s.now) result self.old self.new (text_at self.old) }
        ensures taken { IfSome result (λ taken. self.old ≡ text taken.now ++ self.new) }
    {
        let [first, rest @ ..] = self.left else {
            return None;
        };
        let n = *first as usize;
        if n > TEXT_BYTES {
            return None;
        }
        if rest.len() < n {
            return None;
        }
        let (front, rest) = rest.split_at(n);
        self.left = rest;
        Some(front)
    }
}

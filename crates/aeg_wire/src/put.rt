// Writing fields at the end of bytes.
ghost use Rattle.std.specs.Prelude.{◌≡◌, ◌≤◌, ◌++◌, ◌∷◌, [], length, OnOk, OnErr};
ghost use Rattle.std.specs.Int.{w16, w32, w64, to_be_bytes};
ghost use Rattle.aeg_wire.specs.Fields.{text, IsBegun};

use aeg_base::limits::TEXT_BYTES;
use aeg_base::{Bytes, Memory};

pub fn put_u8(out: &mut Bytes, value: u8) -> Result<(), Memory>
    ensures ok { OnOk result (out.new ≡ out.old ++ value ∷ []) }
    ensures err { OnErr result (out.new ≡ out.old) }
{
    out.push(value)
}

pub fn put_u16(out: &mut Bytes, value: u16) -> Result<(), Memory>
    ensures ok { OnOk result (out.new ≡ out.old ++ to_be_bytes w16 value) }
    ensures err { OnErr result (out.new ≡ out.old) }
{
    out.extend(&value.to_be_bytes())
}

pub fn put_u32(out: &mut Bytes, value: u32) -> Result<(), Memory>
    ensures ok { OnOk result (out.new ≡ out.old ++ to_be_bytes w32 value) }
    ensures err { OnErr result (out.new ≡ out.old) }
{
    out.extend(&value.to_be_bytes())
}

pub fn put_u64(out: &mut Bytes, value: u64) -> Result<(), Memory>
    ensures ok { OnOk result (out.new ≡ out.old ++ to_be_bytes w64 value) }
    ensures err { OnErr result (out.new ≡ out.old) }
{
    out.extend(&value.to_be_bytes())
}

pub fn put_bytes(out: &mut Bytes, bytes: &[u8]) -> Result<(), Memory>
    ensures ok { OnOk result (out.new ≡ out.old ++ bytes.now) }
    ensures err { OnErr result (out.new ≡ out.old) }
{
    out.extend(bytes)
}

/// A text: its length in a byte, and its bytes.
pub fn put_text(out: &mut Bytes, bytes: &[u8]) -> Result<(), Memory>
    requires { length bytes.now ≤ TEXT_BYTES }
    ensures ok { OnOk result (out.new ≡ out.old ++ text bytes.now) }
    ensures err { OnErr result (IsBegun out.old out.new (text bytes.now)) }
{
    out.push(bytes.len() as u8)?;
    out.extend(bytes)
}

// Room for more pairs.
ghost use Rattle.std.specs.Prelude.{◌≡◌, ◌≤◌, ◌<◌, ℕ, OnOk, length, vec_capacity, slice_index_or};
ghost use Rattle.kv_store.specs.Columns.{lists_of};
ghost use Rattle.std.specs.declared.vec.Vec.{Vec};
ghost use Rattle.std.specs.declared.alloc.Global.{Global};

use aeg_base::Memory;

/// Gives each column capacity for this many pairs, or some of them where there is no memory.
pub fn grow(columns: &mut [Vec<(u32, u64)>; 8], room: usize) -> Result<(), Memory>
    ensures lists { lists_of columns.new ≡ lists_of columns.old }
    ensures eight { length columns.new ≡ length columns.old }
    ensures roomy { OnOk result ((class : ℕ) → class < 8 → (v : Vec (ℕ × ℕ) Global) → room ≤ vec_capacity (slice_index_or columns.new class v)) }
    ensures kept { (class : ℕ) → (v : Vec (ℕ × ℕ) Global) → vec_capacity (slice_index_or columns.old class v) ≤ vec_capacity (slice_index_or columns.new class v) }
{
    'each: for class in 0..8usize {
        widen(&mut columns[class], room)?;
    }
    Ok(())
}

fn widen(column: &mut Vec<(u32, u64)>, room: usize) -> Result<(), Memory>
    ensures items { column.new.items ≡ column.old.items }
    ensures room { OnOk result (room ≤ vec_capacity column.new) }
    ensures kept { vec_capacity column.old ≤ vec_capacity column.new }
{
    if column.len() < room {
        column.reserve(room - column.len())?;
    }
    Ok(())
}

/// Room for what is needed, and at least twice the room that was.
pub fn widened(needed: usize, room: usize) -> usize
    ensures { needed ≤ result }
{
    let twice = room.saturating_mul(2);
    if needed < twice { twice } else { needed }
}

// What each row keeps in range.
ghost use Rattle.std.specs.Prelude.{◌≡◌, ℕ, List, IfSome};
ghost use Rattle.std.specs.List.{AllByRecursion};
ghost use Rattle.log_values.specs.Fields.{IsCallNumber, IsFloor, IsText};
ghost use Rattle.round_model.specs.Shims.{ShimState, due_floor, highest, new_shim, notes, ready, serves, settles, told_floor};
ghost use Rattle.server_shim.specs.Ranges.{IsCall, IsCode, IsFloorIn, IsShimIn};

/// Each row keeps what a replica has in range, and what it offers and tells has a spelling.
pub fn shims_in_range()
    ensures begins { (u : ℕ) → IsShimIn u (new_shim u) }
    ensures notes { (u : ℕ) (s : ShimState) (y n : ℕ) (text : List ℕ) → IsShimIn u s → IsCallNumber n → IsText text → IsShimIn u (notes s y n text) }
    ensures serves { (u : ℕ) (s : ShimState) (n code : ℕ) → IsShimIn u s → IsCode (n, code) → IsShimIn u (serves s n code) }
    ensures settles { (u : ℕ) (s : ShimState) (g : ℕ) → IsShimIn u s → IsFloorIn g → IsShimIn u (settles s g) }
    ensures told { (u : ℕ) (s : ShimState) (y g : ℕ) → IsShimIn u s → IsFloorIn g → IsShimIn u (told_floor s y g) }
    ensures ready { (u : ℕ) (s : ShimState) → IsShimIn u s → IfSome (ready s) IsCall }
    ensures due { (u : ℕ) (s : ShimState) → IsShimIn u s → IfSome (due_floor s) IsFloor }
    ensures highest { (u : ℕ) (s : ShimState) → IsShimIn u s → AllByRecursion IsCode (highest s) }
{}

// What a segment can see and change.
ghost use Rattle.std.specs.Prelude.{◌≡◌, Bool, true, false, List, ℕ};
ghost use Rattle.aeg_base.specs.Store.{Store, value_at};
ghost use Rattle.aeg_base.specs.Locks.{lock_number};
ghost use Rattle.aeg_base.specs.declared.names.Key.{Key};
ghost use Rattle.svc_api.specs.Plan.{Plan, store_after, ending_of, keys_of, AreLocked, AgreeWhere};

/// A segment sees and changes only keys whose locks it touches. Two stores that agree on the keys of those locks give
/// it the same keys and the same end, and agree on those keys afterwards too; a key of no such lock keeps its value.
pub fn frame_law()
    ensures ending { (p : Plan) (s t : Store) (locked : ℕ → Bool) → AreLocked locked (keys_of p s) → AgreeWhere locked s t → ending_of p t ≡ ending_of p s }
    ensures keys { (p : Plan) (s t : Store) (locked : ℕ → Bool) → AreLocked locked (keys_of p s) → AgreeWhere locked s t → keys_of p t ≡ keys_of p s }
    ensures changes { (p : Plan) (s t : Store) (locked : ℕ → Bool) → AreLocked locked (keys_of p s) → AgreeWhere locked s t → AgreeWhere locked (store_after p s) (store_after p t) }
    ensures elsewhere { (p : Plan) (s : Store) (locked : ℕ → Bool) (k : Key) → AreLocked locked (keys_of p s) → locked (lock_number k) ≡ false → value_at (store_after p s) k ≡ value_at s k }
{}

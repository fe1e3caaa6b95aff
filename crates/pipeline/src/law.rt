// What the rounds of a node have to do with the tables of the rounds.
ghost use Rattle.std.specs.Prelude.{◌≡◌, ℕ, suc, List};
ghost use Rattle.log_values.specs.declared.entry.Entry.{Entry};
ghost use Rattle.round_model.specs.Service.{Programs, Finish};
ghost use Rattle.round_model.specs.Tables.{Tables, Want, fresh_entries, settled, tables0, wants};
ghost use Rattle.pipeline.specs.States.{Keeps, RoundsState, at_first, moved_on, next_wants};
ghost use Rattle.pipeline.specs.Jobs.{AreFresh};

/// The fresh entries of a batch are requests of different clients, none of which has a request that waits.
pub fn fresh_entries_are_fresh()
    ensures fresh { (m : Programs) (T : Tables) (s : RoundsState) (r : ℕ) (batch : List Entry) → Keeps s r T → AreFresh s (fresh_entries m T batch) }
{}

/// The rounds of a node keep what the tables have: at first, and from each round to the next. So the next job's segments
/// want what those of the tables' round do.
pub fn rounds_keep_to_tables()
    ensures first { (depth : ℕ) → Keeps (at_first depth) 0 (tables0 depth) }
    ensures wants { (m : Programs) (T : Tables) (s : RoundsState) (r : ℕ) (batch : List Entry) → Keeps s r T
        → next_wants s (fresh_entries m T batch) ≡ wants m T batch }
    ensures moved { (T : Tables) (s : RoundsState) (r : ℕ) (ws : List Want) (o : Finish) → Keeps s r T
        → Keeps (moved_on s ws o.ends) (suc r) (settled T ws o) }
{}

// Snapshots of a node's facts, and lists of facts from which a restart recovers the same. A list has the newest fact in front.
ghost use Rattle.std.specs.Prelude.{◌≡◌, ◌+◌, ◌≤◌, List, ◌++◌, length};
ghost use Rattle.log_model.specs.Recover.{learned_in, newest_onto};
ghost use Rattle.log_values.specs.declared.fact.Fact.{Fact};
ghost use Rattle.tier_model.specs.Moves.{log_facts, held_in};
ghost use Rattle.recovery_laws.specs.Snapshots.{AreAlike, LearnedInOrder, NoneAhead, RecoverSame, held_count, snapshot};

/// Each node recovers from a snapshot of its facts what it recovers from all of them. Where nothing was accepted ahead of
/// the position that was open then, this stays so under newer facts, and what was cut can be cut again. Values stay learned
/// at the positions that were open. A snapshot has at most one fact for each learned value and each held answer, and two
/// more.
pub fn snapshots<B>()
    ensures recovers { (F : List Fact) → RecoverSame B (snapshot F) F }
    ensures alike { (F : List Fact) → NoneAhead (log_facts F) → AreAlike F (snapshot F) }
    ensures newer { (new F : List Fact) → NoneAhead (log_facts F) → RecoverSame B (new ++ snapshot F) (new ++ F) }
    ensures records { (new : List (List Fact)) (F : List Fact) → NoneAhead (log_facts F) → RecoverSame B (newest_onto new (snapshot F)) (newest_onto new F) }
    ensures none_ahead { (new F : List Fact) → NoneAhead (log_facts (new ++ F)) → NoneAhead (log_facts (new ++ snapshot F)) }
    ensures in_order { (new F : List Fact) → LearnedInOrder (log_facts (new ++ F)) → LearnedInOrder (log_facts (new ++ snapshot F)) }
    ensures again { (F : List Fact) → snapshot (snapshot F) ≡ snapshot F }
    ensures short { (F : List Fact) → length (snapshot F) ≤ length (learned_in (log_facts F)) + held_count (held_in 0 0 F) + 2 }
{}

/// Each node recovers the same from alike lists, they have the same snapshot, and they stay alike as the same facts are put
/// in front of both.
pub fn alike_lists<B>()
    ensures recovers { (F G : List Fact) → AreAlike F G → RecoverSame B F G }
    ensures same_snapshot { (F G : List Fact) → AreAlike F G → snapshot F ≡ snapshot G }
    ensures newer { (new F G : List Fact) → AreAlike F G → AreAlike (new ++ F) (new ++ G) }
{}

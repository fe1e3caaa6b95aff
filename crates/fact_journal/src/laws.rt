// What nodes rest on: few facts are short, what fits can be restored, and blank disks have no facts.
ghost use Rattle.std.specs.Prelude.{◌≡◌, ℕ, ◌≤◌, ◌*◌, List, [], ◌∷◌, length, map, true};
ghost use Rattle.std.specs.List.{AllByRecursion};
ghost use Rattle.aeg_base.specs.declared.limits.TheConstants.{RECORD_BYTES};
ghost use Rattle.aeg_base.specs.declared.names.Tier.{Tier};
ghost use Rattle.aeg_disk.specs.Disk.{DiskState, Blank, SameContent};
ghost use Rattle.log_model.specs.declared.fact.Fact.{Fact as LogFact};
ghost use Rattle.log_model.specs.Recover.{onto, newest, learned_in, recover};
ghost use Rattle.log_model.specs.Nodes.{recorded};
ghost use Rattle.log_model.specs.Ranges.{IsFactIn, IsLogIn};
ghost use Rattle.log_values.specs.declared.any_value.AnyValue.{AnyValue};
ghost use Rattle.log_values.specs.declared.fact.Fact.{Fact};
ghost use Rattle.log_values.specs.Records.{record_text, FitsFact};
ghost use Rattle.log_values.specs.Fields.{FitsBallot};
ghost use Rattle.frames.specs.LogMessages.{IsCarried};
ghost use Rattle.tier_model.specs.Moves.{as_fact, log_facts};
ghost use Rattle.paxos_log.specs.TierLog.{AreInOrder, newest_first};
ghost use Rattle.fact_journal.specs.Fitting.{open_after_all, FactsFit, Fit, all_facts};
ghost use Rattle.fact_journal.specs.Calls.{IsRefusedAt};
ghost use Rattle.fact_journal.specs.Standing.{HasFacts, StandsFor, IsBlank};

/// A fact has at most 5,037 bytes, so a record of three is within the limit.
pub fn few_facts_are_short()
    ensures each { (facts : List Fact) → AllByRecursion FitsFact facts → length (record_text facts) ≤ 5037 * length facts }
    ensures few { (facts : List Fact) → AllByRecursion FitsFact facts → length facts ≤ 3 → length (record_text facts) ≤ RECORD_BYTES }
{}

/// Facts that fit a node can be written, and those of its log can be restored and are in range, as is the log that they
/// leave. What a turn of a log writes fits, where it is in order and in range. As many positions are learned as there are
/// Learned facts.
pub fn fitting_facts()
    ensures written { (tier : Tier) (first : ℕ) (facts : List Fact) → FactsFit tier first facts → AllByRecursion FitsFact facts }
    ensures in_order { (tier : Tier) (first : ℕ) (facts : List Fact) → FactsFit tier first facts → AreInOrder first (log_facts facts) }
    ensures in_range { (tier : Tier) (first : ℕ) (facts : List Fact) → FactsFit tier first facts → AllByRecursion (IsFactIn (IsCarried tier) FitsBallot) (log_facts facts) }
    ensures restored { (tier : Tier) (u : ℕ) (facts : List Fact) → FactsFit tier 0 facts → IsLogIn (IsCarried tier) FitsBallot (recover u (newest_first (log_facts facts))) }
    ensures turns { (tier : Tier) (first : ℕ) (facts : List (LogFact AnyValue)) → AllByRecursion (IsFactIn (IsCarried tier) FitsBallot) facts → AreInOrder first facts → FactsFit tier first (map as_fact facts) }
    ensures positions { (facts : List Fact) → open_after_all 0 facts ≡ length (learned_in (newest_first (log_facts facts))) }
{}

/// The facts of records that fit, and the record of an event whose facts fit behind them. A node restores from the facts
/// in the order in which they are given what its row restores from the newest one on.
pub fn fitting_records()
    ensures facts { (tier : Tier) (rs : List (List Fact)) → Fit tier rs → FactsFit tier 0 (all_facts rs) }
    ensures recorded { (tier : Tier) (rs : List (List Fact)) (facts : List Fact) → Fit tier rs → FactsFit tier (open_after_all 0 (all_facts rs)) facts → Fit tier (recorded rs facts) }
    ensures newest { (rs : List (List Fact)) → newest rs ≡ onto (all_facts rs) [] }
    ensures newest_log { (rs : List (List Fact)) → log_facts (newest rs) ≡ newest_first (log_facts (all_facts rs)) }
{}

/// What a restart refuses it refuses at one place.
pub fn refusals()
    ensures { (tier : Tier) (m n : ℕ) (bytes : List ℕ) → IsRefusedAt tier m bytes → IsRefusedAt tier n bytes → m ≡ n }
{}

/// A disk with these records stands for them alone, and a blank disk for the list of no records alone, as does one that
/// was erased. Arming a disk and putting the power back change nothing of that.
pub fn standing_disks()
    ensures alone { (rs : List (List Fact)) (s : DiskState) (at : ℕ) → s.tells ≡ true → HasFacts rs s at → StandsFor (rs ∷ []) s }
    ensures blank { (s : DiskState) → IsBlank s → StandsFor ([] ∷ []) s }
    ensures erased { (a b : DiskState) → Blank a b → a.tells ≡ true → StandsFor ([] ∷ []) b }
    ensures same_lists { (lists : List (List (List Fact))) (a b : DiskState) → StandsFor lists a → SameContent a b → b.tells ≡ a.tells → StandsFor lists b }
    ensures same_facts { (rs : List (List Fact)) (a b : DiskState) (at : ℕ) → HasFacts rs a at → SameContent a b → HasFacts rs b at }
{}

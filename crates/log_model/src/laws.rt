// The laws of agreement, for every list of events.
ghost use Rattle.std.specs.Prelude.{◌≡◌, ℕ, suc, ◌+◌, ◌*◌, ◌<◌, ◌≤◌, List, ◌++◌, Some, IsTrue, slice_get};
ghost use Rattle.aeg_base.specs.Ballots.{is_at_most};
ghost use Rattle.aeg_base.specs.declared.names.Ballot.{Ballot};
ghost use Rattle.log_model.specs.declared.fact.Fact.{Fact};
ghost use Rattle.log_model.specs.declared.message.PaxMsg.TheVariants.{Learn};
ghost use Rattle.log_model.specs.Recover.{newest, recover};
ghost use Rattle.log_model.specs.World.{Packet, Event, run, start};
ghost use Rattle.log_model.specs.Chosen.{chosen, Meets, HasLearned, Carries, Binds, StandsFor, KeepsVote};

/// Whatever is lost, repeated, reordered, cut, crashed, restarted or wiped, and however disks fail: what a node of the
/// tier has learned at a position is what was first chosen there, and no other value ever meets the condition. What a
/// message tells as learned is chosen, and so is what a disk has learned, whichever list it stands for. Where a position
/// is chosen, so is the one before it.
pub fn agreement<V>()
    ensures learned { (u x p : ℕ) (events : List (Event V)) (v : V) → u < 128 → x < 2 * u + 1 → HasLearned ((run u events start).nodes x).mode p v → chosen u events p ≡ Some v }
    ensures no_other { (u p : ℕ) (before after : List (Event V)) (v : V) → u < 128 → Meets u (run u before start).soup p v → chosen u (before ++ after) p ≡ Some v }
    ensures told { (u i p : ℕ) (events : List (Event V)) (k : Packet V) (v : V) → u < 128 → slice_get (run u events start).soup i ≡ Some k → k.msg ≡ Learn p v → chosen u events p ≡ Some v }
    ensures on_disk { (u x p : ℕ) (events : List (Event V)) (v : V) (records : List (List (Fact V))) → u < 128 → x < 2 * u + 1 → StandsFor ((run u events start).nodes x) ((run u events start).nodes x).mode records → slice_get (recover u (newest records)).learned p ≡ Some v → chosen u events p ≡ Some v }
    ensures no_gap { (u p : ℕ) (events : List (Event V)) (v : V) → u < 128 → chosen u events (suc p) ≡ Some v → (w : V) × (chosen u events p ≡ Some w) }
{}

/// Packets with one ballot and position carry one value, a value chosen at a ballot is that of each packet with a higher
/// one, and each list that the disk of a sender that isn't gone stands for keeps what it promised and accepted.
pub fn packets<V>()
    ensures one_value { (u i j p : ℕ) (events : List (Event V)) (k l : Packet V) (b : Ballot) (v w : V) → u < 128 → slice_get (run u events start).soup i ≡ Some k → slice_get (run u events start).soup j ≡ Some l → Carries k.msg b p v → Carries l.msg b p w → v ≡ w }
    ensures higher { (u j p : ℕ) (events : List (Event V)) (l : Packet V) (c : Ballot) (v w : V) (m : Meets u (run u events start).soup p v) → u < 128 → slice_get (run u events start).soup j ≡ Some l → Carries l.msg c p w → IsTrue (is_at_most m.ballot c) → w ≡ v }
    ensures promised { (u i : ℕ) (events : List (Event V)) (k : Packet V) (b : Ballot) (records : List (List (Fact V))) → u < 128 → k.from < 2 * u + 1 → slice_get (run u events start).soup i ≡ Some k → Binds k.msg b → StandsFor ((run u events start).nodes k.from) ((run u events start).nodes k.from).mode records → IsTrue (is_at_most b (recover u (newest records)).promised) }
    ensures accepted { (u i p : ℕ) (events : List (Event V)) (k : Packet V) (b : Ballot) (v : V) (records : List (List (Fact V))) → u < 128 → k.from < 2 * u + 1 → slice_get (run u events start).soup i ≡ Some k → Carries k.msg b p v → StandsFor ((run u events start).nodes k.from) ((run u events start).nodes k.from).mode records → KeepsVote (recover u (newest records)) p b }
{}

// The laws for a service of programs, and for the booking service, whose runs need no premise but their size.
ghost use Rattle.std.specs.Prelude.{◌≡◌, ℕ, ◌+◌, ◌*◌, ◌<◌, ◌≤◌, List, [], ◌∷◌, ◌++◌, length, Some, slice_get, true};
ghost use Rattle.aeg_base.specs.declared.names.End.TheVariants.{Client};
ghost use Rattle.aeg_base.specs.declared.names.ReqId.{ReqId};
ghost use Rattle.aeg_base.specs.declared.names.Tier.TheVariants.{Mid as MidTier};
ghost use Rattle.aeg_base.specs.declared.names.Tier.{Tier};
ghost use Rattle.server_model.specs.Server.{Meaning};
ghost use Rattle.server_model.specs.History.{Legal};
ghost use Rattle.server_model.specs.Single.{booking_meaning};
ghost use Rattle.server_model.specs.declared.history.Hist.TheVariants.{Start};
ghost use Rattle.exec_model.specs.Jobs.{Beginnings};
ghost use Rattle.log_model.specs.declared.message.PaxMsg.TheVariants.{Learn};
ghost use Rattle.log_model.specs.Chosen.{Meets};
ghost use Rattle.log_values.specs.declared.any_value.AnyValue.{AnyValue};
ghost use Rattle.log_values.specs.declared.any_value.AnyValue.TheVariants.{Mid, Back};
ghost use Rattle.log_values.specs.declared.back_value.BackValue.TheVariants.{Settle};
ghost use Rattle.log_values.specs.declared.mid_value.MidValue.TheVariants as values;
ghost use Rattle.log_values.specs.declared.mid_value.Verdict.{Verdict};
ghost use Rattle.log_values.specs.declared.entry.Entry.{Entry};
ghost use Rattle.log_values.specs.declared.fact.Fact.{Fact};
ghost use Rattle.frames.specs.declared.message.Msg.TheVariants as messages;
ghost use Rattle.round_model.specs.Spelled.{spelled};
ghost use Rattle.round_model.specs.Tables.{Number, Want, who_of};
ghost use Rattle.round_model.specs.After.{Round, round};
ghost use Rattle.round_model.specs.Verdicts.{Vote};
ghost use Rattle.tier_model.specs.Moves.{Packet, tier_of};
ghost use Rattle.run_model.specs.declared.trace.TraceEvent.{TraceEvent};
ghost use Rattle.run_model.specs.Histories.{HistoryStep};
ghost use Rattle.run_model.specs.Runs.{world, is_in, log_soup, served_of};
ghost use Rattle.tier_laws.specs.Said.{Laws, HasReply, HasCall, HasAnswer, WasSubmitted, RepliesAt, IsOf, chosen_log, HasLearned, DiskStandsFor, learned_from, HasApplied, DidRun, IsRun, Caused, FewGone, Durable, UsedBefore, HeldBefore, ManyHolders};
ghost use Rattle.run_model.specs.BookingRuns.{booking_service};
ghost use Rattle.tier_laws.specs.Services.{IsService, Setup, booking_run};

/// A service whose programs come to its table within the limits, and whose tokens have the spelling of outcomes, gives
/// all that the laws ask of one.
pub fn programs_meet<B>()
    ensures { (meaning : Meaning B) (begins : Beginnings) → IsService meaning begins → Laws (spelled meaning begins).programs }
{}

/// So does the booking service.
pub fn booking_meets()
    ensures { Laws booking_service.programs }
{}

/// No two values at one position of a tier in any run of the booking service: what meets the condition of being chosen
/// stands in the tier's chosen log, and so does what a node has learned, what a message tells as learned, and what a disk
/// has learned, whichever list it stands for. What stands there meets the condition.
pub fn booking_agreement()
    ensures chosen { (a : Setup) (es : List TraceEvent) (t : Tier) (p : ℕ) (v : AnyValue) → a.u ≤ 2 → Meets a.u (log_soup t (world (booking_run a) es).soup) p v → slice_get (chosen_log (world (booking_run a) es) t) p ≡ Some v }
    ensures learned { (a : Setup) (es : List TraceEvent) (t : Tier) (x p : ℕ) (v : AnyValue) → a.u ≤ 2 → x < 2 * a.u + 1 → HasLearned (booking_run a) (world (booking_run a) es) t x p v → slice_get (chosen_log (world (booking_run a) es) t) p ≡ Some v }
    ensures told { (a : Setup) (es : List TraceEvent) (t : Tier) (i p : ℕ) (k : Packet) (v : AnyValue) → a.u ≤ 2 → is_in t k.from ≡ true → slice_get (world (booking_run a) es).soup i ≡ Some k → k.message ≡ messages.Log (Learn p v) → slice_get (chosen_log (world (booking_run a) es) t) p ≡ Some v }
    ensures on_disk { (a : Setup) (es : List TraceEvent) (t : Tier) (x p : ℕ) (v : AnyValue) (records : List (List Fact)) → a.u ≤ 2 → x < 2 * a.u + 1 → DiskStandsFor (world (booking_run a) es) t x records → slice_get (learned_from a.u records) p ≡ Some v → slice_get (chosen_log (world (booking_run a) es) t) p ≡ Some v }
    ensures sound { (a : Setup) (es : List TraceEvent) (t : Tier) (p : ℕ) (v : AnyValue) → a.u ≤ 2 → slice_get (chosen_log (world (booking_run a) es) t) p ≡ Some v → Meets a.u (log_soup t (world (booking_run a) es).soup) p v }
{}

/// What every run of the booking service has: a legal history on one server, from which each reply, call and answer
/// comes, and whose requests were submitted.
pub fn booking_headline()
    ensures legal { (a : Setup) (es : List TraceEvent) → a.u ≤ 2 → Legal booking_meaning (world (booking_run a) es).hist }
    ensures replies { (a : Setup) (es : List TraceEvent) (i : ℕ) (k : Packet) (who : ReqId) (text : List ℕ) → a.u ≤ 2 → slice_get (world (booking_run a) es).soup i ≡ Some k → k.message ≡ messages.Reply who text → (k.to ≡ Client who.client) × HasReply (booking_run a) (world (booking_run a) es) who text }
    ensures calls { (a : Setup) (es : List TraceEvent) (i n : ℕ) (k : Packet) (text : List ℕ) → a.u ≤ 2 → slice_get (world (booking_run a) es).soup i ≡ Some k → k.message ≡ messages.Call n text → HasCall (booking_run a) (world (booking_run a) es) (tier_of k.to) n text }
    ensures answers { (a : Setup) (es : List TraceEvent) (i n code : ℕ) (k : Packet) → a.u ≤ 2 → slice_get (world (booking_run a) es).soup i ≡ Some k → k.message ≡ messages.Answer n code → HasAnswer (booking_run a) (world (booking_run a) es) (tier_of k.from) n code }
    ensures haves { (a : Setup) (es : List TraceEvent) (i n code : ℕ) (t : Tier) (k : Packet) → a.u ≤ 2 → slice_get (world (booking_run a) es).soup i ≡ Some k → k.message ≡ messages.Have t n code → HasAnswer (booking_run a) (world (booking_run a) es) t n code }
    ensures starts { (a : Setup) (es : List TraceEvent) (i n : ℕ) (who : ReqId) (body : List ℕ) → a.u ≤ 2 → slice_get (world (booking_run a) es).hist i ≡ Some (Start who n, body) → WasSubmitted (world (booking_run a) es) who body }
    ensures told { (a : Setup) (es : List TraceEvent) (i : ℕ) (e : Entry) → a.u ≤ 2 → slice_get (world (booking_run a) es).told i ≡ Some e → HasReply (booking_run a) (world (booking_run a) es) (who_of e) e.body }
{}

/// A middle node of the booking service that is up has the store and tables that the chosen log and the served answers come
/// to at its number of applied rounds. A backend node has the backend, the kept answers and the floor of its learned
/// positions.
pub fn booking_applied()
    ensures nodes { (a : Setup) (es : List TraceEvent) (t : Tier) (x : ℕ) → a.u ≤ 2 → x < 2 * a.u + 1 → HasApplied (booking_run a) (world (booking_run a) es) t ((world (booking_run a) es).nodes t x).mode }
{}

/// In the booking service what is submitted later starts later, past all that the history had before. So where a client
/// took a reply before a request was submitted, the history has that reply before the request's start, and all steps of
/// the request that it replies to.
pub fn booking_real_order()
    ensures starts { (a : Setup) (es more : List TraceEvent) (i n : ℕ) (who : ReqId) (body : List ℕ) → a.u ≤ 2 → slice_get (world (booking_run a) (es ++ more)).hist i ≡ Some (Start who n, body)
        → ((text : List ℕ) → WasSubmitted (world (booking_run a) es) who text → ⊥) → length (world (booking_run a) es).hist ≤ i }
    ensures replied { (a : Setup) (es more : List TraceEvent) (k i n : ℕ) (reply : Entry) (who : ReqId) (body : List ℕ) → a.u ≤ 2 → slice_get (world (booking_run a) es).told k ≡ Some reply → ((text : List ℕ) → WasSubmitted (world (booking_run a) es) who text → ⊥)
        → slice_get (world (booking_run a) (es ++ more)).hist i ≡ Some (Start who n, body) → (j : ℕ) × RepliesAt (booking_run a) (world (booking_run a) (es ++ more)) j (who_of reply) reply.body × (j < i) }
    ensures finished { (a : Setup) (es more : List TraceEvent) (k i j n : ℕ) (reply : Entry) (who : ReqId) (body : List ℕ) (step : HistoryStep) → a.u ≤ 2 → slice_get (world (booking_run a) es).told k ≡ Some reply → ((text : List ℕ) → WasSubmitted (world (booking_run a) es) who text → ⊥)
        → slice_get (world (booking_run a) (es ++ more)).hist i ≡ Some (Start who n, body) → slice_get (world (booking_run a) (es ++ more)).hist j ≡ Some step → IsOf (who_of reply) step.0 → j < i }
{}

/// A chosen Commit of the booking service has more than u nodes of the tier that ran its round to its token, one of them
/// with its order. A chosen Serial has two nodes of the tier that ran it to different tokens. Each run is by a node of the
/// tier, and its token is what the round's job comes to in the run's own order.
pub fn booking_causes()
    ensures causes { (a : Setup) (es : List TraceEvent) (r : ℕ) (v : Verdict) → a.u ≤ 2 → slice_get ((world (booking_run a) es).logs MidTier) (2 * r + 1) ≡ Some (Mid (values.Verdict v)) → Caused (booking_run a) (world (booking_run a) es) r v }
    ensures runs { (a : Setup) (es : List TraceEvent) (v : Vote) → a.u ≤ 2 → DidRun (world (booking_run a) es) v → IsRun (booking_run a) (world (booking_run a) es) v }
{}

/// Where at most u middle nodes of the booking service are gone, each call whose answer a decided round used, each call
/// below a floor that was sent, and each call below a floor that a backend's chosen log settles, is held by a node that
/// isn't gone, in each list that its disk stands for. For a round's calls this holds before the event that chooses its
/// verdict.
pub fn booking_durability()
    ensures used { (a : Setup) (es : List TraceEvent) (r j : ℕ) (v : Verdict) (made : Round) (q : Want) (k : Number) → a.u ≤ 2 → slice_get ((world (booking_run a) es).logs MidTier) (2 * r + 1) ≡ Some (Mid (values.Verdict v))
        → round booking_service.programs a.depth ((world (booking_run a) es).logs MidTier) (served_of (booking_run a) (world (booking_run a) es)) r ≡ Some made → slice_get made.wants j ≡ Some q → q.call ≡ Some k → FewGone (booking_run a) (world (booking_run a) es) → Durable (booking_run a) (world (booking_run a) es) k.tier k.num }
    ensures before { (a : Setup) (es : List TraceEvent) (e : TraceEvent) (r : ℕ) (v : Verdict) → a.u ≤ 2 → length ((world (booking_run a) es).logs MidTier) ≤ 2 * r + 1 → slice_get ((world (booking_run a) (es ++ e ∷ [])).logs MidTier) (2 * r + 1) ≡ Some (Mid (values.Verdict v)) → FewGone (booking_run a) (world (booking_run a) es) → UsedBefore (booking_run a) (world (booking_run a) es) r }
    ensures floors { (a : Setup) (es : List TraceEvent) (i g n : ℕ) (k : Packet) → a.u ≤ 2 → slice_get (world (booking_run a) es).soup i ≡ Some k → k.message ≡ messages.Settle g → 0 < n → n < g → FewGone (booking_run a) (world (booking_run a) es) → Durable (booking_run a) (world (booking_run a) es) (tier_of k.to) n }
    ensures settled { (a : Setup) (es : List TraceEvent) (t : Tier) (p g n : ℕ) → a.u ≤ 2 → slice_get ((world (booking_run a) es).logs t) p ≡ Some (Back (Settle g)) → 0 < n → n < g → FewGone (booking_run a) (world (booking_run a) es) → Durable (booking_run a) (world (booking_run a) es) t n }
{}

/// More than u middle nodes of the booking service held each call whose answer a round uses, before the event that chooses
/// the round's verdict, each call below a floor that was sent, and each call below a floor that a backend's chosen log
/// settles.
pub fn booking_holders()
    ensures used { (a : Setup) (es : List TraceEvent) (e : TraceEvent) (r : ℕ) (v : Verdict) → a.u ≤ 2 → length ((world (booking_run a) es).logs MidTier) ≤ 2 * r + 1 → slice_get ((world (booking_run a) (es ++ e ∷ [])).logs MidTier) (2 * r + 1) ≡ Some (Mid (values.Verdict v)) → HeldBefore (booking_run a) es r }
    ensures floors { (a : Setup) (es : List TraceEvent) (i g n : ℕ) (k : Packet) → a.u ≤ 2 → slice_get (world (booking_run a) es).soup i ≡ Some k → k.message ≡ messages.Settle g → 0 < n → n < g → ManyHolders (booking_run a) es (tier_of k.to) n }
    ensures settled { (a : Setup) (es : List TraceEvent) (t : Tier) (p g n : ℕ) → a.u ≤ 2 → slice_get ((world (booking_run a) es).logs t) p ≡ Some (Back (Settle g)) → 0 < n → n < g → ManyHolders (booking_run a) es t n }
{}

// The laws of the three tiers, for every list of events: whatever is delivered, lost, repeated, reordered, cut short,
// crashed, cut, faulted, wiped and restarted.
ghost use Rattle.std.specs.Prelude.{◌≡◌, ℕ, ◌+◌, ◌*◌, ◌<◌, ◌≤◌, List, [], ◌∷◌, ◌++◌, length, Some, slice_get, true};
ghost use Rattle.aeg_base.specs.declared.names.Tier.TheVariants.{Mid as MidTier};
ghost use Rattle.aeg_base.specs.declared.names.ReqId.{ReqId};
ghost use Rattle.aeg_base.specs.declared.names.Tier.{Tier};
ghost use Rattle.aeg_base.specs.declared.names.End.TheVariants.{Client};
ghost use Rattle.server_model.specs.History.{Legal};
ghost use Rattle.server_model.specs.declared.history.Hist.TheVariants.{Start};
ghost use Rattle.log_model.specs.declared.message.PaxMsg.TheVariants.{Learn};
ghost use Rattle.log_model.specs.Chosen.{Meets};
ghost use Rattle.log_values.specs.declared.any_value.AnyValue.{AnyValue};
ghost use Rattle.log_values.specs.declared.any_value.AnyValue.TheVariants.{Mid, Back};
ghost use Rattle.log_values.specs.declared.back_value.BackValue.TheVariants.{Settle};
ghost use Rattle.log_values.specs.declared.mid_value.MidValue.TheVariants as values;
ghost use Rattle.log_values.specs.declared.mid_value.Verdict.{Verdict};
ghost use Rattle.log_values.specs.declared.entry.Entry.{Entry};
ghost use Rattle.log_values.specs.declared.fact.Fact.{Fact};
ghost use Rattle.frames.specs.declared.message.Msg.TheVariants as messages;
ghost use Rattle.round_model.specs.Service.{meaning};
ghost use Rattle.round_model.specs.Tables.{Number, Want, who_of};
ghost use Rattle.round_model.specs.After.{Round, round};
ghost use Rattle.round_model.specs.Verdicts.{Vote};
ghost use Rattle.tier_model.specs.Moves.{Packet, tier_of};
ghost use Rattle.run_model.specs.declared.trace.TraceEvent.{TraceEvent};
ghost use Rattle.run_model.specs.World.{Config};
ghost use Rattle.run_model.specs.Histories.{HistoryStep};
ghost use Rattle.run_model.specs.Runs.{world, is_in, log_soup, served_of};
ghost use Rattle.tier_laws.specs.Said.{Laws, HasReply, HasCall, HasAnswer, WasSubmitted, RepliesAt, IsOf, IsFront, chosen_log, HasLearned, DiskStandsFor, learned_from, HasApplied, DidRun, IsRun, Caused, FewGone, Durable, UsedBefore, HeldBefore, ManyHolders};

/// The history is legal on one server. Each reply, call and answer that was sent is one of this history, a reply goes to
/// its own client, and so is each reply that a client took. What starts in it was submitted with that text.
pub fn headline<B>()
    ensures legal { (c : Config B) (es : List TraceEvent) → c.u ≤ 2 → Laws c.service.programs → Legal (meaning c.service) (world c es).hist }
    ensures replies { (c : Config B) (es : List TraceEvent) (i : ℕ) (k : Packet) (who : ReqId) (text : List ℕ) → c.u ≤ 2 → Laws c.service.programs → slice_get (world c es).soup i ≡ Some k → k.message ≡ messages.Reply who text → (k.to ≡ Client who.client) × HasReply c (world c es) who text }
    ensures calls { (c : Config B) (es : List TraceEvent) (i n : ℕ) (k : Packet) (text : List ℕ) → c.u ≤ 2 → Laws c.service.programs → slice_get (world c es).soup i ≡ Some k → k.message ≡ messages.Call n text → HasCall c (world c es) (tier_of k.to) n text }
    ensures answers { (c : Config B) (es : List TraceEvent) (i n code : ℕ) (k : Packet) → c.u ≤ 2 → Laws c.service.programs → slice_get (world c es).soup i ≡ Some k → k.message ≡ messages.Answer n code → HasAnswer c (world c es) (tier_of k.from) n code }
    ensures haves { (c : Config B) (es : List TraceEvent) (i n code : ℕ) (t : Tier) (k : Packet) → c.u ≤ 2 → Laws c.service.programs → slice_get (world c es).soup i ≡ Some k → k.message ≡ messages.Have t n code → HasAnswer c (world c es) t n code }
    ensures starts { (c : Config B) (es : List TraceEvent) (i n : ℕ) (who : ReqId) (body : List ℕ) → c.u ≤ 2 → Laws c.service.programs → slice_get (world c es).hist i ≡ Some (Start who n, body) → WasSubmitted (world c es) who body }
    ensures told { (c : Config B) (es : List TraceEvent) (i : ℕ) (e : Entry) → c.u ≤ 2 → Laws c.service.programs → slice_get (world c es).told i ≡ Some e → HasReply c (world c es) (who_of e) e.body }
{}

/// No two values at one position of a tier: what meets the condition of being chosen stands in the tier's chosen log, and
/// so does what a node has learned, what a message tells as learned, and what a disk has learned, whichever list it
/// stands for. What stands there meets the condition.
pub fn agreement<B>()
    ensures chosen { (c : Config B) (es : List TraceEvent) (t : Tier) (p : ℕ) (v : AnyValue) → c.u ≤ 2 → Laws c.service.programs → Meets c.u (log_soup t (world c es).soup) p v → slice_get (chosen_log (world c es) t) p ≡ Some v }
    ensures learned { (c : Config B) (es : List TraceEvent) (t : Tier) (x p : ℕ) (v : AnyValue) → c.u ≤ 2 → Laws c.service.programs → x < 2 * c.u + 1 → HasLearned c (world c es) t x p v → slice_get (chosen_log (world c es) t) p ≡ Some v }
    ensures told { (c : Config B) (es : List TraceEvent) (t : Tier) (i p : ℕ) (k : Packet) (v : AnyValue) → c.u ≤ 2 → Laws c.service.programs → is_in t k.from ≡ true → slice_get (world c es).soup i ≡ Some k → k.message ≡ messages.Log (Learn p v) → slice_get (chosen_log (world c es) t) p ≡ Some v }
    ensures on_disk { (c : Config B) (es : List TraceEvent) (t : Tier) (x p : ℕ) (v : AnyValue) (records : List (List Fact)) → c.u ≤ 2 → Laws c.service.programs → x < 2 * c.u + 1 → DiskStandsFor (world c es) t x records → slice_get (learned_from c.u records) p ≡ Some v → slice_get (chosen_log (world c es) t) p ≡ Some v }
    ensures sound { (c : Config B) (es : List TraceEvent) (t : Tier) (p : ℕ) (v : AnyValue) → c.u ≤ 2 → Laws c.service.programs → slice_get (chosen_log (world c es) t) p ≡ Some v → Meets c.u (log_soup t (world c es).soup) p v }
{}

/// Chosen logs and the history only grow, at their ends.
pub fn growth<B>()
    ensures logs { (c : Config B) (es more : List TraceEvent) (t : Tier) → IsFront (chosen_log (world c es) t) (chosen_log (world c (es ++ more)) t) }
    ensures history { (c : Config B) (es more : List TraceEvent) → IsFront (world c es).hist (world c (es ++ more)).hist }
{}

/// A middle node that is up has the store and tables that the chosen log and the served answers come to at its number of
/// applied rounds. A backend node has the backend, the kept answers and the floor of its learned positions.
pub fn applied<B>()
    ensures nodes { (c : Config B) (es : List TraceEvent) (t : Tier) (x : ℕ) → c.u ≤ 2 → Laws c.service.programs → x < 2 * c.u + 1 → HasApplied c (world c es) t ((world c es).nodes t x).mode }
{}

/// What is submitted later starts later, past all that the history had before. So where a client took a reply before a
/// request was submitted, the history has that reply before the request's start, and all steps of the request that it
/// replies to.
pub fn real_order<B>()
    ensures starts { (c : Config B) (es more : List TraceEvent) (i n : ℕ) (who : ReqId) (body : List ℕ) → c.u ≤ 2 → Laws c.service.programs → slice_get (world c (es ++ more)).hist i ≡ Some (Start who n, body)
        → ((text : List ℕ) → WasSubmitted (world c es) who text → ⊥) → length (world c es).hist ≤ i }
    ensures replied { (c : Config B) (es more : List TraceEvent) (k i n : ℕ) (reply : Entry) (who : ReqId) (body : List ℕ) → c.u ≤ 2 → Laws c.service.programs → slice_get (world c es).told k ≡ Some reply → ((text : List ℕ) → WasSubmitted (world c es) who text → ⊥)
        → slice_get (world c (es ++ more)).hist i ≡ Some (Start who n, body) → (j : ℕ) × RepliesAt c (world c (es ++ more)) j (who_of reply) reply.body × (j < i) }
    ensures finished { (c : Config B) (es more : List TraceEvent) (k i j n : ℕ) (reply : Entry) (who : ReqId) (body : List ℕ) (step : HistoryStep) → c.u ≤ 2 → Laws c.service.programs → slice_get (world c es).told k ≡ Some reply → ((text : List ℕ) → WasSubmitted (world c es) who text → ⊥)
        → slice_get (world c (es ++ more)).hist i ≡ Some (Start who n, body) → slice_get (world c (es ++ more)).hist j ≡ Some step → IsOf (who_of reply) step.0 → j < i }
{}

/// A chosen Commit has more than u nodes of the tier that ran its round to its token, one of them with its order. A chosen
/// Serial has two nodes of the tier that ran it to different tokens. Each run is by a node of the tier, and its token is
/// what the round's job comes to in the run's own order.
pub fn causes<B>()
    ensures causes { (c : Config B) (es : List TraceEvent) (r : ℕ) (v : Verdict) → c.u ≤ 2 → Laws c.service.programs → slice_get ((world c es).logs MidTier) (2 * r + 1) ≡ Some (Mid (values.Verdict v)) → Caused c (world c es) r v }
    ensures runs { (c : Config B) (es : List TraceEvent) (v : Vote) → c.u ≤ 2 → Laws c.service.programs → DidRun (world c es) v → IsRun c (world c es) v }
{}

/// Where at most u middle nodes are gone, each call whose answer a decided round used, each call below a floor that was
/// sent, and each call below a floor that a backend's chosen log settles, is held by a node that isn't gone, in each list
/// that its disk stands for. For a round's calls this holds before the event that chooses its verdict.
pub fn durability<B>()
    ensures used { (c : Config B) (es : List TraceEvent) (r j : ℕ) (v : Verdict) (made : Round) (q : Want) (k : Number) → c.u ≤ 2 → Laws c.service.programs → slice_get ((world c es).logs MidTier) (2 * r + 1) ≡ Some (Mid (values.Verdict v))
        → round c.service.programs c.depth ((world c es).logs MidTier) (served_of c (world c es)) r ≡ Some made → slice_get made.wants j ≡ Some q → q.call ≡ Some k → FewGone c (world c es) → Durable c (world c es) k.tier k.num }
    ensures before { (c : Config B) (es : List TraceEvent) (e : TraceEvent) (r : ℕ) (v : Verdict) → c.u ≤ 2 → Laws c.service.programs → length ((world c es).logs MidTier) ≤ 2 * r + 1 → slice_get ((world c (es ++ e ∷ [])).logs MidTier) (2 * r + 1) ≡ Some (Mid (values.Verdict v)) → FewGone c (world c es) → UsedBefore c (world c es) r }
    ensures floors { (c : Config B) (es : List TraceEvent) (i g n : ℕ) (k : Packet) → c.u ≤ 2 → Laws c.service.programs → slice_get (world c es).soup i ≡ Some k → k.message ≡ messages.Settle g → 0 < n → n < g → FewGone c (world c es) → Durable c (world c es) (tier_of k.to) n }
    ensures settled { (c : Config B) (es : List TraceEvent) (t : Tier) (p g n : ℕ) → c.u ≤ 2 → Laws c.service.programs → slice_get ((world c es).logs t) p ≡ Some (Back (Settle g)) → 0 < n → n < g → FewGone c (world c es) → Durable c (world c es) t n }
{}

/// More than u middle nodes held each call whose answer a round uses, before the event that chooses the round's verdict,
/// each call below a floor that was sent, and each call below a floor that a backend's chosen log settles.
pub fn holders<B>()
    ensures used { (c : Config B) (es : List TraceEvent) (e : TraceEvent) (r : ℕ) (v : Verdict) → c.u ≤ 2 → Laws c.service.programs → length ((world c es).logs MidTier) ≤ 2 * r + 1 → slice_get ((world c (es ++ e ∷ [])).logs MidTier) (2 * r + 1) ≡ Some (Mid (values.Verdict v)) → HeldBefore c es r }
    ensures floors { (c : Config B) (es : List TraceEvent) (i g n : ℕ) (k : Packet) → c.u ≤ 2 → Laws c.service.programs → slice_get (world c es).soup i ≡ Some k → k.message ≡ messages.Settle g → 0 < n → n < g → ManyHolders c es (tier_of k.to) n }
    ensures settled { (c : Config B) (es : List TraceEvent) (t : Tier) (p g n : ℕ) → c.u ≤ 2 → Laws c.service.programs → slice_get ((world c es).logs t) p ≡ Some (Back (Settle g)) → 0 < n → n < g → ManyHolders c es t n }
{}

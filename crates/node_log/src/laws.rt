// What a node's calls come to, and what the turns of its log may do.
ghost use Rattle.std.specs.Prelude.{◌≡◌, ℕ, ◌+◌, ◌*◌, ◌<◌, ◌≤◌, true, List, [], ◌++◌, Option, None, length, map, take, IfOk, OnOk, OnErr};
ghost use Rattle.std.specs.declared.result.Result.{Result};
ghost use Rattle.std.specs.List.{AllByRecursion};
ghost use Rattle.aeg_base.specs.declared.memory.Memory.{Memory};
ghost use Rattle.aeg_base.specs.declared.names.End.{End};
ghost use Rattle.aeg_base.specs.declared.names.Tier.{Tier};
ghost use Rattle.aeg_disk.specs.Disk.{DiskState};
ghost use Rattle.log_model.specs.declared.message.PaxMsg.{PaxMsg};
ghost use Rattle.log_model.specs.Log.{LogState, Turn as Row, open_at};
ghost use Rattle.log_model.specs.Recover.{onto};
ghost use Rattle.log_model.specs.Rows.{on_msg, lead, offer};
ghost use Rattle.log_model.specs.Ranges.{IsLogIn, IsMessageIn, IsOwnIn};
ghost use Rattle.log_values.specs.declared.any_value.AnyValue.{AnyValue};
ghost use Rattle.log_values.specs.declared.fact.Fact.{Fact};
ghost use Rattle.log_values.specs.Fields.{FitsBallot};
ghost use Rattle.tier_model.specs.declared.turn.Fault.{Fault};
ghost use Rattle.tier_model.specs.declared.turn.Turn.{Turn as Answer};
ghost use Rattle.frames.specs.LogMessages.{IsCarried, FitsLog};
ghost use Rattle.paxos_log.specs.TierLog.{HasPlace, NodeLog, with_state};
ghost use Rattle.tier_model.specs.Moves.{Move, as_fact};
ghost use Rattle.node_log.specs.declared.decided.Decided.{Decided};
ghost use Rattle.node_log.specs.declared.working.Working.{Working};
ghost use Rattle.node_log.specs.Packets.{all_sealed};
ghost use Rattle.node_log.specs.Views.{View, CameUp, MayWrite, Moves, Restarts, Tells, is_up, seen_as, went_down};
ghost use Rattle.node_log.specs.Quiet.{IsIdleTurn, IsQuietFrom, IsUnmoved, is_quiet};
ghost use Rattle.node_log.specs.LogNodes.{Standing, IsLogTurn, IsOwnLog, WasAtWork, standing_in};
ghost use Rattle.node_log.specs.Settling.{CanRecord, Decides, Records};
ghost use Rattle.node_log.specs.Restarting.{Journal, ComesUp, Opens};

/// A call that took a node down, decided a row's move on what it had in hand, and settled that, made the move.
pub fn moves<R, S>()
    ensures { (whole : Standing R → S) (row : S → Move S) (now down new : View (Standing R)) (held next : Working R) (a b : DiskState)
        (before between after : List (End × List ℕ)) (decided : Result Decided Memory) (result : Result Answer Fault)
        → WasAtWork now held → down ≡ went_down now → Decides whole row held next before between decided
        → OnOk result (new ≡ record down { up = Some (standing_in next); place = new.place }) → OnOk result (after ≡ between)
        → OnErr result (new ≡ down) → OnErr result (after ≡ take (length before) between) → Records a b down.place new.place decided result
        → Moves (seen_as whole now) (seen_as whole new) a b before after row result }
{}

/// A call that took a node down, decided a row's move without facts, and put back what it had in hand, made the move.
pub fn tells<R, S>()
    ensures { (whole : Standing R → S) (row : S → Move S) (now down new : View (Standing R)) (held next : Working R)
        (before after : List (End × List ℕ)) (result : Result Answer Fault)
        → WasAtWork now held → down ≡ went_down now
        → OnOk result (whole (standing_in next) ≡ (row (whole (standing_in held))).state)
        → IfOk result (λ answer. answer ≡ (row (whole (standing_in held))).answer)
        → OnOk result (after ≡ before ++ all_sealed (row (whole (standing_in held))).sends)
        → OnOk result (new ≡ record down { up = Some (standing_in next) }) → OnErr result (new ≡ down) → OnErr result (after ≡ before)
        → ((fault : Fault) → result ≡ Err fault → fault ≡ Fault.Memory)
        → Tells (seen_as whole now) (seen_as whole new) before after row result }
{}

/// A restart that opened the node's journal, and came up with what its facts leave, is one.
pub fn restarts<R, S>()
    ensures came_up { (whole : Standing R → S) (old new : View (Standing R)) (recovered : List Fact → S) (facts : List Fact) (standing : Standing R) (place : ℕ)
        → new ≡ record old { up = Some standing; place = place } → whole standing ≡ recovered (onto facts [])
        → CameUp (seen_as whole old) (seen_as whole new) recovered facts × (new.place ≡ place) }
    ensures restarts { (old new : View S) (a b : DiskState) (recovered : List Fact → S) (opened : Result Journal Fault) (result : Result (Unit {0}) Fault)
        → Opens old.tier a b opened → ComesUp old new recovered opened result → Restarts old new a b recovered result }
{}

/// A move whose row does nothing where it answers so leaves node, disk and packets as they were then.
pub fn quiet_moves<S>()
    ensures { (row : S → Move S) (old new : View S) (a b : DiskState) (before after : List (End × List ℕ)) (result : Result Answer Fault)
        → is_up old ≡ true → ((s : S) → IsQuietFrom s (row s)) → Moves old new a b before after row result
        → IfOk result (λ answer. is_quiet answer ≡ true → IsUnmoved old new a b before after) }
{}

/// A node may write again after a move without a fault, and after a restart.
pub fn ready_again<S>()
    ensures moved { (row : S → Move S) (old new : View S) (a b : DiskState) (before after : List (End × List ℕ)) (result : Result Answer Fault)
        → is_up old ≡ true → MayWrite old a → Moves old new a b before after row result → OnOk result (MayWrite new b) }
    ensures restarted { (old new : View S) (a b : DiskState) (recovered : List Fact → S) (result : Result (Unit {0}) Fault)
        → Restarts old new a b recovered result → OnOk result (MayWrite new b) }
{}

/// The rows of a node's log do nothing where they tell why, and an offer never tells.
pub fn quiet_turns()
    ensures messages { (u s : ℕ) (log : LogState AnyValue) (m : PaxMsg AnyValue) → IsIdleTurn log (on_msg u log s m) }
    ensures leading { (u x : ℕ) (log : LogState AnyValue) → IsIdleTurn log (lead u x log) }
    ensures offers { (u x : ℕ) (log : LogState AnyValue) (own : Option AnyValue) → (offer u x log own).idle ≡ None }
{}

/// What the rows of a node's log do with a log, a message and a value that the tier's frames can carry: the messages of a
/// turn have frames, and its facts can be written down as one record.
pub fn log_turns()
    ensures received { (t : Tier) (m : PaxMsg AnyValue) → FitsLog t m → IsMessageIn (IsCarried t) FitsBallot m }
    ensures placed { (t : Tier) (m : PaxMsg AnyValue) → FitsLog t m → HasPlace m }
    ensures messages { (u : ℕ) (t : Tier) (s : ℕ) (log : LogState AnyValue) (m : PaxMsg AnyValue) → s < 2 * u + 1
        → IsLogIn (IsCarried t) FitsBallot log → FitsLog t m → IsLogTurn u t (on_msg u log s m) }
    ensures leading { (u : ℕ) (t : Tier) (x : ℕ) (log : LogState AnyValue) → x ≤ 4 → IsLogIn (IsCarried t) FitsBallot log → IsLogTurn u t (lead u x log) }
    ensures offers { (u : ℕ) (t : Tier) (x : ℕ) (log : LogState AnyValue) (own : Option AnyValue) → IsLogIn (IsCarried t) FitsBallot log
        → IsOwnIn (IsCarried t) (open_at log) own → IsLogTurn u t (offer u x log own) }
    ensures sends { (u : ℕ) (t : Tier) (turn : Row AnyValue) → IsLogTurn u t turn → AllByRecursion (λ send. FitsLog t send.1) turn.sends }
    ensures recorded { (u : ℕ) (t : Tier) (turn : Row AnyValue) → IsLogTurn u t turn → CanRecord (map as_fact turn.facts) }
    ensures own { (u : ℕ) (t : Tier) (x : ℕ) (log : NodeLog AnyValue) (turn : Row AnyValue) → IsOwnLog u t x log → IsLogTurn u t turn
        → IsOwnLog u t x (with_state log turn.state) }
{}

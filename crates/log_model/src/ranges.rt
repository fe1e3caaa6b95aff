// What is in range stays in range.
ghost use Rattle.std.specs.Prelude.{ℕ, ◌+◌, ◌*◌, ◌<◌, Bool, IsTrue, Option};
ghost use Rattle.aeg_base.specs.declared.names.Ballot.{Ballot};
ghost use Rattle.log_model.specs.declared.message.PaxMsg.{PaxMsg};
ghost use Rattle.log_model.specs.Log.{LogState, open_at};
ghost use Rattle.log_model.specs.Rows.{lead, offer, on_msg};
ghost use Rattle.log_model.specs.Ranges.{IsMessageIn, IsLogIn, IsTurnIn, IsOwnIn, MayRaise};

/// Where the values of a log stand at positions that a test lets them stand at, and its ballots pass another one, and
/// those of a message do, so do those of the next state, of the facts and of the packets after each row, and the
/// packets go to nodes of the tier.
pub fn keeps_ranges<V>()
    ensures messages { (Q : ℕ → V → Bool) (F : Ballot → Bool) (u s : ℕ) (log : LogState V) (m : PaxMsg V) → s < 2 * u + 1 → IsLogIn (λ p v. IsTrue (Q p v)) (λ b. IsTrue (F b)) log → IsMessageIn (λ p v. IsTrue (Q p v)) (λ b. IsTrue (F b)) m → IsTurnIn u (λ p v. IsTrue (Q p v)) (λ b. IsTrue (F b)) (on_msg u log s m) }
    ensures leading { (Q : ℕ → V → Bool) (F : Ballot → Bool) (u x : ℕ) (log : LogState V) → MayRaise (λ b. IsTrue (F b)) x → IsLogIn (λ p v. IsTrue (Q p v)) (λ b. IsTrue (F b)) log → IsTurnIn u (λ p v. IsTrue (Q p v)) (λ b. IsTrue (F b)) (lead u x log) }
    ensures offers { (Q : ℕ → V → Bool) (F : Ballot → Bool) (u x : ℕ) (log : LogState V) (own : Option V) → IsLogIn (λ p v. IsTrue (Q p v)) (λ b. IsTrue (F b)) log → IsOwnIn (λ p v. IsTrue (Q p v)) (open_at log) own → IsTurnIn u (λ p v. IsTrue (Q p v)) (λ b. IsTrue (F b)) (offer u x log own) }
{}

// The tally of a round.
ghost use Rattle.std.specs.Prelude.{◌≡◌, ℕ, ◌+◌, ◌*◌, ◌<◌, ◌≤◌, Some, None, Ok, not, is_some, nat_lt, option_copied, OnErr, IfOk, if◌then◌else◌};
ghost use Rattle.log_model.specs.Log.{count_below};
ghost use Rattle.round_model.specs.Verdicts.{no_claims, claim_of, with_claim, how_many, has_token, lowest_backed, serial_if, verdict};

use crate::claims::{claim, commit, tells_token};
use aeg_base::Memory;
use aeg_base::limits::MAX_FAULTS;
use log_values::{Token, Verdict};
use round_model::Claim;
use std::alloc::Global;
use std::marker::Model;

/// What the nodes of a tier of 2u+1 told of one round, by their numbers.
#[derive(Drop)]
pub struct Tally {
    alloc: Global,
    faults: u8,
    claims: [Option<Claim>; 5],
}

impl Model for Tally {
    ghost use Rattle.std.specs.Prelude.{◌≡◌, ◌≤◌, length};
    ghost use Rattle.state_verify.specs.Tallies.{TallyState};

    ghost Value = { TallyState };

    ghost view = { λ t. record { faults = t.faults; claims = t.claims } };

    ghost invariant = { λ t. (t.faults ≤ 2) × (length t.claims ≡ 5) };
}

impl Tally {
    /// Nobody has told anything yet.
    pub fn new(alloc: Global, u: u8) -> Self
        requires { u ≤ MAX_FAULTS }
        ensures faults { result.faults ≡ u }
        ensures claims { result.claims ≡ no_claims }
    {
        Tally {
            alloc,
            faults: u,
            claims: [None, None, None, None, None],
        }
    }

    /// Counts what a node told; false where it is in already.
    pub fn add(&mut self, from: u8, token: &Token, order: &[u8]) -> Result<bool, Memory>
        requires { from < 2 * self.old.faults + 1 }
        ensures added { IfOk result (λ added. added ≡ not (is_some (claim_of self.old.claims from))) }
        ensures claims { IfOk result (λ added. self.new.claims ≡ (if added then with_claim self.old.claims from (record { token = token.now; order = order.now }) else self.old.claims)) }
        ensures faults { self.new.faults ≡ self.old.faults }
        ensures memory { OnErr result (self.new.claims ≡ self.old.claims) }
    {
        let place = usize::from(from);
        if self.claims[place].is_some() {
            return Ok(false);
        }
        let claim = claim(self.alloc, token, order)?;
        self.claims[place] = Some(claim);
        Ok(true)
    }

    /// How many nodes are in.
    pub fn have(&self) -> u8
        ensures { result ≡ how_many self.now.faults self.now.claims }
    {
        let mut count = 0;
        'nodes: for node in 0..2 * self.faults + 1 {
            if self.claims[usize::from(node)].is_some() {
                count += 1;
            }
        }
        count
    }

    /// Commit where u+1 tokens are equal, with the order of the lowest-numbered of them. Serial where at least u+1 are in
    /// and no u+1 are equal. None where fewer are in, for which no memory is taken.
    pub fn verdict(&self) -> Result<Option<Verdict>, Memory>
        ensures verdict { IfOk result (λ found. found ≡ verdict self.now.faults self.now.claims) }
        ensures none { verdict self.now.faults self.now.claims ≡ None → result ≡ Ok None }
    {
        let Some(claim) = self.backed() else {
            return Ok(self.unbacked());
        };
        let verdict = commit(claim)?;
        Ok(Some(verdict))
    }

    /// The verdict where no token is that of u+1 nodes.
    fn unbacked(&self) -> Option<Verdict>
        ensures { result ≡ serial_if (nat_lt self.now.faults (how_many self.now.faults self.now.claims)) }
    {
        if self.have() > self.faults {
            return Some(Verdict::Serial);
        }
        None
    }

    /// What the lowest-numbered of the nodes told whose token is that of u+1.
    fn backed(&self) -> Option<&Claim>
        ensures { option_copied result ≡ lowest_backed self.now.faults self.now.claims }
    {
        'nodes: for node in 0..2 * self.faults + 1 {
            if let Some(claim) = &self.claims[usize::from(node)] {
                if self.equal_to(&claim.token) > self.faults {
                    return Some(claim);
                }
            }
        }
        None
    }

    /// How many nodes told this token.
    fn equal_to(&self, token: &Token) -> u8
        ensures { result ≡ count_below (2 * self.now.faults + 1) (λ node. has_token token.now (claim_of self.now.claims node)) }
    {
        let mut count = 0;
        'nodes: for node in 0..2 * self.faults + 1 {
            if tells_token(&self.claims[usize::from(node)], token) {
                count += 1;
            }
        }
        count
    }
}

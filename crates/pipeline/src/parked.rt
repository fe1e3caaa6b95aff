// A request that waits for its call.
ghost use Rattle.std.specs.Prelude.{◌≡◌, IfOk};
ghost use Rattle.round_model.specs.Tables.{as_seg, resumed};
ghost use Rattle.pipeline.specs.States.{call_of};
ghost use Rattle.pipeline.specs.Jobs.{parked_by};

use aeg_base::{Bytes, CallNo, Memory, ReqId, Tier};
use exec_model::Seg;
use std::marker::Model;

/// A request that waits for the answer of its call, and the stage at which it goes on.
#[derive(Debug, Drop)]
pub struct Parked {
    who: ReqId,
    body: Bytes,
    stage: u8,
    tier: Tier,
    num: CallNo,
    text: Bytes,
}

impl Model for Parked {
    ghost use Rattle.round_model.specs.Tables.{Parked as Waiting};

    ghost Value = { Waiting };

    ghost view = { λ p. record { client = p.who.client; seq = p.who.seq; body = p.body; stage = p.stage; tier = p.tier; num = p.num; text = p.text } };
}

impl Parked {
    /// The request of a segment that called.
    pub fn new(seg: &Seg, stage: u8, tier: Tier, num: CallNo, text: &Bytes) -> Result<Self, Memory>
        ensures waits { IfOk result (λ parked. parked ≡ parked_by seg.now stage tier num text.now) }
    {
        let body = seg.body.copy()?;
        let text = text.copy()?;
        Ok(Parked {
            who: seg.who,
            body,
            stage,
            tier,
            num,
            text,
        })
    }

    pub fn tier(&self) -> Tier
        ensures tier { result ≡ self.now.tier }
    {
        self.tier
    }

    /// The number of its call.
    pub fn number(&self) -> CallNo
        ensures number { result ≡ self.now.num }
    {
        self.num
    }

    /// The segment that goes on with this answer.
    pub fn resume(&self, answer: Option<u8>) -> Result<Seg, Memory>
        ensures resumed { IfOk result (λ seg. seg ≡ as_seg (resumed self.now) answer) }
    {
        let body = self.body.copy()?;
        Ok(Seg {
            who: self.who,
            body,
            stage: self.stage,
            answer,
        })
    }

    /// Its call, with its number and its text.
    pub fn call(&self) -> Result<(Tier, CallNo, Bytes), Memory>
        ensures call { IfOk result (λ call. call ≡ call_of self.now) }
    {
        let text = self.text.copy()?;
        Ok((self.tier, self.num, text))
    }
}

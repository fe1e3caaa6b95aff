// The messages of the tiers and their clients.
use aeg_base::{Bytes, CallNo, ReqId, Round, Seq, Tier};
use log_model::PaxMsg;
use log_values::{AnyValue, Token};

/// A message: one of a tier's log, a client's request or its reply, a token of a round, a nested call, its answer,
/// word that an answer is held, or a floor below which no answer is wanted any more.
#[derive(Debug, Drop)]
pub enum Msg {
    Log(PaxMsg<AnyValue>),
    Request {
        seq: u32,
        body: Bytes,
    },
    Reply {
        who: ReqId,
        body: Bytes,
    },
    Token {
        round: Round,
        token: Token,
        order: Seq<u8>,
    },
    Call {
        no: CallNo,
        body: Bytes,
    },
    Answer {
        no: CallNo,
        code: u8,
    },
    Have {
        tier: Tier,
        no: CallNo,
        code: u8,
    },
    Settle {
        floor: CallNo,
    },
}

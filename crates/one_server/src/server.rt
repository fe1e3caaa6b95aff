// The server: its state, and a step at a time.
ghost use Rattle.std.specs.Prelude.{◌≡◌, [], None};
ghost use Rattle.svc_api.specs.declared.action.Ending.TheVariants as ends;
ghost use Rattle.svc_api.specs.Requests.{IsRequest};
ghost use Rattle.server_model.specs.Server.{opening_server, step as step_of, ended, found_in};
ghost use Rattle.server_model.specs.Single.{booking_meaning};
ghost use Rattle.one_server.specs.Steps.{Answers, IsNamed, Calls};
ghost use Rattle.one_server.specs.Writes.{after};

use crate::answering::answer;
use crate::book::Book;
use crate::clients::Clients;
use crate::making::make;
use crate::refusal::StepErr;
use crate::stage::{Ran, run_stage};
use crate::write::Write;
use aeg_base::{Bytes, CallNo, ReqId, Tier};
use backend_svc::{Inventory, Payment};
use booking::Booking;
use kv_store::{Store, UndoList};
use server_model::{Hist, Progress, Told};
use std::alloc::Global;
use std::marker::Model;
use svc_api::Ending;

/// The unreplicated server of bookings, with its inventory and its payment.
#[derive(Drop)]
pub struct OneServer {
    alloc: Global,
    service: Booking,
    store: Store,
    clients: Clients,
    calls: Book<Bytes>,
    served: Book<u8>,
    inventory: Inventory,
    payment: Payment,
    replies: Vec<(ReqId, Bytes)>,
}

impl Model for OneServer {
    ghost use Rattle.std.specs.Coded.{coded_ℕ};
    ghost use Rattle.aeg_base.specs.Numbers.{numbers_code};
    ghost use Rattle.server_model.specs.Backends.{Amounts};
    ghost use Rattle.server_model.specs.Codes.{server_code};
    ghost use Rattle.server_model.specs.Server.{Server};

    ghost Value = { Server Amounts };

    ghost coded = { server_code (numbers_code coded_ℕ) };

    ghost view = { λ s. record {
      store = s.store.map;
      last = s.clients.last;
      progress = s.clients.progress;
      calls = s.calls;
      served = s.served;
      inventory = s.inventory;
      payment = s.payment;
      replies = s.replies.items;
    } };
}

impl OneServer {
    pub fn new(alloc: Global) -> Self
        ensures { result ≡ opening_server booking_meaning }
    {
        OneServer {
            alloc,
            service: Booking::new(alloc),
            store: Store::new(alloc),
            clients: Clients::new(),
            calls: Book::new(alloc),
            served: Book::new(alloc),
            inventory: Inventory::new(alloc),
            payment: Payment::new(alloc),
            replies: Vec::new(alloc),
        }
    }

    /// The replies, in the order of the steps that gave them.
    pub fn replies(&self) -> &[(ReqId, Bytes)]
        ensures { result.now ≡ self.now.replies }
    {
        &self.replies
    }

    /// The nested calls, in the order of the steps that made them.
    pub fn calls(&self) -> &[(Tier, CallNo, Bytes)]
        ensures { result.now ≡ self.now.calls }
    {
        self.calls.items()
    }

    /// Makes a step. `body` is the request's text at a start, and isn't looked at otherwise.
    pub fn step(&mut self, h: &Hist, body: &Bytes) -> Result<Told, StepErr>
        requires { IsNamed h.now }
        ensures { Answers (step_of booking_meaning self.old h.now body.now) self.old self.new result }
    {
        match *h {
            Hist::Start(who, number) => self.start(who, number, body),
            Hist::Serve(tier, number) => self.serve(tier, number),
            Hist::Resume(who, number) => self.resume(who, number),
        }
    }

    fn start(&mut self, who: ReqId, number: CallNo, body: &Bytes) -> Result<Told, StepErr>
        requires { IsRequest who }
        ensures { Answers (step_of booking_meaning self.old (Hist.Start who number) body.now) self.old self.new result }
    {
        if u64::from(who.seq) != u64::from(self.clients.last(who.client)) + 1 {
            return Err(StepErr::Illegal { row: 1 });
        }
        if let Some(_) = self.clients.progress(who.client) {
            return Err(StepErr::Illegal { row: 2 });
        }
        match run_stage(self.alloc, &self.service, who, body, 0, None, &self.store)? {
            None => Err(StepErr::Illegal { row: 3 }),
            Some(ran) => self.end(who, body, number, ran),
        }
    }

    fn resume(&mut self, who: ReqId, number: CallNo) -> Result<Told, StepErr>
        requires { IsRequest who }
        ensures { Answers (step_of booking_meaning self.old (Hist.Resume who number) []) self.old self.new result }
    {
        let Some(progress) = self.clients.progress(who.client) else {
            return Err(StepErr::Illegal { row: 5 });
        };
        if progress.seq != who.seq {
            return Err(StepErr::Illegal { row: 5 });
        }
        let Some(&code) = self.served.find(progress.tier, progress.number) else {
            return Err(StepErr::Illegal { row: 6 });
        };
        let body = progress.body.copy()?;
        let answer = Some(u64::from(code));
        match run_stage(
            self.alloc,
            &self.service,
            who,
            &body,
            progress.stage,
            answer,
            &self.store,
        )? {
            None => Err(StepErr::Illegal { row: 5 }),
            Some(ran) => self.end(who, &body, number, ran),
        }
    }

    // A segment of the request ran.
    fn end(&mut self, who: ReqId, body: &Bytes, number: CallNo, ran: Ran) -> Result<Told, StepErr>
        requires { IsRequest who }
        ensures { Answers (ended self.old who body.now number (after self.old.store ran.writes.items) ran.ending) self.old self.new result }
    {
        let Ran { ending, writes } = ran;
        match ending {
            Ending::Reply(text) => self.reply(who, number, text, &writes),
            Ending::Call {
                tier,
                stage,
                body: text,
            } => {
                if number == 0 {
                    return Err(StepErr::Illegal { row: 7 });
                }
                if let Some(_) = self.calls.find(tier, number) {
                    return Err(StepErr::Illegal { row: 8 });
                }
                let progress = Progress {
                    seq: who.seq,
                    body: body.copy()?,
                    stage,
                    tier,
                    number,
                };
                self.call(who, progress, text, &writes)
            }
        }
    }

    // The request has its reply.
    fn reply(
        &mut self,
        who: ReqId,
        number: CallNo,
        text: Bytes,
        writes: &[Write],
    ) -> Result<Told, StepErr>
        requires { IsRequest who }
        ensures { Answers (ended self.old who [] number (after self.old.store writes.now) (ends.Reply text)) self.old self.new result }
    {
        if number != 0 {
            return Err(StepErr::Illegal { row: 7 });
        }
        let kept = text.copy()?;
        self.replies.reserve(1)?;
        let mut undo = UndoList::new(self.alloc);
        self.store.reserve(&mut undo, writes.len())?;
        make(&mut self.store, &mut undo, writes);
        self.clients.set(who.client, who.seq, None);
        self.replies.push((who, kept)).unwrap();
        Ok(Told::Replied(who, text))
    }

    // The request waits for its call, whose number is new.
    fn call(
        &mut self,
        who: ReqId,
        progress: Progress,
        text: Bytes,
        writes: &[Write],
    ) -> Result<Told, StepErr>
        requires client { IsRequest who }
        requires seq { progress.seq ≡ who.seq }
        requires new { found_in self.old.calls progress.tier progress.number ≡ None }
        ensures { Calls self.old self.new who progress (after self.old.store writes.now) text result }
    {
        let tier = progress.tier;
        let number = progress.number;
        let kept = text.copy()?;
        let mut undo = UndoList::new(self.alloc);
        self.store.reserve(&mut undo, writes.len())?;
        self.calls.add(tier, number, kept)?;
        make(&mut self.store, &mut undo, writes);
        self.clients.set(who.client, who.seq, Some(progress));
        Ok(Told::Called(tier, number, text))
    }

    fn serve(&mut self, tier: Tier, number: CallNo) -> Result<Told, StepErr>
        ensures { Answers (step_of booking_meaning self.old (Hist.Serve tier number) []) self.old self.new result }
    {
        let Some(text) = self.calls.find(tier, number) else {
            return Err(StepErr::Illegal { row: 4 });
        };
        if let Some(_) = self.served.find(tier, number) {
            return Err(StepErr::Illegal { row: 4 });
        }
        match tier {
            Tier::Mid => {
                self.served.add(tier, number, 1)?;
                Ok(Told::Answered(tier, number, 1))
            }
            Tier::Inv => answer(&mut self.served, &mut self.inventory, tier, number, text),
            Tier::Pay => answer(&mut self.served, &mut self.payment, tier, number, text),
        }
    }
}

// A backend's replica beside its log.
ghost use Rattle.std.specs.Prelude.{◌≡◌, ℕ, slice_get, OnOk, IfOk, IfSome};
ghost use Rattle.log_model.specs.Log.{LogState};
ghost use Rattle.log_values.specs.declared.any_value.AnyValue.{AnyValue};
ghost use Rattle.log_values.specs.declared.any_value.AnyValue.TheVariants.{Back as InBack};
ghost use Rattle.log_values.specs.declared.back_value.BackValue.TheVariants.{Call};
ghost use Rattle.log_values.specs.Fields.{IsCallNumber};
ghost use Rattle.log_values.specs.Values.{FitsAny, FitsBack};
ghost use Rattle.server_shim.specs.Ranges.{IsCode, IsShimIn};
ghost use Rattle.tier_model.specs.Back.{after_value, value_state};
ghost use Rattle.backend_node.specs.Backends.{AllFit, answer_by, answer_of, back_with, backend_by};

use aeg_base::{Bytes, CallNo, Memory, Pos};
use log_values::{AnyValue, BackValue};
use paxos_log::TierLog;
use server_shim::Shim;
use svc_api::Backend;

/// The backend, and what is kept between the middle nodes and the log: answers, copies of calls, floors.
#[derive(Drop)]
pub struct Serving<B> {
    pub backend: B,
    pub shim: Shim,
}

impl<B: Backend> Serving<B> {
    /// Serves a learned call, unless it was served or is below the floor: its number and its code.
    fn serve(&mut self, no: CallNo, call: &Bytes) -> Result<Option<(CallNo, u8)>, Memory>
        requires number { IsCallNumber no }
        ensures state { (log : LogState AnyValue) → OnOk result (back_with log self.new
            ≡ after_value (backend_by B.opening B.state_after B.code_of) (back_with log self.old) (InBack (Call no call.now))) }
        ensures answer { (log : LogState AnyValue) → IfOk result (λ answer. answer
            ≡ answer_by (backend_by B.opening B.state_after B.code_of) (back_with log self.old) (InBack (Call no call.now))) }
        ensures code { IfOk result (λ answer. IfSome answer IsCode) }
        ensures range { (u : ℕ) → IsShimIn u self.old.shim → OnOk result (IsShimIn u self.new.shim) }
    {
        if self.shim.is_done(no) {
            return Ok(None);
        }
        let code = self.backend.apply(call)?;
        self.shim.served(no, code)?;
        Ok(Some((no, code)))
    }

    /// Takes a learned call or floor.
    fn learn_back(&mut self, value: &BackValue) -> Result<Option<(CallNo, u8)>, Memory>
        requires fits { FitsBack value.now }
        ensures state { (log : LogState AnyValue) → OnOk result (back_with log self.new
            ≡ after_value (backend_by B.opening B.state_after B.code_of) (back_with log self.old) (InBack value.now)) }
        ensures answer { (log : LogState AnyValue) → IfOk result (λ answer. answer
            ≡ answer_by (backend_by B.opening B.state_after B.code_of) (back_with log self.old) (InBack value.now)) }
        ensures code { IfOk result (λ answer. IfSome answer IsCode) }
        ensures range { (u : ℕ) → IsShimIn u self.old.shim → OnOk result (IsShimIn u self.new.shim) }
    {
        match value {
            BackValue::Call { no, body } => self.serve(*no, body),
            BackValue::Settle { floor } => {
                self.shim.settle(*floor);
                Ok(None)
            }
        }
    }

    /// Takes a learned value. A call that is served now is answered: its number and its code.
    fn learn(&mut self, value: &AnyValue) -> Result<Option<(CallNo, u8)>, Memory>
        requires fits { FitsAny value.now }
        ensures state { (log : LogState AnyValue) → OnOk result (back_with log self.new
            ≡ after_value (backend_by B.opening B.state_after B.code_of) (back_with log self.old) value.now) }
        ensures answer { (log : LogState AnyValue) → IfOk result (λ answer. answer
            ≡ answer_by (backend_by B.opening B.state_after B.code_of) (back_with log self.old) value.now) }
        ensures code { IfOk result (λ answer. IfSome answer IsCode) }
        ensures range { (u : ℕ) → IsShimIn u self.old.shim → OnOk result (IsShimIn u self.new.shim) }
    {
        match value {
            AnyValue::Mid(_) => Ok(None),
            AnyValue::Back(value) => self.learn_back(value),
        }
    }

    /// Takes the value that the log learned at the position, if it did.
    pub fn learn_at(
        &mut self,
        log: &TierLog<AnyValue>,
        at: Pos,
    ) -> Result<Option<(CallNo, u8)>, Memory>
        requires fit { AllFit log.now.state }
        ensures state { OnOk result (back_with log.now.state self.new
            ≡ value_state (backend_by B.opening B.state_after B.code_of) (back_with log.now.state self.old) (slice_get log.now.state.learned at)) }
        ensures answer { IfOk result (λ answer. answer
            ≡ answer_of (backend_by B.opening B.state_after B.code_of) (back_with log.now.state self.old) (slice_get log.now.state.learned at)) }
        ensures code { IfOk result (λ answer. IfSome answer IsCode) }
        ensures range { (u : ℕ) → IsShimIn u self.old.shim → OnOk result (IsShimIn u self.new.shim) }
    {
        match log.learned(at) {
            None => Ok(None),
            Some(value) => self.learn(value),
        }
    }
}

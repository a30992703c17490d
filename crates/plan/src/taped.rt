//! The text of a plan as a tape.

ghost use Rattle.std.specs.Prelude.{◌≡◌, ◌≢◌, ◌≤◌, Err, IfErr, IfOk, OnOk, length};
ghost use Rattle.std.specs.Str.{IsUtf8};
ghost use Rattle.volume_model.specs.declared.fault.Fault.TheVariants.{NoMemory};
ghost use Rattle.plan.specs.declared.fault.PlanFault.TheVariants.{Text};
ghost use Rattle.plan.specs.FaultKinds.{kind_of};
ghost use Rattle.plan.specs.Kept.{KeepsValues};
ghost use Rattle.plan.specs.Plan.{plan_data};
ghost use Rattle.plan.specs.PlanText.{IsWithinSize, Reads, plan_of};
ghost use Rattle.plan.specs.Written.{IsCompact, rewritten};
ghost use Rattle.plan.specs.Taped.{HasClaims, Spells};
ghost use Rattle.plan.specs.PutPlans.{rules_in};

use crate::configurations::Plan;
use crate::fault::PlanFault;
use crate::reading::read_plan_at;
use crate::sizes::room_for;
use crate::written::put_plan;
use json::{Error, Scratch, Tape, Writer};
use quorum_expr::{is_readable, readable_root};
use refutation::Certificate;
use std::alloc::{AllocError, Global};
use std::marker::Model;
use volume_model::Fault;

/// The most bytes of a plan's text.
pub const PLAN_BYTES: u32 = 16_777_216;

/// The text of a plan as a tape. The plan is read from it, and written with other certificates.
#[derive(Drop)]
pub struct TapedPlan<'a> {
    text: &'a str,
    tape: Tape<'a>,
}

impl<'a> Model for TapedPlan<'a> {
    ghost use Rattle.std.specs.Prelude.{ℕ, List};
    ghost use Rattle.plan.specs.Taped.{IsTapeOf};

    ghost Value = { List ℕ };

    ghost view = { λ t. t.text.now };

    ghost invariant = { λ t. IsTapeOf t.text.now t.tape };
}

/// Returns the tape of a text that `serde_json` reads.
fn tape_of<'a>(
    alloc: Global,
    text: &'a str,
    scratch: &'a mut Scratch,
) -> Result<TapedPlan<'a>, PlanFault>
    requires utf8 { IsUtf8 text.now }
    requires size { length text.now ≤ 16777216 }
    ensures text { IfOk result (λ taped. taped ≡ text.entry.now) }
    ensures fault { IfErr result (λ fault. fault ≢ Text NoMemory → plan_of text.entry.now ≡ Err fault) }
{
    match Tape::parse(text, scratch, Vec::new(alloc)) {
        Ok(tape) => {
            if !is_readable(&tape) {
                return Err(PlanFault::Text(Fault::Malformed));
            }
            Ok(TapedPlan { text, tape })
        }
        Err(Error::OutOfMemory) => Err(PlanFault::Text(Fault::NoMemory)),
        Err(Error::Invalid) => Err(PlanFault::Text(Fault::Malformed)),
        Err(Error::TooLong | Error::DuplicateKey) => Err(PlanFault::Text(Fault::NoMemory)),
    }
}

impl<'a> TapedPlan<'a> {
    /// Parses a text.
    ///
    /// # Errors
    /// `OverLimit` for a text of more than 16,777,216 bytes, and `Malformed` for one that isn't JSON, nests deeper than
    /// 127, or has a number out of range.
    pub fn parse(
        alloc: Global,
        text: &'a [u8],
        scratch: &'a mut Scratch,
    ) -> Result<TapedPlan<'a>, PlanFault>
        ensures text { IfOk result (λ taped. taped ≡ text.entry.now) }
        ensures fault { IfErr result (λ fault. fault ≢ Text NoMemory → plan_of text.entry.now ≡ Err fault) }
        // A text that is too long never gives `NoMemory`, here and below.
        ensures memory { IfErr result (λ fault. kind_of fault ≡ NoMemory → IsWithinSize text.entry.now) }
        ensures within { OnOk result (IsWithinSize text.entry.now) }
    {
        if text.len() > PLAN_BYTES as usize {
            return Err(PlanFault::Text(Fault::OverLimit));
        }
        match simdutf8::basic::from_utf8(text) {
            Ok(valid) => tape_of(alloc, valid, scratch),
            Err(_) => Err(PlanFault::Text(Fault::Malformed)),
        }
    }

    /// Reads the plan.
    ///
    /// # Errors
    /// The first fault in reading order, as from [`read_plan`](crate::read_plan).
    pub fn plan(&self, alloc: Global) -> Result<Plan, PlanFault>
        ensures { Reads plan_data result (plan_of self.now) }
    {
        let root = readable_root(&self.tape);
        read_plan_at(alloc, &root)
    }

    /// Returns the text as compact JSON with these certificates for the plan's claims, in the claims' order; a claim
    /// without one gets null. All other values are those of the text, with the keys of each object in alphabetical
    /// order.
    ///
    /// # Errors
    /// Fails only if memory runs out.
    pub fn write(
        &self,
        alloc: Global,
        certificates: &[Option<Certificate<Global>>],
    ) -> Result<Vec<u8>, AllocError>
        requires { HasClaims self.now (length certificates.now) }
        ensures written { IfOk result (λ bytes. Spells (rewritten self.now (rules_in certificates.now)) bytes.items) }
        ensures compact { IfOk result (λ bytes. IsCompact bytes.items) }
        // Expressions are kept as they are written in the text.
        ensures kept { IfOk result (λ bytes. KeepsValues self.now bytes.items) }
    {
        let root = readable_root(&self.tape);
        let room = room_for(certificates).saturating_add(self.text.len());
        let mut writer = Writer::new(Vec::with_capacity(alloc, room)?);
        match put_plan(&mut writer, &root, certificates) {
            Some(()) => Ok(writer.into_inner()),
            None => Err(AllocError),
        }
    }
}

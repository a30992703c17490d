//! The texts of a job's files: the plan and the script.

ghost use Rattle.std.specs.Prelude.{◌≡◌, Err, IfErr, IfOk, None, Ok, Some};
ghost use Rattle.std.specs.Arc.{arc_value};
ghost use Rattle.volume_model.specs.Common.{IsCertified};
ghost use Rattle.plan.specs.Common.{checked_model, plan_data, plan_fault, plan_of};
ghost use Rattle.commands.specs.Answer.{IsSaid, unreadable};
ghost use Rattle.commands.specs.Answers.{AnswersOf, BothAnswer, IsBadScript, PlanAnswers, file_of, script_name};
ghost use Rattle.commands.specs.Read.{IsPlanOf, IsRead, IsScriptOf};
ghost use Rattle.commands.specs.Stops.{StopsAtLine, StopsBy, stop_answer};
ghost use Rattle.commands.specs.Streams.{FailsByRead};
ghost use Rattle.commands.specs.Verdict.{text_fault};

use crate::Job;
use crate::fallible::FallibleRead;
use crate::files::{ReadFault, Source};
use crate::reply::Stop;
use drivers::{Script, read_script};
use json::Scratch;
use plan::{CheckedPlan, Plan, TapedPlan, check_plan};
use std::alloc::Global;
use std::sync::Arc;

/// The most bytes read of a file: one more than a plan's text or a script may have.
const FILE_BYTES: u64 = 16_777_217;

/// Returns the stop of a file with this name that can't be read.
fn unreadable(alloc: Global, name: &str) -> Stop
    ensures { IsSaid (unreadable name.now) (stop_answer result) }
{
    match String::from_str(alloc, name) {
        Ok(name) => Stop::Unreadable(name),
        Err(_) => Stop::NoMemory,
    }
}

/// Reads the text of a file.
pub fn contents<R: FallibleRead>(
    alloc: Global,
    name: &str,
    file: &mut Source<R>,
) -> Result<Vec<u8>, Stop>
    ensures read { IfOk result (λ v. IsRead (file_of R.remaining name.now file.old file.new)
        (λ text. v.items ≡ text)) }
    ensures stop { IfErr result (λ stop. AnswersOf (file_of R.remaining name.now file.old file.new)
        (λ _ _. ⊥) (stop_answer stop)) }
    ensures reason { FailsByRead R.answers file.old file.new }
{
    match file.read_all(alloc, FILE_BYTES) {
        Ok(bytes) => Ok(bytes),
        Err(ReadFault::Unreadable) => Err(unreadable(alloc, name)),
        Err(ReadFault::NoMemory) => Err(Stop::NoMemory),
    }
}

/// Parses the text of a plan.
pub fn taped<'a>(
    alloc: Global,
    text: &'a [u8],
    scratch: &'a mut Scratch,
) -> Result<TapedPlan<'a>, Stop>
    ensures text { IfOk result (λ taped. taped ≡ text.entry.now) }
    ensures stop { IfErr result (StopsBy (λ fault. plan_of text.entry.now ≡ Err fault)) }
{
    match TapedPlan::parse(alloc, text, scratch) {
        Ok(taped) => Ok(taped),
        Err(fault) => Err(Stop::of_plan(fault)),
    }
}

/// Reads the plan of a tape.
pub fn plan_of_tape(alloc: Global, text: &TapedPlan<'_>) -> Result<Plan, Stop>
    ensures plan { IfOk result (λ plan. plan_of text.now ≡ Ok (plan_data plan)) }
    ensures stop { IfErr result (StopsBy (λ fault. plan_of text.now ≡ Err fault)) }
{
    match text.plan(alloc) {
        Ok(plan) => Ok(plan),
        Err(fault) => Err(Stop::of_plan(fault)),
    }
}

/// Reads the plan of a text.
pub fn plan_in(alloc: Global, text: &[u8]) -> Result<Plan, Stop>
    ensures plan { IfOk result (λ plan. plan_of text.now ≡ Ok (plan_data plan)) }
    ensures stop { IfErr result (StopsBy (λ fault. plan_of text.now ≡ Err fault)) }
{
    let mut scratch = Scratch::new(alloc);
    match taped(alloc, text, &mut scratch) {
        Ok(taped) => plan_of_tape(alloc, &taped),
        Err(stop) => Err(stop),
    }
}

/// Checks a plan.
pub fn checked_plan(alloc: Global, plan: Plan) -> Result<CheckedPlan, Stop>
    ensures plan { IfOk result (λ checked. checked.plan ≡ plan) }
    ensures faultless { IfOk result (λ checked. plan_fault (plan_data plan) ≡ None) }
    ensures certified { IfOk result (λ checked. IsCertified (checked_model checked)) }
    ensures stop { IfErr result (StopsBy (λ fault. plan_fault (plan_data plan) ≡ Some fault)) }
{
    match check_plan(alloc, plan) {
        Ok(plan) => {
            plan.certified();
            Ok(plan)
        }
        Err(refused) => Err(Stop::of_plan(refused.0)),
    }
}

/// Reads and checks the plan of a text.
fn checked_text(alloc: Global, text: &[u8]) -> Result<CheckedPlan, Stop>
    ensures plan { IfOk result (IsPlanOf text.now) }
    ensures stop { IfErr result (StopsBy (λ fault. text_fault text.now ≡ Some fault)) }
{
    let plan = plan_in(alloc, text)?;
    checked_plan(alloc, plan)
}

/// Reads and checks the plan of a file.
pub fn checked<P: FallibleRead>(
    alloc: Global,
    name: &str,
    plan: &mut Source<P>,
) -> Result<CheckedPlan, Stop>
    ensures plan { IfOk result (λ checked. IsRead (file_of P.remaining name.now plan.old plan.new)
        (λ text. IsPlanOf text checked)) }
    ensures stop { IfErr result (λ stop. AnswersOf (file_of P.remaining name.now plan.old plan.new)
        (λ text. PlanAnswers text (λ _ _. ⊥)) (stop_answer stop)) }
    ensures reason { FailsByRead P.answers plan.old plan.new }
{
    let text = contents(alloc, name, plan)?;
    checked_text(alloc, text.as_slice())
}

/// Reads the script of a text.
fn script_in(alloc: Global, text: &[u8]) -> Result<Script, Stop>
    ensures script { IfOk result (IsScriptOf text.now) }
    ensures stop { IfErr result (StopsAtLine text.now) }
{
    match read_script(alloc, text) {
        Ok(script) => Ok(script),
        Err(fault) => Err(Stop::of_script(fault)),
    }
}

/// Reads the script of a file.
fn script_of<S: FallibleRead>(
    alloc: Global,
    name: &str,
    script: &mut Source<S>,
) -> Result<Script, Stop>
    ensures script { IfOk result (λ read. IsRead (file_of S.remaining name.now script.old script.new)
        (λ text. IsScriptOf text read)) }
    ensures stop { IfErr result (λ stop. AnswersOf (file_of S.remaining name.now script.old script.new)
        IsBadScript (stop_answer stop)) }
    ensures reason { FailsByRead S.answers script.old script.new }
{
    let text = contents(alloc, name, script)?;
    script_in(alloc, text.as_slice())
}

/// A checked plan, and a script to run over it.
#[derive(Drop)]
pub struct PlanAndScript {
    pub plan: Arc<CheckedPlan>,
    pub script: Script,
}

/// Returns the name of the script's file, empty if the job has none.
fn script_name<'a>(job: &Job<'a>) -> &'a str
    ensures { result.now ≡ script_name job.now }
{
    match job.script {
        Some(name) => name,
        None => "",
    }
}

/// Reads the script of a job's file, beside its plan.
fn with_script<S: FallibleRead>(
    alloc: Global,
    plan: CheckedPlan,
    job: &Job<'_>,
    script: &mut Source<S>,
) -> Result<PlanAndScript, Stop>
    ensures plan { IfOk result (λ both. arc_value both.plan ≡ plan) }
    ensures script { IfOk result (λ both. IsRead (file_of S.remaining (script_name job.now) script.old script.new)
        (λ text. IsScriptOf text both.script)) }
    ensures stop { IfErr result (λ stop. AnswersOf (file_of S.remaining (script_name job.now) script.old script.new)
        IsBadScript (stop_answer stop)) }
    ensures reason { FailsByRead S.answers script.old script.new }
{
    let plan = Arc::new(alloc, plan)?;
    let script = script_of(alloc, script_name(job), script)?;
    Ok(PlanAndScript { plan, script })
}

/// Reads and checks the plan of a job's file, then reads the script of the other.
pub fn plan_and_script<P: FallibleRead, S: FallibleRead>(
    alloc: Global,
    job: &Job<'_>,
    plan: &mut Source<P>,
    script: &mut Source<S>,
) -> Result<PlanAndScript, Stop>
    ensures plan { IfOk result (λ both. IsRead (file_of P.remaining job.now.plan.now plan.old plan.new)
        (λ text. IsPlanOf text (arc_value both.plan))) }
    ensures script { IfOk result (λ both. IsRead (file_of S.remaining (script_name job.now) script.old script.new)
        (λ text. IsScriptOf text both.script)) }
    ensures stop { IfErr result (λ stop. AnswersOf (file_of P.remaining job.now.plan.now plan.old plan.new)
        (BothAnswer (λ _ _ _ _. ⊥) (file_of S.remaining (script_name job.now) script.old script.new))
        (stop_answer stop)) }
    ensures plan_read { FailsByRead P.answers plan.old plan.new }
    ensures script_read { FailsByRead S.answers script.old script.new }
{
    match checked(alloc, job.plan, plan) {
        Ok(plan) => with_script(alloc, plan, job, script),
        Err(stop) => Err(stop),
    }
}

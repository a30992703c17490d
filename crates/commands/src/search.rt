//! The search for the certificates of a plan's claims.

ghost use Rattle.std.specs.Prelude.{◌≡◌, ◌<◌, ◌≤◌, ◌++◌, Err, IfErr, IfOk, None, Ok, OnOk, is_none, length, map, option_map, replicate, string_bytes};
ghost use Rattle.std.specs.List.{list_any};
ghost use Rattle.refutation.specs.Common.{certificate_rule};
ghost use Rattle.plan.specs.Common.{all_lent, lent_placed, plan_data, claims_in, HasClaims};
ghost use Rattle.cert_search.specs.Answers.{rule_in, AreAnswersOf};
ghost use Rattle.commands.specs.Answers.{AnswersOf, file_of};
ghost use Rattle.commands.specs.Searched.{AreFitted, IsLineWith, IsRoom, SearchesTo, PrintsSearch, claims_of};
ghost use Rattle.commands.specs.Stops.{StopsBy, answer_of};
ghost use Rattle.commands.specs.Streams.{FailsByRead};
ghost use Rattle.commands.specs.Unfound.{claim_line, unfound_line, unfound_lines};
ghost use Rattle.commands.specs.declared.reply.Stop.TheVariants.{NoMemory};

use crate::Job;
use crate::fallible::FallibleRead;
use crate::files::Source;
use crate::inputs::{contents, plan_of_tape, taped};
use crate::reply::{Reply, Stop};
use cert_search::{NoGate, keep_shortest, search_all};
use json::Scratch;
use plan::{ClaimRef, PLAN_BYTES, Plan, TapedPlan, claim_name, lent_claims, shown_claims_certify};
use refutation::Certificate;
use std::alloc::{AllocError, Global};
use std::mem::forget;
use std::sync::Wait;
use std::thread::Threads;

/// The budget of a claim: the most nodes that are tried.
const BUDGET: u64 = 100_000;

/// Returns the claims of a plan.
fn claims_of<'p>(alloc: Global, plan: &'p Plan) -> Result<Vec<ClaimRef<'p>>, Stop>
    ensures claims { IfOk result (λ v. claims_in (plan_data plan.entry.now) ≡ Ok (all_lent v.items)) }
    ensures stop { IfErr result (StopsBy (λ fault. claims_in (plan_data plan.entry.now) ≡ Err fault)) }
{
    match lent_claims(alloc, plan) {
        Ok(claims) => Ok(claims),
        Err(fault) => Err(Stop::of_plan(fault)),
    }
}

/// Searches the claims of a plan that has them; fails only with `NoMemory`.
fn answers<H: Threads + Wait + Sync>(
    rt: &H,
    alloc: Global,
    plan: &Plan,
    workers: u8,
) -> Result<Vec<Option<Certificate<Global>>>, Stop>
    requires { (0 < workers) × (workers ≤ 16) }
    ensures answers { IfOk result (λ v. AreAnswersOf 100000 (claims_in (plan_data plan.now)) (map rule_in v.items)) }
    ensures stop { IfErr result (λ stop. stop ≡ NoMemory) }
{
    match search_all(rt, alloc, plan, usize::from(workers), BUDGET, &NoGate) {
        Ok(answers) => Ok(answers),
        Err(_) => Err(Stop::NoMemory),
    }
}

/// Writes a text's plan with these certificates as a line.
fn plan_line(
    alloc: Global,
    text: &TapedPlan<'_>,
    certificates: &[Option<Certificate<Global>>],
) -> Result<Vec<u8>, Stop>
    requires { HasClaims text.now (length certificates.now) }
    ensures line { IfOk result (λ line. IsLineWith text.now (map rule_in certificates.now) line.items) }
    ensures stop { IfErr result (λ stop. stop ≡ NoMemory) }
{
    match text.write(alloc, certificates) {
        Ok(mut line) => {
            line.push(b'\n')?;
            Ok(line)
        }
        Err(_) => Err(Stop::NoMemory),
    }
}

/// Makes `places` places without a certificate.
fn nothing(alloc: Global, places: usize) -> Result<Vec<Option<Certificate<Global>>>, AllocError>
    ensures { IfOk result (λ v. v.items ≡ replicate places None) }
{
    let mut certificates = Vec::with_capacity(alloc, places)?;
    for _ in 0..places {
        certificates.push(None)?;
    }
    Ok(certificates)
}

/// Returns the bytes that the line of a text's plan without certificates leaves for them.
fn room_beside(alloc: Global, text: &TapedPlan<'_>, places: usize) -> Result<u32, Stop>
    requires { HasClaims text.now places }
    ensures room { IfOk result (IsRoom text.now places) }
    ensures stop { IfErr result (λ stop. stop ≡ NoMemory) }
{
    let certificates = nothing(alloc, places)?;
    let line = plan_line(alloc, text, &certificates)?;
    Ok((PLAN_BYTES as usize).saturating_sub(line.len()) as u32)
}

/// Writes a text's plan with these certificates as a line, or with the shortest of them if the line would be too
/// long.
fn fitting_line(
    alloc: Global,
    text: &TapedPlan<'_>,
    certificates: &mut Vec<Option<Certificate<Global>>>,
) -> Result<Vec<u8>, Stop>
    requires { HasClaims text.now (length certificates.old.items) }
    ensures line { IfOk result (λ line. IsLineWith text.now (map rule_in certificates.new.items) line.items) }
    ensures fitted { IfOk result (λ _. AreFitted text.now (map rule_in certificates.old.items)
        (map rule_in certificates.new.items)) }
    ensures stop { IfErr result (λ stop. stop ≡ NoMemory) }
{
    let line = plan_line(alloc, text, certificates)?;
    if line.len() <= PLAN_BYTES as usize {
        return Ok(line);
    }
    drop(line);
    let room = room_beside(alloc, text, certificates.len())?;
    match keep_shortest(alloc, certificates, room) {
        Ok(()) => plan_line(alloc, text, certificates),
        Err(_) => Err(Stop::NoMemory),
    }
}

/// Appends the line of a claim without a certificate.
fn add_claim(text: &mut String, claim: &ClaimRef<'_>) -> Result<(), AllocError>
    ensures { OnOk result (string_bytes text.new ≡ string_bytes text.old ++ claim_line (lent_placed claim.now)) }
{
    let group = claim.group;
    let configuration = claim.configuration;
    let name = claim_name(claim.parent.is_some());
    write!(
        text,
        "unfound: group {group} configuration {configuration} {name}\n"
    )
}

/// Appends the line of a claim if it has no certificate.
fn add_unfound(
    text: &mut String,
    claim: &ClaimRef<'_>,
    certificate: &Option<Certificate<Global>>,
) -> Result<(), AllocError>
    ensures { OnOk result (string_bytes text.new ≡ string_bytes text.old ++ unfound_line (lent_placed claim.now)
        (option_map certificate_rule certificate.now)) }
{
    match certificate {
        None => add_claim(text, claim),
        Some(_) => Ok(()),
    }
}

/// Returns a line for each claim without a certificate.
fn unfound(
    alloc: Global,
    claims: &[ClaimRef<'_>],
    certificates: &[Option<Certificate<Global>>],
) -> Result<String, AllocError>
    ensures { IfOk result (λ text. string_bytes text ≡ unfound_lines (all_lent claims.now)
        (map (option_map certificate_rule) certificates.now)) }
{
    let mut text = String::new(alloc);
    let mut left = certificates;
    for claim in claims {
        let Some((certificate, later)) = left.split_first() else {
            break;
        };
        add_unfound(&mut text, claim, certificate)?;
        left = later;
    }
    Ok(text)
}

/// Returns whether a claim has no certificate.
fn has_gap(certificates: &[Option<Certificate<Global>>]) -> bool
    ensures { result ≡ list_any (λ certificate. is_none certificate) certificates.now }
{
    certificates.iter().any(|certificate| certificate.is_none())
}

/// Returns the answer of a search over the plan of a tape.
fn searched_tape<H: Threads + Wait + Sync>(
    rt: &H,
    alloc: Global,
    text: &TapedPlan<'_>,
    workers: u8,
) -> Result<Reply, Stop>
    requires { (0 < workers) × (workers ≤ 16) }
    ensures reported { IfOk result (λ reply. PrintsSearch text.now reply.status reply.out.items reply.err.items) }
    ensures stop { IfErr result (StopsBy (λ fault. claims_of text.now ≡ Err fault)) }
{
    shown_claims_certify();
    let plan = plan_of_tape(alloc, text)?;
    let claims = claims_of(alloc, &plan)?;
    let mut certificates = answers(rt, alloc, &plan, workers)?;
    let line = fitting_line(alloc, text, &mut certificates)?;
    let unfound = unfound(alloc, &claims, &certificates)?;
    let status = u8::from(has_gap(&certificates));
    forget(certificates);
    forget(claims);
    forget(plan);
    Ok(Reply {
        status,
        out: line,
        err: unfound.into_bytes(),
    })
}

/// Returns the answer of a search over a text's plan.
fn searched<H: Threads + Wait + Sync>(
    rt: &H,
    alloc: Global,
    text: &[u8],
    workers: u8,
) -> Result<Reply, Stop>
    requires { (0 < workers) × (workers ≤ 16) }
    ensures reported { IfOk result (λ reply. PrintsSearch text.now reply.status reply.out.items reply.err.items) }
    ensures stop { IfErr result (StopsBy (λ fault. claims_of text.now ≡ Err fault)) }
{
    let mut scratch = Scratch::new(alloc);
    match taped(alloc, text, &mut scratch) {
        Ok(text) => searched_tape(rt, alloc, &text, workers),
        Err(stop) => Err(stop),
    }
}

/// Returns the answer of `search`.
pub fn search<H: Threads + Wait + Sync, P: FallibleRead>(
    rt: &H,
    alloc: Global,
    job: &Job<'_>,
    plan: &mut Source<P>,
) -> Result<Reply, Stop>
    ensures answers { AnswersOf (file_of P.remaining job.now.plan.now plan.old plan.new) SearchesTo
        (answer_of result) }
    ensures reason { FailsByRead P.answers plan.old plan.new }
{
    let text = contents(alloc, job.plan, plan)?;
    searched(rt, alloc, text.as_slice(), job.workers)
}

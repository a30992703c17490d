//! Searches for all certificates of a plan, with several workers.

ghost use Rattle.std.specs.Prelude.{◌≡◌, ◌≢◌, ◌<◌, ◌≤◌, All, Err, IfOk, IfErr, IsOk, length, map};
ghost use Rattle.volume_model.specs.declared.fault.Fault.TheVariants.{NoMemory};
ghost use Rattle.plan.specs.Common.{all_lent, plan_data, claims_in, kind_of};
ghost use Rattle.plan.specs.declared.fault.PlanFault.{PlanFault};
ghost use Rattle.cert_search.specs.Answers.{rule_in, AreAnswers, AreAnswersOf};
ghost use Rattle.cert_search.specs.Settled.{AllHad, AreOfOneDeal};
ghost use Rattle.cert_search.specs.Places.{ArePlaces, AreWorked, IsFound, IsWork, IsWorked};

use crate::dealing::deal;
use crate::filling::{Answer, empty_places, fill_all, take_out};
use crate::gate::Gate;
use crate::hand::Hand;
use crate::one::search_shared;
use crate::taking_back::settle;
use crate::useful_workers::useful_workers;
use crate::working::{Found, Worked, work};
use plan::{ClaimRef, Plan, lent_claims};
use refutation::Certificate;
use std::alloc::{AllocError, Global};
use std::sync::Wait;
use std::thread;
use std::thread::Threads;
use volume_model::Fault;

/// Returns the answer at a claim's place. Searches the claim if the place is empty.
fn answer(
    alloc: Global,
    claims: &[ClaimRef<'_>],
    budget: u64,
    places: &mut Vec<Option<Answer>>,
    at: usize,
) -> Result<Answer, Fault>
    requires at { at < length claims.now }
    requires places { ArePlaces budget (all_lent claims.now) places.old.items }
    ensures places { ArePlaces budget (all_lent claims.now) places.new.items }
    ensures answer { IfOk result (λ answer. IsFound budget (all_lent claims.now)
        (record { claim = at; answer = answer })) }
    ensures memory { IfErr result (λ e. e ≡ NoMemory) }
{
    match take_out(places, at) {
        Some(answer) => Ok(answer),
        None => search_shared(alloc, &claims[at].claim_in(alloc)?, budget, claims.len()),
    }
}

/// Returns the answers at all places. Searches the claims of empty ones.
fn answers(
    alloc: Global,
    claims: &[ClaimRef<'_>],
    budget: u64,
    places: &mut Vec<Option<Answer>>,
) -> Result<Vec<Answer>, Fault>
    requires { ArePlaces budget (all_lent claims.now) places.old.items }
    ensures answers { IfOk result (λ v. AreAnswers budget (all_lent claims.now) (map rule_in v.items)) }
    ensures memory { IfErr result (λ e. e ≡ NoMemory) }
{
    let mut answers = Vec::with_capacity(alloc, claims.len())?;
    for at in 0..claims.len() {
        answers.push(answer(alloc, claims, budget, places, at)?)?;
    }
    Ok(answers)
}

/// Runs the workers. Each gets its own thread if one can be started.
fn worked_by<R: Threads + Wait + Sync, G: Gate + Sync>(
    rt: &R,
    alloc: Global,
    claims: &[ClaimRef<'_>],
    hands: Vec<Hand>,
    budget: u64,
    gate: &G,
) -> Result<Vec<Worked>, AllocError>
    ensures { IfOk result (λ v. AreWorked budget (all_lent claims.now) hands.items v.items) }
{
    thread::map_vec(
        rt,
        hands,
        &|hand: Hand| -> Worked
            ensures { IsWorked budget (all_lent claims.entry.now) hand result }
        { work(rt, alloc, claims, budget, gate, hand) },
    )
}

/// Splits the workers' results into their answers and their hands.
fn parts_of(alloc: Global, works: Vec<Worked>) -> Result<(Vec<Vec<Found>>, Vec<Hand>), AllocError>
    ensures { IfOk result (λ p. (p.0.items ≡ map (λ w. w.founds) works.items)
        × (p.1.items ≡ map (λ w. w.hand) works.items)) }
{
    let mut found = Vec::new(alloc);
    let mut hands = Vec::new(alloc);
    for worked in works {
        found.push(worked.founds)?;
        hands.push(worked.hand)?;
    }
    Ok((found, hands))
}

/// Runs the workers over the claims dealt to them. At the end each claim was taken by exactly one of them.
fn found_by<R: Threads + Wait + Sync, G: Gate + Sync>(
    rt: &R,
    alloc: Global,
    claims: &[ClaimRef<'_>],
    hands: Vec<Hand>,
    budget: u64,
    gate: &G,
) -> Result<Vec<Vec<Found>>, Fault>
    requires dealt { AreOfOneDeal hands.items }
    ensures found { IfOk result (λ v. All (IsWork budget (all_lent claims.now)) v.items) }
    ensures had { IfOk result (λ _. AllHad hands.items) }
    ensures memory { IfErr result (λ e. e ≡ NoMemory) }
{
    let works = worked_by(rt, alloc, claims, hands, budget, gate)?;
    let (found, ended) = parts_of(alloc, works)?;
    settle(alloc, ended)?;
    Ok(found)
}

/// Searches claims with `workers` workers.
fn searched<R: Threads + Wait + Sync, G: Gate + Sync>(
    rt: &R,
    alloc: Global,
    claims: &[ClaimRef<'_>],
    workers: usize,
    budget: u64,
    gate: &G,
) -> Result<Vec<Answer>, Fault>
    requires workers { (0 < workers) × (workers ≤ 16) }
    ensures answers { IfOk result (λ v. AreAnswers budget (all_lent claims.now) (map rule_in v.items)) }
    ensures memory { IfErr result (λ e. e ≡ NoMemory) }
{
    let mut places = empty_places(alloc, claims)?;
    let hands = deal(alloc, claims.len(), workers)?;
    let found = found_by(rt, alloc, claims, hands, budget, gate)?;
    fill_all(found, &mut places);
    answers(alloc, claims, budget, &mut places)
}

/// Returns an answer for each claim of a plan, in the order of [`claims`](plan::claims()): a certificate that refutes
/// the claim, or `None` if the search gave up. `budget` bounds the nodes that are tried for one claim; all claims
/// together share another bound.
///
/// # Errors
/// The kind of the first [`BadParent`](plan::PlanFault::BadParent) or [`MemberReused`](plan::PlanFault::MemberReused),
/// before anything is allocated; else [`NoMemory`](Fault::NoMemory) if memory runs out, once all workers have ended.
pub fn search_all<R: Threads + Wait + Sync, G: Gate + Sync>(
    rt: &R,
    alloc: Global,
    plan: &Plan,
    workers: usize,
    budget: u64,
    gate: &G,
) -> Result<Vec<Option<Certificate<Global>>>, Fault>
    requires workers { (0 < workers) × (workers ≤ 16) }
    ensures answers { IfOk result (λ v. AreAnswersOf budget (claims_in (plan_data plan.now)) (map rule_in v.items)) }
    ensures fault { IfErr result (λ e. e ≢ NoMemory → (fault : PlanFault) × (claims_in (plan_data plan.now) ≡ Err fault)
        × (e ≡ kind_of fault)) }
    ensures memory { IfErr result (λ e. e ≡ NoMemory → IsOk (claims_in (plan_data plan.now))) }
{
    let claims = match lent_claims(alloc, plan) {
        Ok(claims) => claims,
        Err(fault) => return Err(fault.kind()),
    };
    let workers = useful_workers(claims.as_slice(), workers);
    searched(rt, alloc, claims.as_slice(), workers, budget, gate)
}

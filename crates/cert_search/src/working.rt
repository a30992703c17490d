//! The work of one worker.

ghost use Rattle.std.specs.Prelude.{All, IfOk, IfSome};
ghost use Rattle.plan.specs.Common.{all_lent, lent_state};
ghost use Rattle.cert_search.specs.Answers.{rule_in, IsAnswer};
ghost use Rattle.cert_search.specs.Places.{IsFound, IsWorked};

use crate::gate::Gate;
use crate::hand::Hand;
use crate::one::search_in;
use bumpalo::Bump;
use plan::ClaimRef;
use refutation::Certificate;
use std::alloc::Global;
use std::sync::Wait;
use volume_model::Fault;

/// The answer to a claim.
#[derive(Drop)]
pub struct Found {
    pub claim: usize,
    pub answer: Option<Certificate<Global>>,
}

/// A worker's answers, and its hand.
#[derive(Drop)]
pub struct Worked {
    pub founds: Vec<Found>,
    pub hand: Hand,
}

/// Empties the arena, or makes a new one if something in it is still in use.
fn emptied(alloc: Global, mut arena: Bump) -> Bump {
    match arena.reset() {
        Ok(()) => arena,
        Err(_) => Bump::new(alloc),
    }
}

/// Searches one of `claims` claims in an arena.
fn answer_in(
    alloc: Global,
    arena: &Bump,
    lent: &ClaimRef<'_>,
    budget: u64,
    claims: usize,
) -> Result<Option<Certificate<Global>>, Fault>
    ensures { IfOk result (λ answer. IsAnswer budget (lent_state lent.now) (rule_in answer)) }
{
    let claim = lent.claim_in(arena)?;
    search_in(alloc, &arena, &claim, budget, claims)
}

/// Makes the answer to a claim; `None` if memory ran out.
fn found_of(
    alloc: Global,
    arena: &Bump,
    claims: &[ClaimRef<'_>],
    claim: usize,
    budget: u64,
) -> Option<Found>
    ensures { IfSome result (IsFound budget (all_lent claims.now)) }
{
    let lent = claims.get(claim)?;
    let answer = answer_in(alloc, arena, lent, budget, claims.len()).ok()?;
    Some(Found { claim, answer })
}

/// Searches a claim and adds its answer. Adds nothing if memory runs out.
fn add<G: Gate>(
    alloc: Global,
    arena: &Bump,
    claims: &[ClaimRef<'_>],
    claim: usize,
    budget: u64,
    gate: &G,
    founds: &mut Vec<Found>,
)
    requires { All (IsFound budget (all_lent claims.now)) founds.old.items }
    ensures { All (IsFound budget (all_lent claims.now)) founds.new.items }
{
    gate.started(claim);
    let Some(found) = found_of(alloc, arena, claims, claim, budget) else {
        return;
    };
    match founds.push(found) {
        Ok(()) => gate.finished(claim),
        Err(_) => {}
    }
}

/// Searches the claims that a hand takes, in an arena that is emptied after each claim. Leaves out a claim whose search
/// runs out of memory.
pub fn work<R: Wait, G: Gate>(
    rt: &R,
    alloc: Global,
    claims: &[ClaimRef<'_>],
    budget: u64,
    gate: &G,
    mut hand: Hand,
) -> Worked
    ensures { IsWorked budget (all_lent claims.now) hand result }
{
    let mut arena = Bump::new(alloc);
    let mut founds = Vec::new(alloc);
    for _ in rt.forever() {
        let Some(claim) = hand.take(rt) else {
            break;
        };
        add(alloc, &arena, claims, claim, budget, gate, &mut founds);
        arena = emptied(alloc, arena);
    }
    Worked { founds, hand }
}

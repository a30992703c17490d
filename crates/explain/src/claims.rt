//! Decides whether a claim holds, and why it fails.

ghost use Rattle.std.specs.Prelude.{IfOk};
ghost use Rattle.plan.specs.Common.{lent_state};
ghost use Rattle.quorum_checker.specs.Claim.{first_state};
ghost use Rattle.explain.specs.Answers.{IsClaimAnswer};

use crate::facts::{ClaimFacts, ClaimState, Members, WitnessFacts};
use crate::wording::nodes;
use cert_search::search_one;
use plan::ClaimRef;
use quorum_checker::{Claim, Decision, Witness, decide, no_certificate};
use refutation::Certificate;
use std::alloc::Global;
use volume_model::Fault;

/// All cases are tried of at most this many common members of a claim.
const MOST_COMMON: u8 = 12;

/// How many nodes the search tries at most for the certificate of a claim.
const MOST_TRIED: u64 = 100_000;

/// How many nodes the search tries at least: it finds each plain claim with as many.
const LEAST_TRIED: u64 = 100;

/// How many looks at a member or threshold cost as much as a node of the search.
const LOOKS_A_NODE: u64 = 1_000;

/// How often each member and threshold of a claim is looked at before cases are tried or the search begins.
const LEAST_LOOKS: u64 = 100;

/// What is known of a claim.
#[derive(Drop)]
pub enum ClaimAnswer {
    /// Its certificate shows it.
    Certified,
    /// It holds, but no certificate shows it.
    Uncertified,
    /// It fails.
    Fails(Witness),
    /// No certificate shows it, and it isn't known whether it holds.
    Unknown,
}

/// Returns how many members and thresholds the two sides of a claim have.
fn size_of(claim: &ClaimRef<'_>) -> u64 {
    let other = match claim.parent {
        None => nodes(&claim.this.write),
        Some(parent) => nodes(&parent.read),
    };
    nodes(&claim.this.read).saturating_add(other)
}

/// Returns how many common members may have all their cases tried if the two sides have `size` members and thresholds.
/// One more member doubles the work.
fn most_common(size: u64, budget: u64) -> u8 {
    let mut most = 0u8;
    let mut looks = size.saturating_mul(2);
    for number in 0..MOST_COMMON {
        looks = looks.saturating_mul(2);
        if looks <= budget {
            most = number + 1;
        }
    }
    most
}

/// Returns what the search says of a claim with too many common members to try all cases.
fn searched(alloc: Global, claim: &Claim<Global>, budget: u64) -> Result<ClaimAnswer, Fault>
    ensures { IfOk result (IsClaimAnswer (first_state claim.now)) }
{
    let tries = (budget / LOOKS_A_NODE).max(LEAST_TRIED).min(MOST_TRIED);
    match search_one(alloc, claim, tries)? {
        Some(_) => Ok(ClaimAnswer::Uncertified),
        None => Ok(ClaimAnswer::Unknown),
    }
}

/// Returns what is known of a claim that its certificate doesn't show.
fn undecided(alloc: Global, claim: &ClaimRef<'_>, budget: u64) -> Result<ClaimAnswer, Fault>
    ensures { IfOk result (IsClaimAnswer (lent_state claim.now)) }
{
    no_certificate();
    let size = size_of(claim);
    if size.saturating_mul(LEAST_LOOKS) > budget {
        return Ok(ClaimAnswer::Unknown);
    }
    let held = claim.claim_in(alloc)?;
    match decide(alloc, &held, most_common(size, budget))? {
        Decision::Fails(witness) => Ok(ClaimAnswer::Fails(witness)),
        Decision::Holds(_) => Ok(ClaimAnswer::Uncertified),
        Decision::Unknown => searched(alloc, &held, budget),
    }
}

/// Decides a claim with this certificate. `budget` bounds how many members and thresholds are looked at if the
/// certificate doesn't show the claim.
///
/// # Errors
/// [`NoMemory`](Fault::NoMemory) if memory runs out.
pub fn answer_claim(
    alloc: Global,
    claim: &ClaimRef<'_>,
    certificate: Option<&Certificate<Global>>,
    budget: u64,
) -> Result<ClaimAnswer, Fault>
    ensures { IfOk result (IsClaimAnswer (lent_state claim.now)) }
{
    let Some(certificate) = certificate else {
        return undecided(alloc, claim, budget);
    };
    match claim.check(alloc, certificate) {
        Ok(()) => Ok(ClaimAnswer::Certified),
        Err(_) => undecided(alloc, claim, budget),
    }
}

/// Returns the facts to print about a claim.
pub(crate) fn claim_facts(answer: &ClaimAnswer) -> ClaimFacts {
    let (state, witness) = match answer {
        ClaimAnswer::Certified => (ClaimState::Certified, None),
        ClaimAnswer::Uncertified => (ClaimState::Holds, None),
        ClaimAnswer::Fails(witness) => {
            let (read, other) = (Members(witness.left), Members(witness.right));
            (ClaimState::Fails, Some(WitnessFacts { read, other }))
        }
        ClaimAnswer::Unknown => (ClaimState::Unknown, None),
    };
    ClaimFacts { state, witness }
}

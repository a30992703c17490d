//! Collects the answers to claims by their numbers.

ghost use Rattle.std.specs.Prelude.{ℕ, ◌<◌, All, IfOk, IfSome, List, length};
ghost use Rattle.plan.specs.Common.{all_lent, PlacedClaim};
ghost use Rattle.cert_search.specs.Places.{ArePlaces, IsFound, IsWork};

use crate::working::Found;
use plan::ClaimRef;
use refutation::Certificate;
use std::alloc::{AllocError, Global};

/// The answer to a claim: a certificate, or `None` if the search gave up.
pub type Answer = Option<Certificate<Global>>;

/// Makes an empty place for each claim.
pub fn empty_places(
    alloc: Global,
    claims: &[ClaimRef<'_>],
) -> Result<Vec<Option<Answer>>, AllocError>
    ensures { IfOk result (λ v. (budget : ℕ) → ArePlaces budget (all_lent claims.now) v.items) }
{
    let mut places = Vec::with_capacity(alloc, claims.len())?;
    for _ in claims {
        places.push(None)?;
    }
    Ok(places)
}

/// Puts an answer into its place.
fn fill(found: Found, places: &mut Vec<Option<Answer>>)
    ensures { (budget : ℕ) (claims : List PlacedClaim) → IsFound budget claims found → ArePlaces budget claims
        places.old.items → ArePlaces budget claims places.new.items }
{
    if found.claim < places.len() {
        places[found.claim] = Some(found.answer);
    }
}

/// Puts a worker's answers into their places.
fn fill_each(mut founds: Vec<Found>, places: &mut Vec<Option<Answer>>)
    ensures { (budget : ℕ) (claims : List PlacedClaim) → IsWork budget claims founds → ArePlaces budget claims
        places.old.items → ArePlaces budget claims places.new.items }
{
    while let Some(found) = founds.pop() {
        fill(found, places);
    }
}

/// Puts all workers' answers into their places.
pub fn fill_all(mut found: Vec<Vec<Found>>, places: &mut Vec<Option<Answer>>)
    ensures { (budget : ℕ) (claims : List PlacedClaim) → All (IsWork budget claims) found.items → ArePlaces budget
        claims places.old.items → ArePlaces budget claims places.new.items }
{
    while let Some(founds) = found.pop() {
        fill_each(founds, places);
    }
}

/// Takes the answer out of a place.
pub fn take_out(places: &mut Vec<Option<Answer>>, at: usize) -> Option<Answer>
    requires at { at < length places.old.items }
    ensures places { (budget : ℕ) (claims : List PlacedClaim) → ArePlaces budget claims places.old.items
        → ArePlaces budget claims places.new.items }
    ensures answer { (budget : ℕ) (claims : List PlacedClaim) → ArePlaces budget claims places.old.items → IfSome result
        (λ answer. IsFound budget claims (record { claim = at; answer = answer })) }
{
    places[at].take()
}

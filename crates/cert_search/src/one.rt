//! Searches for one claim's certificate.

ghost use Rattle.std.specs.Prelude.{◌≡◌, true, IfOk, IfErr, IfSome, IsSome};
ghost use Rattle.volume_model.specs.declared.fault.Fault.TheVariants.{NoMemory};
ghost use Rattle.refutation.specs.Common.{certificate_rule, is_certificate, rule_of};
ghost use Rattle.quorum_checker.specs.Claim.{first_state};
ghost use Rattle.quorum_checker.specs.Refutes.{Refutes};
ghost use Rattle.cert_search.specs.Answers.{rule_in, IsAnswer};
ghost use Rattle.cert_search.specs.Plain.{IsPlain};

use crate::plain::plain_tree;
use crate::tree_search::{Tree, find_tree};
use bumpalo::Bump;
use quorum_checker::{Claim, check, children};
use quorum_expr::Expr;
use refutation::{Certificate, Refutation};
use std::alloc::{Allocator, Global};
use volume_model::Fault;

/// With a budget of this many nodes or more each plain claim is found: its tree has at most as many.
const PLAIN_NODES: u64 = 100;

/// The number of nodes that the searches of all claims may try together.
const ALL_NODES: u64 = 1_200_000;

/// Returns the number of nodes that the search of one of `claims` claims may try: at most `budget`, and its share of
/// all.
fn share(budget: u64, claims: usize) -> u64 {
    let claims = (claims as u64).max(1);
    budget.min(ALL_NODES / claims)
}

/// Returns the certificate if it refutes the claim.
fn checked<A: Allocator>(
    alloc: Global,
    claim: &Claim<A>,
    certificate: Certificate<Global>,
) -> Result<Option<Certificate<Global>>, Fault>
    ensures refutes { IfOk result
        (λ answer. IfSome answer (λ c. Refutes (certificate_rule c) (first_state claim.now))) }
    ensures found { Refutes (certificate_rule certificate) (first_state claim.now) → IfOk result
        (λ answer. IsSome answer) }
    ensures memory { IfErr result (λ e. e ≡ NoMemory) }
{
    match check(alloc, claim, &certificate) {
        Ok(()) => Ok(Some(certificate)),
        Err(at) if at.fault == Fault::NoMemory => Err(Fault::NoMemory),
        Err(_) => Ok(None),
    }
}

/// Returns the certificate of a tree if it refutes the claim.
pub fn certified<A: Allocator>(
    alloc: Global,
    claim: &Claim<A>,
    tree: Refutation<Global>,
) -> Result<Option<Certificate<Global>>, Fault>
    ensures refutes { IfOk result
        (λ answer. IfSome answer (λ c. Refutes (certificate_rule c) (first_state claim.now))) }
    ensures found { is_certificate (rule_of tree) ≡ true → Refutes (rule_of tree) (first_state claim.now) → IfOk result
        (λ answer. IsSome answer) }
    ensures memory { IfErr result (λ e. e ≡ NoMemory) }
{
    let Ok(certificate) = Certificate::new(tree) else {
        return Ok(None);
    };
    checked(alloc, claim, certificate)
}

/// Returns the certificate of a copy of a tree if it refutes the claim.
pub fn copy_certified<A: Allocator, B: Allocator>(
    alloc: Global,
    claim: &Claim<A>,
    tree: Refutation<B>,
) -> Result<Option<Certificate<Global>>, Fault>
    ensures refutes { IfOk result
        (λ answer. IfSome answer (λ c. Refutes (certificate_rule c) (first_state claim.now))) }
    ensures memory { IfErr result (λ e. e ≡ NoMemory) }
{
    let Ok(certificate) = Certificate::new(tree) else {
        return Ok(None);
    };
    checked(alloc, claim, certificate.copy_in(alloc)?)
}

/// Returns whether both sides begin with a member, as most plain claims do.
fn seems_plain<A: Allocator>(claim: &Claim<A>) -> bool {
    let (left, right) = (children(&claim.left), children(&claim.right));
    match (left.first(), right.first()) {
        (Some((_, Expr::Member(_))), Some((_, Expr::Member(_)))) => true,
        _ => false,
    }
}

/// Returns the certificate of a plain claim.
fn plain<A: Allocator>(
    alloc: Global,
    claim: &Claim<A>,
) -> Result<Option<Certificate<Global>>, Fault>
    ensures refutes { IfOk result
        (λ answer. IfSome answer (λ c. Refutes (certificate_rule c) (first_state claim.now))) }
    ensures found { IsPlain (first_state claim.now) → IfOk result (λ answer. IsSome answer) }
    ensures memory { IfErr result (λ e. e ≡ NoMemory) }
{
    let tree = plain_tree(&alloc, &claim.left, &claim.right)?;
    certified(alloc, claim, tree)
}

/// Returns the certificate of a claim that isn't plain. The arena holds tables, items, and the trees that don't come
/// from closing pairs of subexpressions.
fn unplain<A: Allocator, B: Allocator + Clone>(
    alloc: Global,
    arena: &B,
    claim: &Claim<A>,
    budget: u64,
) -> Result<Option<Certificate<Global>>, Fault>
    ensures refutes { IfOk result
        (λ answer. IfSome answer (λ c. Refutes (certificate_rule c) (first_state claim.now))) }
    ensures memory { IfErr result (λ e. e ≡ NoMemory) }
{
    match find_tree(alloc, arena, claim, budget)? {
        Some(Tree::Kept(tree)) => certified(alloc, claim, tree),
        Some(Tree::InArena(tree)) => copy_certified(alloc, claim, tree),
        None => Ok(None),
    }
}

/// Returns the certificate of one of `claims` claims, or `None` if the search gives up. Tries at most `budget` nodes,
/// and at most the claim's share of all nodes. The tables are in the arena.
///
/// # Errors
/// [`NoMemory`](Fault::NoMemory) if memory runs out.
pub fn search_in<A: Allocator, B: Allocator + Clone>(
    alloc: Global,
    arena: &B,
    claim: &Claim<A>,
    budget: u64,
    claims: usize,
) -> Result<Option<Certificate<Global>>, Fault>
    ensures answer { IfOk result (λ answer. IsAnswer budget (first_state claim.now) (rule_in answer)) }
    ensures memory { IfErr result (λ e. e ≡ NoMemory) }
{
    if PLAIN_NODES <= budget && seems_plain(claim) {
        if let Some(certificate) = plain(alloc, claim)? {
            return Ok(Some(certificate));
        }
    }
    if let Some(certificate) = unplain(alloc, arena, claim, share(budget, claims))? {
        return Ok(Some(certificate));
    }
    if PLAIN_NODES <= budget {
        return plain(alloc, claim);
    }
    Ok(None)
}

/// Does the same as `search_in`, in a new arena.
pub fn search_shared<A: Allocator>(
    alloc: Global,
    claim: &Claim<A>,
    budget: u64,
    claims: usize,
) -> Result<Option<Certificate<Global>>, Fault>
    ensures answer { IfOk result (λ answer. IsAnswer budget (first_state claim.now) (rule_in answer)) }
    ensures memory { IfErr result (λ e. e ≡ NoMemory) }
{
    let arena = Bump::new(alloc);
    search_in(alloc, &&arena, claim, budget, claims)
}

/// Returns a certificate that refutes a claim, or `None` if the search gives up. Tries at most `budget` nodes. A claim
/// that is true because enough members are equal is found with a budget of at least 100.
///
/// # Errors
/// [`NoMemory`](Fault::NoMemory) if memory runs out.
pub fn search_one(
    alloc: Global,
    claim: &Claim<Global>,
    budget: u64,
) -> Result<Option<Certificate<Global>>, Fault>
    ensures answer { IfOk result (λ answer. IsAnswer budget (first_state claim.now) (rule_in answer)) }
    ensures memory { IfErr result (λ e. e ≡ NoMemory) }
{
    search_shared(alloc, claim, budget, 1)
}

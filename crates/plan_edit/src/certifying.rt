//! Finds the certificates of a plan whose new claims have none.

ghost use Rattle.std.specs.Prelude.{◌<◌, ◌≤◌};

use crate::refusal::EditRefusal;
use cert_search::{NoGate, search_all};
use json::Scratch;
use plan::{ClaimRef, TapedPlan, lent_claims};
use refutation::Certificate;
use std::alloc::Global;
use std::sync::Wait;
use std::thread::Threads;
use volume_model::Fault;

/// The most nodes that are tried for a claim.
const BUDGET: u64 = 100_000;

/// Returns a copy of the certificate that the plan has for a claim, if it refutes the claim.
fn own_certificate(
    alloc: Global,
    claim: &ClaimRef<'_>,
) -> Result<Option<Certificate<Global>>, Fault> {
    let own = match claim.parent {
        None => &claim.this.meets,
        Some(_) => &claim.this.step,
    };
    let Some(certificate) = own else {
        return Ok(None);
    };
    match claim.check(alloc, certificate) {
        Ok(()) => Ok(Some(certificate.copy_in(alloc)?)),
        Err(at) if at.fault == Fault::NoMemory => Err(Fault::NoMemory),
        Err(_) => Ok(None),
    }
}

/// Puts the plan's own certificate into the place of each claim for which none was found.
fn keep_own(
    alloc: Global,
    claims: &[ClaimRef<'_>],
    certificates: &mut [Option<Certificate<Global>>],
) -> Result<(), Fault> {
    for (certificate, claim) in certificates.iter_mut().zip(claims) {
        if certificate.is_none() {
            *certificate = own_certificate(alloc, claim)?;
        }
    }
    Ok(())
}

/// Returns the line of a text's plan with the certificates that are found. A claim for which none is found keeps
/// its own.
pub fn certified<H: Threads + Wait + Sync>(
    rt: &H,
    alloc: Global,
    text: &[u8],
    workers: u8,
) -> Result<Vec<u8>, EditRefusal>
    requires { (0 < workers) × (workers ≤ 16) }
{
    let mut scratch = Scratch::new(alloc);
    let text = TapedPlan::parse(alloc, text, &mut scratch)?;
    let plan = text.plan(alloc)?;
    let claims = lent_claims(alloc, &plan)?;
    let mut certificates = search_all(rt, alloc, &plan, usize::from(workers), BUDGET, &NoGate)?;
    keep_own(alloc, &claims, certificates.as_mut_slice())?;
    let mut line = text.write(alloc, &certificates)?;
    line.push(b'\n')?;
    Ok(line)
}

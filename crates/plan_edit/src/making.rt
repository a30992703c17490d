//! Makes a new plan.

ghost use Rattle.std.specs.Prelude.{◌<◌, ◌≤◌, IfOk};
ghost use Rattle.plan_edit.specs.NewPlans.{IsNew};

use crate::certifying::certified;
use crate::new_checking::check_new;
use crate::new_refusal::NewRefusal;
use crate::new_text::plan_text;
use crate::plan_words::PlanWords;
use plan::{lent_claims, read_plan};
use quorum_checker::find_witness;
use std::alloc::Global;
use std::sync::Wait;
use std::thread::Threads;

/// Refuses a plan of which a claim is seen to fail.
///
/// # Errors
/// The first fault of the text; the sets that show that a claim fails.
fn refuse_apart(alloc: Global, text: &[u8]) -> Result<(), NewRefusal> {
    let plan = read_plan(alloc, text)?;
    let claims = lent_claims(alloc, &plan)?;
    for claim in &claims {
        if let Some(witness) = find_witness(&claim.claim_in(alloc)?) {
            return Err(NewRefusal::Apart {
                read: witness.left,
                write: witness.right,
            });
        }
    }
    Ok(())
}

/// Returns a line with the text of a new plan: with the groups, members, LAL and quorums that the words ask for. Each
/// claim has a certificate.
///
/// # Errors
/// `Apart` with two disjoint sets if read sets don't always meet write sets; the first fault of the plan; a claim for
/// which no certificate is found. `NoMemory` if memory runs out.
pub fn new_plan<H: Threads + Wait + Sync>(
    rt: &H,
    alloc: Global,
    words: &PlanWords<'_>,
    workers: u8,
) -> Result<Vec<u8>, NewRefusal>
    requires { (0 < workers) × (workers ≤ 16) }
    ensures { IfOk result (λ line. IsNew words.now line.items) }
{
    let draft = plan_text(alloc, words)?;
    refuse_apart(alloc, draft.as_bytes())?;
    let line = certified(rt, alloc, draft.as_bytes(), workers)?;
    check_new(alloc, words, &line)?;
    Ok(line)
}

//! Deals claims to workers, before any worker starts.
ghost use Rattle.std.specs.Prelude.{◌≡◌, ◌<◌, ◌≤◌, map, vec_len, All, IfOk, IfErr};
ghost use Rattle.volume_model.specs.declared.fault.Fault.TheVariants.{NoMemory};
ghost use Rattle.cert_search.specs.Hands.{hand_plain, hands_from, AreDealt, IsOfDeal, ShareDeques};

use crate::hand::Hand;
use crate::steal_handle::StealHandle;
use crate::table::Table;
use std::alloc::{AllocError, Global};
use volume_model::Fault;

/// Deals claims 0 to `claims - 1` to `workers` workers: claim c goes to the deque of worker `c mod workers`. Returns
/// a hand for each worker, in order. The hands share the deques.
///
/// # Errors
/// [`NoMemory`](Fault::NoMemory) if memory runs out.
pub fn deal(alloc: Global, claims: usize, workers: usize) -> Result<Vec<Hand>, Fault>
    requires some { 0 < workers }
    requires few { workers ≤ 16 }
    ensures count { IfOk result (λ hands. vec_len hands ≡ workers) }
    ensures dealt { IfOk result (λ hands. AreDealt claims workers hands.items) }
    ensures shared { IfOk result (λ hands. ShareDeques workers hands.items) }
    ensures same { IfOk result (λ hands. All (IsOfDeal claims workers) hands.items) }
    ensures fault { IfErr result (λ f. f ≡ NoMemory) }
{
    let mut table = Table::new(alloc, claims, workers)?;
    let rows = table.rows(alloc)?;
    Ok(hands_of(alloc, table, rows)?)
}

// Joins each worker's own deque with its views of the others.
fn hands_of(
    alloc: Global,
    table: Table,
    rows: Vec<Vec<StealHandle>>,
) -> Result<Vec<Hand>, AllocError>
    requires { vec_len rows ≡ table.workers }
    ensures { IfOk result (λ hands. map hand_plain hands.items ≡ hands_from table.owns.items rows.items) }
{
    let mut hands = Vec::new(alloc);
    let mut owners = table.owns.into_iter();
    for others in rows {
        let Some(own) = owners.next() else {
            unreachable!()
        };
        hands.push(Hand::new(own, others))?;
    }
    Ok(hands)
}

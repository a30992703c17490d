//! Attempts of the authority's actions. They aren't entered into the journal yet.

ghost use Rattle.std.specs.Prelude.{false, ◌≡◌, IfErr, IfOk, MatchBool, OnErr, OnOk};
ghost use Rattle.volume_model.specs.declared.fault.Fault.TheVariants.{JournalFull};
ghost use Rattle.wire.specs.Common.{listed, messages_of};
ghost use Rattle.epochs.specs.Authority.{authority_of, authority_plan};
ghost use Rattle.world.specs.Actions.{authority_acted};
ghost use Rattle.node_fleet.specs.Actions.{IsLeft, IsSpent};
ghost use Rattle.node_fleet.specs.Attempts.{IsDone, Judged};

use epochs::Authority;
use std::alloc::Global;
use volume_model::Fault;
use wire::Messages;
use world::AuthorityAction;

/// Returns whether the action assigns a volume epoch beyond the last slot's.
fn is_spent(authority: &Authority, action: AuthorityAction, slots: u32) -> bool
    ensures { MatchBool result (IsSpent action (authority_of authority.now) slots)
        (IsLeft action (authority_of authority.now) slots) }
{
    match action {
        AuthorityAction::Assign => authority.last_volume() == slots,
        AuthorityAction::Advance { .. } => false,
        AuthorityAction::Refresh { .. } => false,
        AuthorityAction::Grow => false,
    }
}

/// Attempts an action of the authority.
///
/// # Errors
/// The authority is unchanged. The first of: the model's refusal; `NoSlot` for an assignment beyond the last slot;
/// `JournalFull` if `full`; `NoMemory` if memory runs out.
pub(crate) fn try_step(
    alloc: Global,
    authority: &mut Authority,
    full: bool,
    action: AuthorityAction,
    slots: u32,
) -> Result<Messages, Fault>
    ensures done { IfOk result
        (λ made. IsDone (authority_acted (authority_plan authority.old) (authority_of authority.old) action)
        (messages_of (listed made)) (authority_of authority.new)) }
    ensures room { OnOk result (full ≡ false) }
    ensures left { OnOk result (IsLeft action (authority_of authority.old) slots) }
    ensures refused { IfErr result (λ fault. Judged (IsSpent action (authority_of authority.old) slots) full
        (authority_acted (authority_plan authority.old) (authority_of authority.old) action) fault) }
    ensures full { IfErr result (λ fault. fault ≡ JournalFull → IsLeft action (authority_of authority.old) slots) }
    ensures still { OnErr result (authority_of authority.new ≡ authority_of authority.old) }
    ensures plan { authority_plan authority.new ≡ authority_plan authority.old }
{
    if let Err(fault) = action.admitted_by(authority) {
        return Err(fault);
    }
    if is_spent(authority, action, slots) {
        return Err(Fault::NoSlot);
    }
    if full {
        return Err(Fault::JournalFull);
    }
    match action.done_by(alloc, authority) {
        Ok(Some(message)) => Ok(Messages::One(message)),
        Ok(None) => Ok(Messages::Empty),
        Err(_) => Err(Fault::NoMemory),
    }
}

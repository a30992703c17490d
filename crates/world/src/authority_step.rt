//! Steps of the authority.

ghost use Rattle.std.specs.Prelude.{◌≡◌, []};
ghost use Rattle.volume_model.specs.Common.{refusal_of, Answers, AnswersAlways, added};
ghost use Rattle.wire.specs.Common.{messages_of};
ghost use Rattle.epochs.specs.Authority.{authority_of, authority_plan};
ghost use Rattle.world.specs.Actions.{authority_acted, spoken, OfAdvance};
ghost use Rattle.world.specs.Moves.{AuthorityMoves};

use crate::actions::AuthorityAction;
use epochs::Authority;
use std::alloc::Global;
use volume_model::Fault;
use wire::Message;

impl AuthorityAction {
    /// Returns the refusal of [`AuthorityAction::done_by`], if any, without acting. Allocates nothing.
    ///
    /// # Errors
    /// `EpochsSpent` if no volume epoch is left to assign; `NoGroup` if there is no such group; `NotInPlan` if the
    /// configuration isn't a child of the group's own; `Superseded` if the client's volume epoch isn't the last one
    /// assigned; `AllGrown` if every group has joined.
    pub fn admitted_by(self, authority: &Authority) -> Result<(), Fault>
        ensures { result ≡ refusal_of (authority_acted (authority_plan authority.now) (authority_of authority.now)
            self) }
    {
        match self {
            AuthorityAction::Assign => authority.admits_assign(),
            AuthorityAction::Advance {
                group,
                configuration,
            } => authority.admits_advance(group, configuration),
            AuthorityAction::Refresh { volume } => authority.admits_refresh(volume),
            AuthorityAction::Grow => authority.admits_grow(),
        }
    }

    /// Performs the action. Returns its message, if it makes one. On error the authority is unchanged.
    ///
    /// # Errors
    /// Those of [`AuthorityAction::admitted_by`]; `NoMemory` if memory runs out, except for `Advance`, which allocates
    /// nothing.
    pub fn done_by(self, alloc: Global, authority: &mut Authority) -> Result<Option<Message>, Fault>
        ensures answers { Answers spoken (authority_acted (authority_plan authority.old) (authority_of authority.old)
            self) (authority_of authority.old) result (authority_of authority.new) }
        ensures always { OfAdvance self (AnswersAlways spoken (authority_acted (authority_plan authority.old)
            (authority_of authority.old) self) (authority_of authority.old) result (authority_of authority.new)) }
        ensures plan { authority_plan authority.new ≡ authority_plan authority.old }
    {
        match self {
            AuthorityAction::Assign => Ok(Some(authority.assign(alloc)?)),
            AuthorityAction::Advance {
                group,
                configuration,
            } => Ok(Some(authority.advance(group, configuration)?)),
            AuthorityAction::Refresh { volume } => Ok(Some(authority.refresh(alloc, volume)?)),
            AuthorityAction::Grow => {
                authority.grow()?;
                Ok(None)
            }
        }
    }
}

/// Performs an action of the authority and appends its message, if it makes one. Reserves room for it first. On error
/// nothing has changed.
pub fn act(
    alloc: Global,
    authority: &mut Authority,
    messages: &mut Vec<Message>,
    action: AuthorityAction,
) -> Result<u64, Fault>
    ensures moves { AuthorityMoves (authority_acted (authority_plan authority.old) (authority_of authority.old) action)
        (authority_of authority.old) (added (messages_of messages.old.items) []) result (authority_of authority.new)
        (added (messages_of messages.new.items) []) }
    ensures plan { authority_plan authority.new ≡ authority_plan authority.old }
{
    if let Err(fault) = action.admitted_by(authority) {
        return Err(fault);
    }
    messages.reserve(1)?;
    match action.done_by(alloc, authority)? {
        Some(message) => {
            messages.push(message).unwrap();
            Ok(1)
        }
        None => Ok(0),
    }
}

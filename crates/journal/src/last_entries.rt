//! The number of each actor's last entry.

ghost use Rattle.std.specs.Prelude.{◌≡◌, IfOk, replicate, ℕ, ◌<◌, ◌≤◌, IsSome, MatchBool, Some};
ghost use Rattle.world.specs.Slots.{slot_of, members};

use crate::actor_name::ActorName;
use std::alloc::{AllocError, Global};
use world::MEMBERS;

/// The number of each actor's last entry, from 1; 0 if it has none.
#[derive(Drop)]
pub struct LastEntries {
    /// The authority's number.
    authority: usize,
    /// Each client's number, by volume epoch. No client has volume epoch 0.
    clients: Vec<usize>,
    /// Each node's number: 64 for each group, one for each member.
    nodes: Vec<usize>,
}

// Makes `count` numbers, all 0.
fn none_yet(alloc: Global, count: usize) -> Result<Vec<usize>, AllocError>
    ensures { IfOk result (λ v. v.items ≡ replicate count 0) }
{
    let made = vec![in alloc; 0; count]?;
    Ok(made)
}

// Returns the index of a member's number.
fn place(group: u8, member: u8) -> usize
    ensures { result ≡ slot_of group member }
{
    usize::from(group) * MEMBERS + usize::from(member)
}

impl LastEntries {
    ghost use Rattle.volume_model.specs.Common.{Actor, same_actor};
    ghost use Rattle.volume_model.specs.Actor.Actor.{Client, Node};
    ghost use Rattle.journal.specs.Actors.{seen_who};
    ghost use Rattle.journal.specs.LastEntries.{last_in, last_known};

    /// Makes a table for clients of volume epochs up to `slots` and for the nodes of `groups` groups, all numbers 0.
    pub(crate) fn new(alloc: Global, slots: u32, groups: u8) -> Result<LastEntries, AllocError>
        ensures clients { IfOk result (λ l. (volume : ℕ) → volume ≤ slots → last_in l (Client volume) ≡ Some 0) }
        ensures nodes { IfOk result (λ l. (group member : ℕ) → group < groups → member < members
            → last_in l (Node group member) ≡ Some 0) }
        ensures none { IfOk result (λ l. (actor : Actor) → last_known l actor ≡ 0) }
    {
        Ok(LastEntries {
            authority: 0,
            clients: none_yet(alloc, slots as usize + 1)?,
            nodes: none_yet(alloc, usize::from(groups) * MEMBERS)?,
        })
    }

    /// Returns an actor's number, or `None` if the table has no place for it.
    pub(crate) fn get(&self, who: ActorName) -> Option<usize>
        ensures { result ≡ last_in self.now (seen_who who) }
    {
        match who {
            ActorName::TheAuthority => Some(self.authority),
            ActorName::Client(volume) => self.clients.get(volume as usize).copied(),
            ActorName::Node { group, member } => {
                if usize::from(member) >= MEMBERS {
                    return None;
                }
                self.nodes.get(place(group, member)).copied()
            }
        }
    }

    /// Sets an actor's number.
    pub(crate) fn set(&mut self, who: ActorName, number: usize)
        requires { IsSome (last_in self.old (seen_who who)) }
        ensures { (other : Actor) → MatchBool (same_actor (seen_who who) other) (last_in self.new other ≡ Some number)
            (last_in self.new other ≡ last_in self.old other) }
    {
        match who {
            ActorName::TheAuthority => self.authority = number,
            ActorName::Client(volume) => self.clients[volume as usize] = number,
            ActorName::Node { group, member } => self.nodes[place(group, member)] = number,
        }
    }
}

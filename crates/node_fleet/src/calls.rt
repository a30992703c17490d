//! The public calls of a fleet.

ghost use Rattle.std.specs.Prelude.{◌≡◌, IfErr, IfOk, OnErr, [], true, ◌++◌, ◌∷◌, ◌≢◌, ◌≤◌, All, Err, None, Some};
ghost use Rattle.volume_model.specs.Common.{Deliver, Issue, is_named};
ghost use Rattle.writer_core.specs.Changes.{changes_of};
ghost use Rattle.world.specs.Actions.{authority_event, client_event, node_event};
ghost use Rattle.node_fleet.specs.Calls.{NamesElse, RaisesBy, Unmade};
ghost use Rattle.node_fleet.specs.Passes.{notes_of, seat_of, steps_of, IsEntrySame, IsMailSame, Records};

use crate::fleet::Fleet;
use crate::gate::StepGate;
use crate::halt::Halt;
use crate::halting::refusal_of;
use crate::locking::lock_spinning;
use crate::mailbox::Letter;
use crate::pass::Pass;
use crate::site::FleetSite;
use journal::Receipt;
use segment_core::NodeAction;
use std::sync::Wait;
use volume_model::Fault;
use world::{AuthorityAction, ClientAction, Event};
use writer_core::Change;

impl<'a, L: FleetSite> Fleet<'a, L> {
    ghost use Rattle.volume_model.specs.declared.fault.Fault.TheVariants.{NoMessage};
    ghost use Rattle.node_fleet.specs.declared.halt.Halt.TheVariants.{Refused};
    ghost use Rattle.journal.specs.Passes as journal;
    ghost use Rattle.node_fleet.specs.RecordsAttempt.{PassRecords};
    ghost use Rattle.world.specs.Slots.{slot_of};
    ghost use Rattle.board.specs.Board.{number_of, IsKept};
    ghost use Rattle.board.specs.declared.BoardStep.{BoardStep};
    ghost use Rattle.node_fleet.specs.Mail.{AddsCollected, AddsPosted};
    ghost use Rattle.node_fleet.specs.Mails.{ChangesAt};

    // Takes the locks and attempts an action of the authority.
    fn try_authority<R: Wait>(
        &self,
        rt: &R,
        pass: &mut journal::Pass<'a, L>,
        action: AuthorityAction,
    ) -> Result<Receipt, Halt>
        ensures recorded { PassRecords (authority_event action) result pass.old pass.new }
        ensures seat { journal.seat_of pass.new ≡ journal.seat_of pass.old }
        ensures found { result ≢ Err (Refused NoMessage) }
    {
        let mut actor = lock_spinning(rt, &self.authority);
        let mut log = lock_spinning(rt, &self.journal);
        actor.act(rt, self.alloc, &mut log, pass, action, self.slots)
    }

    /// Makes a step of the authority: assigns a volume epoch, advances a group to a child of its configuration, makes a
    /// View for a client, or lets the next group join.
    ///
    /// # Errors
    /// The authority's refusal, as from [`AuthorityActor::act`](crate::authority::AuthorityActor::act); `NoSlot` for an
    /// assignment beyond the last slot; `JournalFull` if no cell is left; `NoMemory` if memory runs out, which isn't
    /// noted.
    pub fn advance<R: Wait>(
        &self,
        rt: &R,
        pass: &mut Pass<'a, L>,
        action: AuthorityAction,
    ) -> Result<Receipt, Fault>
        ensures recorded { Records (authority_event action) result pass.old pass.new }
        ensures seat { seat_of pass.new ≡ seat_of pass.old }
        ensures mail { IsMailSame pass.old pass.new }
        ensures found { IfErr result (λ fault. fault ≢ NoMessage) }
    {
        match self.try_authority(rt, &mut pass.entered, action) {
            Ok(receipt) => Ok(receipt),
            Err(halt) => Err(refusal_of(rt, halt)),
        }
    }

    /// Makes a step of a client. After a Take or an Open it raises the board to the client's durable point, still under
    /// the client's lock. The journal gets a copy of the changes of an Issue; [`Fleet::issue`] avoids the copy.
    ///
    /// # Errors
    /// `NoMessage` if no step has made the message to take, which isn't noted. The client's refusal, as from
    /// [`ClientActor::act`](crate::client::ClientActor::act); a client without a slot counts as unborn. `JournalFull`
    /// if no cell is left. `NoMemory` if memory runs out, which isn't noted.
    pub fn client_step<R: Wait>(
        &self,
        rt: &R,
        pass: &mut Pass<'a, L>,
        volume: u32,
        action: ClientAction<'_>,
    ) -> Result<Receipt, Fault>
        ensures recorded { Records (client_event volume action.entry) result pass.old pass.new }
        ensures raised { IfOk result (λ r. RaisesBy (client_event volume action.entry) r.durable (seat_of pass.old)
            (seat_of pass.new)) }
        ensures still { OnErr result (seat_of pass.new ≡ seat_of pass.old) }
        ensures mail { IsMailSame pass.old pass.new }
        ensures unmade { IfErr result (λ fault. fault ≡ NoMessage → NamesElse (client_event volume action.entry)
            (steps_of pass.old)) }
    {
        let event = Event::of_client(self.alloc, volume, action)?;
        self.enter_client(rt, &mut pass.entered, volume, event)
    }

    /// Issues a transaction of a client, as [`Fleet::client_step`] does. The changes move into the journal's entry or
    /// into the note of a refusal, without a copy.
    ///
    /// # Errors
    /// Those of [`Fleet::client_step`] for an Issue. After `NoMemory` the changes are lost.
    pub fn issue<R: Wait>(
        &self,
        rt: &R,
        pass: &mut Pass<'a, L>,
        volume: u32,
        changes: Vec<Change>,
    ) -> Result<Receipt, Fault>
        ensures recorded { Records (Issue volume (changes_of changes.items)) result pass.old pass.new }
        ensures seat { seat_of pass.new ≡ seat_of pass.old }
        ensures mail { IsMailSame pass.old pass.new }
        ensures found { IfErr result (λ fault. fault ≢ NoMessage) }
    {
        self.enter_client(
            rt,
            &mut pass.entered,
            volume,
            Event::Issue { volume, changes },
        )
    }

    /// Delivers a message to a node: looks it up, prepares the reaction under the node's lock, shows the answers to the
    /// gate while the journal isn't locked, then makes and enters the step.
    ///
    /// # Errors
    /// `NoActor` if the plan doesn't name such a node or its group hasn't joined. `NoMessage` if no step has made the
    /// message, which isn't noted. The node's refusal, as from [`NodeActor::react`](crate::node::NodeActor::react).
    /// `JournalFull` if no cell is left. `NoMemory` if memory runs out, which isn't noted.
    pub fn deliver<R: Wait, G: StepGate>(
        &self,
        rt: &R,
        pass: &mut Pass<'a, L>,
        group: u8,
        member: u8,
        message: u64,
        gate: &G,
    ) -> Result<Receipt, Fault>
        ensures recorded { Records (Deliver group member message) result pass.old pass.new }
        ensures unmade { IfErr result (λ fault. Unmade message (steps_of pass.old) fault) }
        ensures seat { seat_of pass.new ≡ seat_of pass.old }
        ensures mail { IsMailSame pass.old pass.new }
    {
        let Some(node) = self.node(group, member) else {
            let event = Event::Deliver {
                group,
                member,
                message,
            };
            return Err(self.refuse_absent(rt, &mut pass.entered, event));
        };
        let mut message_ref = match self.find(rt, &mut pass.entered, group, member, message) {
            Ok(message_ref) => message_ref,
            Err(fault) => return Err(fault),
        };
        let entered = &mut pass.entered;
        match self.try_deliver(rt, entered, node, group, member, &mut message_ref, gate) {
            Ok(receipt) => Ok(receipt),
            Err(halt) => Err(refusal_of(rt, halt)),
        }
    }

    /// Makes a step of a node that takes no message: hydrates, restarts or offers a record.
    ///
    /// # Errors
    /// `NoActor` if the plan doesn't name such a node or its group hasn't joined. The node's refusal, as from
    /// [`NodeActor::act`](crate::node::NodeActor::act). `JournalFull` if no cell is left. `NoMemory` if memory runs
    /// out, which isn't noted.
    pub fn node_step<R: Wait>(
        &self,
        rt: &R,
        pass: &mut Pass<'a, L>,
        group: u8,
        member: u8,
        action: NodeAction,
    ) -> Result<Receipt, Fault>
        ensures recorded { Records (node_event group member action) result pass.old pass.new }
        ensures found { IfErr result (λ fault. fault ≢ NoMessage) }
        ensures seat { seat_of pass.new ≡ seat_of pass.old }
        ensures mail { IsMailSame pass.old pass.new }
    {
        let Some(node) = self.node(group, member) else {
            let event = Event::of_node(group, member, action);
            return Err(self.refuse_absent(rt, &mut pass.entered, event));
        };
        match self.try_node(rt, &mut pass.entered, node, group, member, action) {
            Ok(receipt) => Ok(receipt),
            Err(halt) => Err(refusal_of(rt, halt)),
        }
    }

    /// Returns the board's number: the greatest that any pass has raised (0 if none), and at least all that this pass
    /// raised or read. Takes no lock and allocates nothing.
    pub fn durable(&self, pass: &mut Pass<'a, L>) -> u64
        ensures same { (steps_of pass.new ≡ steps_of pass.old) × (notes_of pass.new ≡ notes_of pass.old) }
        ensures read { seat_of pass.new ≡ seat_of pass.old ++ BoardStep.Read result ∷ [] }
        ensures at_least { All (λ s. number_of s ≤ result) (seat_of pass.old) }
        ensures kept { IsKept result (seat_of pass.new) }
        ensures mail { IsMailSame pass.old pass.new }
    {
        pass.entered.durable(&self.board)
    }

    /// Returns whether the plan names this member of this group. Such a node has a mailbox.
    pub fn names(&self, group: u8, member: u8) -> bool
        ensures { result ≡ is_named L.plan group member }
    {
        self.plan.names(group, member)
    }

    /// Posts a message's number to a node. Blocks while the mailbox has 1,024 letters. Allocates nothing.
    pub fn post<R: Wait>(&self, rt: &R, pass: &mut Pass<'a, L>, group: u8, member: u8, message: u64)
        requires { is_named L.plan group member ≡ true }
        ensures same { IsEntrySame pass.old pass.new }
        ensures step { ChangesAt (slot_of group member) (λ before after. AddsPosted before (Some message) after)
            pass.old.mail pass.new.mail }
    {
        self.mail
            .send(rt, &mut pass.mail, group, member, Some(message));
    }

    /// Takes a node's oldest letter. Blocks while there is none. The letter's place is above all that this pass has
    /// collected there. `None` is the closing letter. Allocates nothing.
    pub fn collect<R: Wait>(&self, rt: &R, pass: &mut Pass<'a, L>, group: u8, member: u8) -> Letter
        requires { is_named L.plan group member ≡ true }
        ensures same { IsEntrySame pass.old pass.new }
        ensures step { ChangesAt (slot_of group member) (λ before after. AddsCollected before result after)
            pass.old.mail pass.new.mail }
    {
        self.mail.collect(rt, &mut pass.mail, group, member)
    }

    /// Posts the closing letter to a node. Blocks while the mailbox is full. Allocates nothing.
    pub fn close_mailbox<R: Wait>(&self, rt: &R, pass: &mut Pass<'a, L>, group: u8, member: u8)
        requires { is_named L.plan group member ≡ true }
        ensures same { IsEntrySame pass.old pass.new }
        ensures step { ChangesAt (slot_of group member) (λ before after. AddsPosted before None after) pass.old.mail
            pass.new.mail }
    {
        self.mail.send(rt, &mut pass.mail, group, member, None);
    }
}

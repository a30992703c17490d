//! What the steps of a script's run have led to: whether each advance waited, and which groups no recovery can read.
//!
//! An advance waits if the whole members of its group satisfy the read expression of the configuration to which it
//! leads. A group may be read again if its whole members, and those that can still become whole, satisfy the read
//! expression of its last configuration. A member can become whole at a membership epoch from members that are whole
//! and haven't passed that epoch, and from copies that were sent at it.

use crate::run_state::event_lines;
use drivers::Step;
use plan::{CheckedPlan, Configuration};
use quorum_expr::{MEMBERS, MemberSet, holds};
use serde::Serialize;
use std::alloc::{AllocError, Global};
use volume_model::Fault;
use world::{Event, Order};

/// The most groups of a plan.
const GROUPS: usize = 16;

/// The most members of a group.
const SLOTS: usize = MEMBERS as usize;

/// An event that may change which members of a group can be read.
#[derive(Clone, Copy)]
pub struct StepEvent {
    group: u8,
    change: Change,
}

/// What an event does to its group.
#[derive(Clone, Copy)]
enum Change {
    /// The group advances to a configuration.
    Advance(u8),
    /// A member becomes whole.
    Hydrate(u8),
    /// A member takes the first message that the event with this index made.
    Deliver(u8, u32),
}

/// An advance that was made.
#[derive(Clone, Copy, Debug, PartialEq, Eq, Serialize)]
pub struct AdvanceFacts {
    /// The line of the script, from 1.
    pub line: u32,
    /// The group.
    pub group: u8,
    /// The configuration to which it leads.
    pub configuration: u8,
    /// Whether the whole members satisfied the configuration's read expression.
    pub waited: bool,
}

/// A group that no recovery can read any more.
#[derive(Clone, Copy, Debug, PartialEq, Eq, Serialize)]
pub struct LostGroup {
    /// The group.
    pub group: u8,
    /// The line since which it is so, from 1.
    pub line: u32,
}

/// What the steps of a run have led to.
#[derive(Drop)]
pub struct StepsFacts {
    /// The advances, in order.
    pub advances: Vec<AdvanceFacts>,
    /// The groups that no recovery can read.
    pub lost: Vec<LostGroup>,
}

impl StepsFacts {
    /// Returns whether the last advance of each group waited.
    pub fn waited(&self) -> bool {
        let mut waited = [true; GROUPS];
        for advance in &self.advances {
            if let Some(last) = waited.get_mut(usize::from(advance.group)) {
                *last = advance.waited;
            }
        }
        !waited.contains(&false)
    }
}

/// A message that concerns a step. `place` is the index of the configuration in the group's path.
#[derive(Clone, Copy)]
enum Notice {
    /// Members learn of the step.
    StepTo { place: usize },
    /// A member that isn't whole asks for copies.
    CopyAsk { place: usize },
    /// Another message.
    Other,
}

/// A configuration that a group has had.
#[derive(Clone, Copy)]
struct Reached {
    /// Its number.
    configuration: u8,
    /// The members that have sent copies at its membership epoch.
    copied: MemberSet,
}

/// A group in a run.
#[derive(Drop)]
struct GroupSteps<'p> {
    plan: &'p CheckedPlan,
    /// Its number.
    group: u8,
    /// The configurations that it has had, in order.
    path: Vec<Reached>,
    /// The index of the configuration that each member has learned of last.
    places: [usize; SLOTS],
    /// The whole members.
    whole: MemberSet,
    /// The line since which no later recovery can read it.
    lost: Option<u32>,
}

/// Returns what an event may change.
fn changes_of(event: &Event) -> Option<StepEvent> {
    match event {
        Event::Advance {
            group,
            configuration,
        } => Some(StepEvent {
            group: *group,
            change: Change::Advance(u8::try_from(*configuration).ok()?),
        }),
        Event::Hydrate { group, member } => Some(StepEvent {
            group: *group,
            change: Change::Hydrate(*member),
        }),
        _ => None,
    }
}

/// Returns what the orders of a script may change: for each order its event, if it has one.
///
/// # Errors
/// `AllocError` if memory runs out.
pub fn step_events(alloc: Global, orders: &[Order]) -> Result<Vec<Option<StepEvent>>, AllocError> {
    let mut events = Vec::with_capacity(alloc, orders.len())?;
    for order in orders {
        events.push(match order {
            Order::DeliverFrom {
                group,
                member,
                event,
                place: 1,
            } => Some(StepEvent {
                group: *group,
                change: Change::Deliver(*member, *event),
            }),
            Order::Event(event) => changes_of(event),
            _ => None,
        })?;
    }
    Ok(events)
}

impl Reached {
    /// Returns a configuration at whose membership epoch no copies were sent.
    fn new(configuration: u8) -> Reached {
        Reached {
            configuration,
            copied: MemberSet::empty(),
        }
    }
}

impl<'p> GroupSteps<'p> {
    /// Returns a group at its root.
    fn new(alloc: Global, plan: &'p CheckedPlan, group: u8) -> Result<GroupSteps<'p>, AllocError> {
        let whole = match plan.configuration(group, 0) {
            Some(root) => root.members,
            None => MemberSet::empty(),
        };
        Ok(GroupSteps {
            plan,
            group,
            path: vec![in alloc; Reached::new(0)]?,
            places: [0; SLOTS],
            whole,
            lost: None,
        })
    }

    /// Returns the group's configuration.
    fn last(&self) -> Option<&'p Configuration> {
        let reached = self.path.last()?;
        self.plan.configuration(self.group, reached.configuration)
    }

    /// Returns whether the whole members satisfy the read expression of the group's configuration.
    fn is_ready(&self) -> bool {
        match self.last() {
            Some(configuration) => holds(&configuration.read, self.whole),
            None => false,
        }
    }

    /// Returns the members of a set that haven't passed a place.
    fn up_to(&self, set: MemberSet, place: usize) -> MemberSet {
        let mut found = MemberSet::empty();
        for member in 0..MEMBERS {
            if self.places[usize::from(member)] <= place && set.contains(member) {
                found = found.with(member);
            }
        }
        found
    }

    /// Returns the whole members and those that can still become whole.
    fn can_be_whole(&self) -> MemberSet {
        let mut whole = self.whole;
        let mut hydrated = MemberSet::empty();
        for (place, reached) in self.path.iter().enumerate() {
            if let Some(configuration) = self
                .plan
                .configuration(self.group, reached.configuration)
            {
                let sources = self.up_to(self.whole, place).union(hydrated);
                if holds(&configuration.read, sources.union(reached.copied)) {
                    let fresh = self.up_to(configuration.members.difference(whole), place);
                    hydrated = hydrated.union(fresh);
                    whole = whole.union(fresh);
                }
            }
        }
        whole
    }

    /// Returns whether a later recovery can read the group.
    fn can_be_read(&self) -> bool {
        match self.last() {
            Some(configuration) => holds(&configuration.read, self.can_be_whole()),
            None => true,
        }
    }

    /// Notes the line of a step since which no later recovery can read the group. No event gives a group back.
    fn note_loss(&mut self, line: u32) {
        if self.lost.is_none() && !self.can_be_read() {
            self.lost = Some(line);
        }
    }

    /// Lets a member take a message. Returns what it answers.
    fn deliver(&mut self, member: u8, notice: Notice, line: u32) -> Notice {
        if member >= MEMBERS {
            return Notice::Other;
        }
        match notice {
            Notice::StepTo { place } => {
                if self.places[usize::from(member)] != place {
                    self.places[usize::from(member)] = place;
                    self.note_loss(line);
                }
                if !self.whole.contains(member) {
                    return Notice::CopyAsk { place };
                }
            }
            Notice::CopyAsk { place } => {
                if let Some(reached) = self.path.get_mut(place) {
                    reached.copied = reached.copied.with(member);
                }
            }
            Notice::Other => {}
        }
        Notice::Other
    }
}

/// The groups in a run.
#[derive(Drop)]
struct StepReplay<'p> {
    /// The groups of the plan.
    groups: Vec<GroupSteps<'p>>,
    /// What the first message of each event says.
    notices: Vec<Notice>,
    /// The advances so far.
    advances: Vec<AdvanceFacts>,
}

impl<'p> StepReplay<'p> {
    /// Returns the groups before any event.
    fn new(alloc: Global, plan: &'p CheckedPlan) -> Result<StepReplay<'p>, AllocError> {
        let mut groups = Vec::new(alloc);
        for group in 0..plan.groups() {
            groups.push(GroupSteps::new(alloc, plan, group)?)?;
        }
        Ok(StepReplay {
            groups,
            notices: Vec::new(alloc),
            advances: Vec::new(alloc),
        })
    }

    /// Makes the event of a line. Returns what its first message says.
    fn apply(&mut self, event: StepEvent, line: u32) -> Result<Notice, AllocError> {
        let StepReplay {
            groups,
            notices,
            advances,
        } = self;
        let StepEvent { group, change } = event;
        let Some(steps) = groups.get_mut(usize::from(group)) else {
            return Ok(Notice::Other);
        };
        match change {
            Change::Advance(configuration) => {
                let place = steps.path.len();
                steps.path.push(Reached::new(configuration))?;
                advances.push(AdvanceFacts {
                    line,
                    group,
                    configuration,
                    waited: steps.is_ready(),
                })?;
                steps.note_loss(line);
                Ok(Notice::StepTo { place })
            }
            Change::Hydrate(member) => {
                if member < MEMBERS {
                    steps.whole = steps.whole.with(member);
                }
                Ok(Notice::Other)
            }
            Change::Deliver(member, event) => {
                let notice = notices.get(event as usize).copied();
                Ok(steps.deliver(member, notice.unwrap_or(Notice::Other), line))
            }
        }
    }

    /// Makes the event of a line, if it has one.
    fn take(&mut self, event: Option<StepEvent>, line: u32) -> Result<(), AllocError> {
        let notice = match event {
            Some(event) => self.apply(event, line)?,
            None => Notice::Other,
        };
        self.notices.push(notice)?;
        Ok(())
    }
}

/// Returns what the steps of a run have led to. `steps` are the script's lines, `events` what its orders may change,
/// and `results` the results of the run.
///
/// # Errors
/// `AllocError` if memory runs out.
pub fn steps_facts(
    alloc: Global,
    plan: &CheckedPlan,
    steps: &[Step],
    mut events: Vec<Option<StepEvent>>,
    results: &[Result<u32, Fault>],
) -> Result<StepsFacts, AllocError> {
    for (event, result) in events.iter_mut().zip(results) {
        if result.is_err() {
            *event = None;
        }
    }
    let lines = event_lines(alloc, steps)?;
    let mut replay = StepReplay::new(alloc, plan)?;
    for (event, line) in events.iter().zip(lines.as_slice()) {
        replay.take(*event, *line)?;
    }
    let mut lost = Vec::new(alloc);
    for steps in &replay.groups {
        if let Some(line) = steps.lost {
            lost.push(LostGroup {
                group: steps.group,
                line,
            })?;
        }
    }
    Ok(StepsFacts {
        advances: replay.advances,
        lost,
    })
}

//! The script of a step: what an operator does, with comments.

use crate::facts::Members;
use crate::wording::add_expr;
use plan::CheckedPlan;
use quorum_expr::{Expr, MEMBERS, MemberSet, holds};
use std::alloc::{AllocError, Global};

/// The most steps from a root to a configuration.
const STEPS: usize = 64;

/// Why a step has no script.
#[derive(Clone, Copy, Debug, PartialEq, Eq)]
pub enum NoStep {
    /// The plan has no such group, or the group no such configuration.
    NotInPlan,
    /// No step leads to the configuration: it is the first one.
    IsRoot,
    /// The members that are whole before the step to this configuration aren't a read set of it, so that its new
    /// members can't become whole.
    CannotRead(u8),
    /// Memory ran out.
    NoMemory,
}

impl From<AllocError> for NoStep {
    fn from(_: AllocError) -> NoStep {
        NoStep::NoMemory
    }
}

/// A script under construction.
#[derive(Drop)]
struct Script {
    text: String,
    /// The number of its lines.
    lines: u64,
}

/// A step of a group.
#[derive(Clone, Copy)]
struct Step {
    group: u8,
    /// The number of the configuration to which it leads.
    number: u8,
    parent: u8,
    /// The members that both configurations have.
    kept: MemberSet,
    /// The members that the step adds.
    fresh: MemberSet,
}

impl Script {
    /// Ends the line. Returns its number.
    fn end(&mut self) -> Result<u64, AllocError> {
        self.text.push_str("\n")?;
        self.lines = self.lines.saturating_add(1);
        Ok(self.lines)
    }

    /// Delivers the first message of a line to a member.
    fn deliver(&mut self, group: u8, member: u8, line: u64) -> Result<u64, AllocError> {
        write!(self.text, "deliver {group} {member} {line}.1")?;
        self.end()
    }

    /// Delivers the first message of a line to each member of a set.
    fn deliver_each(&mut self, group: u8, to: MemberSet, line: u64) -> Result<(), AllocError> {
        for member in 0..MEMBERS {
            if to.contains(member) {
                self.deliver(group, member, line)?;
            }
        }
        Ok(())
    }

    /// Lets a new member become whole by the copies of those that are.
    fn hydrate(&mut self, step: &Step, member: u8, advance: u64) -> Result<(), AllocError> {
        let (group, kept) = (step.group, Members(step.kept));
        write!(
            self.text,
            "# The StepTo goes to member {member}, which asks for copies: {kept} send them, and it becomes whole."
        )?;
        self.end()?;
        let asked = self.deliver(group, member, advance)?;
        self.deliver_each(group, step.kept, asked)?;
        for copy in asked..self.lines {
            self.deliver(group, member, copy.saturating_add(1))?;
        }
        write!(self.text, "hydrate {group} {member}")?;
        self.end()?;
        Ok(())
    }

    /// Appends what is said of a step, and the line that advances the group. Returns its number.
    fn advance(&mut self, step: &Step, read: &Expr<Global>) -> Result<u64, AllocError> {
        let (group, number, parent) = (step.group, step.number, step.parent);
        write!(
            self.text,
            "# Group {group} steps from configuration {parent} to {number}."
        )?;
        self.end()?;
        self.text
            .push_str("# The members that are whole must be a read set of it: ")?;
        add_expr(&mut self.text, read)?;
        self.end()?;
        write!(self.text, "advance {group} {number}")?;
        self.end()
    }

    /// Appends the lines of a step to a configuration with this read expression. At last the writer learns of it.
    fn add_step(&mut self, step: &Step, read: &Expr<Global>) -> Result<(), AllocError> {
        let advance = self.advance(step, read)?;
        let kept = Members(step.kept);
        write!(self.text, "# The StepTo goes to the members {kept}.")?;
        self.end()?;
        self.deliver_each(step.group, step.kept, advance)?;
        for member in 0..MEMBERS {
            if step.fresh.contains(member) {
                self.hydrate(step, member, advance)?;
            }
        }
        self.text.push_str("# The writer learns of the step.")?;
        self.end()?;
        self.text.push_str("refresh 1")?;
        let view = self.end()?;
        write!(self.text, "take 1 {view}.1")?;
        self.end()?;
        Ok(())
    }

    /// Lets the groups behind those at birth join, up to a given one.
    fn add_growth(&mut self, born: u8, group: u8) -> Result<(), AllocError> {
        if group < born {
            return Ok(());
        }
        write!(self.text, "# Group {group} joins the volume.")?;
        self.end()?;
        for _ in born..=group {
            self.text.push_str("grow")?;
            self.end()?;
        }
        Ok(())
    }
}

/// Appends the lines of a step between two configurations of a group.
fn add_step_between(
    script: &mut Script,
    plan: &CheckedPlan,
    group: u8,
    parent: u8,
    number: u8,
) -> Result<(), NoStep> {
    let before = plan.configuration(group, parent);
    let (Some(before), Some(child)) = (before, plan.configuration(group, number)) else {
        return Err(NoStep::NotInPlan);
    };
    let kept = child.members.intersection(before.members);
    if !holds(&child.read, kept) {
        return Err(NoStep::CannotRead(number));
    }
    let step = Step {
        group,
        number,
        parent,
        kept,
        fresh: child.members.difference(before.members),
    };
    script.add_step(&step, &child.read)?;
    Ok(())
}

/// Returns the numbers of the configurations on the way from one back to a root, without the root.
fn path_from(
    alloc: Global,
    plan: &CheckedPlan,
    group: u8,
    number: u8,
) -> Result<Vec<u8>, AllocError> {
    let mut path = Vec::new(alloc);
    let mut at = number;
    for _ in 0..STEPS {
        let here = plan.configuration(group, at);
        let Some(parent) = here.and_then(|here| here.parent) else {
            break;
        };
        path.push(at)?;
        at = u8::try_from(parent).unwrap_or(0);
    }
    Ok(path)
}

/// Returns the script of a step of a group to a configuration, over a volume that was just born: the steps that lead to
/// the parent, and then the step itself. Comments say what happens. `run` takes all of its lines.
///
/// # Errors
/// The first that applies of `NotInPlan`, `IsRoot`, and `CannotRead` for a step on the way; `NoMemory` if memory runs
/// out.
pub fn step_script(
    alloc: Global,
    plan: &CheckedPlan,
    group: u8,
    configuration: u8,
) -> Result<String, NoStep> {
    if plan.configuration(group, configuration).is_none() {
        return Err(NoStep::NotInPlan);
    }
    let path = path_from(alloc, plan, group, configuration)?;
    if path.is_empty() {
        return Err(NoStep::IsRoot);
    }
    let mut script = Script {
        text: String::new(alloc),
        lines: 0,
    };
    script.add_growth(plan.born(), group)?;
    let mut parent = 0u8;
    for number in path.iter().rev() {
        add_step_between(&mut script, plan, group, parent, *number)?;
        parent = *number;
    }
    Ok(script.text)
}

//! Reads plans from JSON nodes.

ghost use Rattle.std.specs.Prelude.{◌≡◌, ◌≤◌, ◌<◌, ◌+◌, true, None, Ok, IfOk, length, map, option_map};
ghost use Rattle.std.specs.FinSet as set;
ghost use Rattle.std.specs.FinSet.{is_subset};
ghost use Rattle.serde_json.specs.Events.{items_len};
ghost use Rattle.volume_model.specs.Common.{Gives};
ghost use Rattle.quorum_expr.specs.Common.{formula_of, expression_fault, expression_in, items_in};
ghost use Rattle.refutation.specs.Common.{certificate_rule};
ghost use Rattle.plan.specs.PlanData.{names_only};
ghost use Rattle.plan.specs.Plan.{configuration_data, group_data, plan_data};
ghost use Rattle.plan.specs.TextForms.{fields_data, top_fields_data, header_data};
ghost use Rattle.plan.specs.PlanText.{Reads, fields_of, parent_of, members_from, members_of, some_members_of, lists_of, expression_error, in_quorum, certificate_or_null, step_of, configuration_in, configurations_in, group_items, group_in, groups_in, group_list, lal_of, format_of, born_field, top_fields_of, born_of, header_of, plan_in};

use crate::configurations::{Configuration, Group, Plan};
use crate::fault::{PlanFault, Quorum};
use crate::fields::{Fields, Header, TopFields};
use crate::formats::Format;
use quorum_expr::{Expr, Lists, MemberSet, Node, count_items, read_expr_at, value_at, whole};
use refutation::{Certificate, array, has_keys, listed, number_to, read_certificate_at};
use std::alloc::Global;
use volume_model::Fault;

/// The most that LSNs may run ahead of the durable point.
const MAX_LAL: u64 = 10_000_000;

/// Returns the nodes of a configuration. `Malformed` for any other node.
#[tactic(auto, unfolding(crate::specs::PlanText::fields_of))]
pub fn fields_at<N: Node>(value: &N) -> Result<Fields<N>, Fault>
    ensures { Gives (fields_data N.means) result (fields_of (N.means value.now)) }
{
    has_keys(value, 7)?;
    let parent = value_at(value, "parent")?;
    let members = value_at(value, "members")?;
    let full = value_at(value, "full")?;
    let read = value_at(value, "read")?;
    let write = value_at(value, "write")?;
    let meets = value_at(value, "meets")?;
    let step = value_at(value, "step")?;
    Ok(Fields {
        parent,
        members,
        full,
        read,
        write,
        meets,
        step,
    })
}

/// Reads the number of a parent, if there is one.
fn parent<N: Node>(value: &N) -> Result<Option<u64>, Fault>
    ensures { Gives (λ p. p) result (parent_of (N.means value.now)) }
{
    if value.is_null() {
        return Ok(None);
    }
    match value.as_u64() {
        Some(number) => Ok(Some(number)),
        None => Err(Fault::Malformed),
    }
}

/// Reads members in growing order.
fn members<N: Node>(rest: &mut N::Rest) -> Result<MemberSet, Fault>
    ensures { Gives (λ s. s) result (members_from 0 set.empty (N.left rest.old)) }
{
    let mut least = 0u64;
    let mut set = MemberSet::empty();
    while let Some(value) = N::next(rest) {
        let member = number_to(&value, 63)?;
        if member < least {
            return Err(Fault::Malformed);
        }
        least = member + 1;
        set = set.with(member as u8);
    }
    Ok(set)
}

/// Reads a list of members.
#[tactic(auto, unfolding(crate::specs::PlanText::members_of))]
fn members_at<N: Node>(value: &N) -> Result<MemberSet, Fault>
    ensures { Gives (λ s. s) result (members_of (N.means value.now)) }
{
    let mut rest = array(value)?;
    members::<N>(&mut rest)
}

/// Reads a list of one or more members.
#[tactic(auto, unfolding(crate::specs::PlanText::members_of, crate::specs::PlanText::some_members_of))]
fn some_members<N: Node>(value: &N) -> Result<MemberSet, Fault>
    ensures { Gives (λ s. s) result (some_members_of (N.means value.now)) }
{
    if count_items(value, 1) < 1 {
        return Err(Fault::Malformed);
    }
    members_at(value)
}

/// Reads the members, and those of them that are full.
#[tactic(auto, unfolding(crate::specs::PlanText::lists_of))]
fn lists<N: Node>(is_weighted: bool, fields: &Fields<N>) -> Result<Lists, Fault>
    ensures read { Gives (λ l. l) result (lists_of is_weighted (fields_data N.means fields.now)) }
    ensures within { IfOk result (λ l. is_subset l.full l.members ≡ true) }
{
    let all = some_members(&fields.members)?;
    let full = members_at(&fields.full)?;
    if !full.is_subset(all) {
        return Err(Fault::Malformed);
    }
    Ok(Lists {
        members: all,
        full,
        is_weighted,
    })
}

/// Returns the error for a fault of an expression: with its place if it is one of the plan, else as a fault of the
/// text.
fn expression_error(group: u8, configuration: u8, quorum: Quorum, fault: Fault) -> PlanFault
    ensures { result ≡ expression_error group configuration quorum fault }
{
    match fault {
        Fault::BadCount | Fault::TooDeep | Fault::NotAMember => PlanFault::Expression {
            fault,
            group,
            configuration,
            quorum,
        },
        _ => PlanFault::Text(fault),
    }
}

/// Reads an expression over the members of a configuration.
fn expression<N: Node>(
    alloc: Global,
    group: u8,
    configuration: u8,
    quorum: Quorum,
    value: &N,
    lists: &Lists,
) -> Result<Expr<Global>, PlanFault>
    requires { is_subset lists.now.full lists.now.members ≡ true }
    ensures read { Reads formula_of result (in_quorum group configuration quorum
        (expression_in lists.now (N.means value.now))) }
    ensures valid { IfOk result (λ e. expression_fault (formula_of e) ≡ None) }
    ensures own { IfOk result (λ e. names_only (formula_of e) lists.now.members ≡ true) }
{
    match read_expr_at(alloc, value, lists) {
        Ok(expr) => Ok(expr),
        Err(fault) => Err(expression_error(group, configuration, quorum, fault)),
    }
}

/// Reads a certificate, if there is one.
fn certificate<N: Node>(alloc: Global, value: &N) -> Result<Option<Certificate<Global>>, Fault>
    ensures { Gives (λ c. option_map certificate_rule c) result (certificate_or_null (N.means value.now)) }
{
    if value.is_null() {
        return Ok(None);
    }
    Ok(Some(read_certificate_at(alloc, value)?))
}

/// Reads the certificate of a step, which a root doesn't have.
#[tactic(auto, unfolding(crate::specs::PlanText::step_of))]
fn step<N: Node>(
    alloc: Global,
    configuration: u8,
    value: &N,
) -> Result<Option<Certificate<Global>>, Fault>
    ensures { Gives (λ c. option_map certificate_rule c) result (step_of configuration (N.means value.now)) }
{
    if configuration == 0 {
        if value.is_null() {
            return Ok(None);
        }
        return Err(Fault::Malformed);
    }
    certificate(alloc, value)
}

#[tactic(auto, unfolding(crate::specs::PlanText::configuration_in))]
fn configuration<N: Node>(
    alloc: Global,
    is_weighted: bool,
    group: u8,
    number: u8,
    value: &N,
) -> Result<Configuration, PlanFault>
    ensures { Reads configuration_data result (configuration_in is_weighted group number (N.means value.now)) }
{
    let fields = fields_at(value)?;
    let parent = parent(&fields.parent)?;
    let lists = lists(is_weighted, &fields)?;
    let read = expression(alloc, group, number, Quorum::Read, &fields.read, &lists)?;
    let write = expression(alloc, group, number, Quorum::Write, &fields.write, &lists)?;
    let meets = certificate(alloc, &fields.meets)?;
    let step = step(alloc, number, &fields.step)?;
    Ok(Configuration {
        parent,
        members: lists.members,
        full: lists.full,
        read,
        write,
        meets,
        step,
    })
}

fn configurations<N: Node>(
    alloc: Global,
    is_weighted: bool,
    group: u8,
    list: &N,
) -> Result<Vec<Configuration>, PlanFault>
    requires { items_len (items_in (N.means list.now)) ≤ 64 }
    ensures read { Reads (λ v. map configuration_data v.items) result (configurations_in is_weighted group 0
        (items_in (N.means list.now))) }
    ensures counted { IfOk result (λ v. length v.items ≡ items_len (items_in (N.means list.now))) }
{
    let mut configurations = Vec::new(alloc);
    let Some(mut rest) = list.items() else {
        return Ok(configurations);
    };
    while let Some(value) = N::next(&mut rest) {
        let number = configurations.len() as u8;
        configurations.push(configuration(alloc, is_weighted, group, number, &value)?)?;
    }
    Ok(configurations)
}

/// Returns the array of a group's 1 to 64 configurations.
#[tactic(auto, unfolding(crate::specs::PlanText::group_items))]
pub fn group_array<N: Node>(value: &N) -> Result<N, Fault>
    ensures read { Gives (λ n. items_in (N.means n)) result (group_items (N.means value.now)) }
    ensures some { IfOk result (λ n. 1 ≤ items_len (items_in (N.means n))) }
    ensures few { IfOk result (λ n. items_len (items_in (N.means n)) ≤ 64) }
{
    has_keys(value, 1)?;
    let found = value_at(value, "configurations")?;
    let list = listed(found)?;
    let count = count_items(&list, 65);
    if count < 1 || count > 64 {
        return Err(Fault::OverLimit);
    }
    Ok(list)
}

#[tactic(auto, unfolding(crate::specs::PlanText::group_in))]
fn group<N: Node>(
    alloc: Global,
    is_weighted: bool,
    number: u8,
    value: &N,
) -> Result<Group, PlanFault>
    ensures { Reads group_data result (group_in is_weighted number (N.means value.now)) }
{
    let list = group_array(value)?;
    let configurations = configurations(alloc, is_weighted, number, &list)?;
    Ok(Group { configurations })
}

fn groups<N: Node>(alloc: Global, is_weighted: bool, list: &N) -> Result<Vec<Group>, PlanFault>
    requires { items_len (items_in (N.means list.now)) ≤ 16 }
    ensures read { Reads (λ v. map group_data v.items) result (groups_in is_weighted 0 (items_in (N.means list.now))) }
    ensures counted { IfOk result (λ v. length v.items ≡ items_len (items_in (N.means list.now))) }
{
    let mut groups = Vec::new(alloc);
    let Some(mut rest) = list.items() else {
        return Ok(groups);
    };
    while let Some(value) = N::next(&mut rest) {
        let number = groups.len() as u8;
        groups.push(group(alloc, is_weighted, number, &value)?)?;
    }
    Ok(groups)
}

/// Reads the format from a number from 1 to 3.
#[tactic(auto, unfolding(crate::specs::PlanText::format_of))]
fn format<N: Node>(value: &N) -> Result<Format, Fault>
    ensures { Gives (λ f. f) result (format_of (N.means value.now)) }
{
    match whole(value)? {
        1 => Ok(Format::Plain),
        2 => Ok(Format::Weighted),
        3 => Ok(Format::Growing),
        _ => Err(Fault::Malformed),
    }
}

/// Returns the node of the number of groups at birth, if the format has it.
fn born_field<N: Node>(value: &N, format: Format) -> Result<Option<N>, Fault>
    ensures { Gives (λ b. option_map N.means b) result (born_field format (N.means value.now)) }
{
    match format {
        Format::Plain | Format::Weighted => Ok(None),
        Format::Growing => Ok(Some(value_at(value, "born")?)),
    }
}

/// Returns the format of a plan, and the nodes at its other keys. `Malformed` for any other node.
#[tactic(auto, unfolding(crate::specs::PlanText::top_fields_of))]
fn top_fields<N: Node>(value: &N) -> Result<TopFields<N>, Fault>
    ensures { Gives (top_fields_data N.means) result (top_fields_of (N.means value.now)) }
{
    let first = value_at(value, "format")?;
    let format = format(&first)?;
    has_keys(value, format.key_count())?;
    let lal = value_at(value, "lal")?;
    let born = born_field(value, format)?;
    let groups = value_at(value, "groups")?;
    Ok(TopFields {
        format,
        lal,
        born,
        groups,
    })
}

/// Reads `lal`, from 1 to 10,000,000: how far LSNs may run ahead of the durable point.
#[tactic(auto, unfolding(crate::specs::PlanText::lal_of))]
fn lal<N: Node>(value: &N) -> Result<u64, Fault>
    ensures read { Gives (λ n. n) result (lal_of (N.means value.now)) }
    ensures some { IfOk result (λ n. 1 ≤ n) }
    ensures few { IfOk result (λ n. n ≤ 10000000) }
{
    let lal = whole(value)?;
    if lal < 1 {
        return Err(Fault::OverLimit);
    }
    if lal > MAX_LAL {
        return Err(Fault::OverLimit);
    }
    Ok(lal)
}

/// Counts the 1 to 16 groups of an array.
#[tactic(auto, unfolding(crate::specs::PlanText::group_list))]
fn group_count<N: Node>(value: &N) -> Result<u8, Fault>
    ensures read { Gives (λ n. items_in (N.means value.now)) result (group_list (N.means value.now)) }
    ensures count { IfOk result (λ n. n ≡ items_len (items_in (N.means value.now))) }
    ensures some { IfOk result (λ n. 1 ≤ n) }
    ensures few { IfOk result (λ n. n ≤ 16) }
{
    array(value)?;
    let count = count_items(value, 17);
    if count < 1 || count > 16 {
        return Err(Fault::OverLimit);
    }
    Ok(count as u8)
}

/// Reads the number of groups at birth: from 1 to `groups`, or `groups` if the format doesn't have it.
fn born<N: Node>(value: &Option<N>, groups: u8) -> Result<u8, Fault>
    requires { 1 ≤ groups }
    ensures read { Gives (λ n. n) result (born_of groups (option_map N.means value.now)) }
    ensures some { IfOk result (λ n. 1 ≤ n) }
    ensures within { IfOk result (λ n. n ≤ groups) }
{
    let Some(value) = value else {
        return Ok(groups);
    };
    let born = whole(value)?;
    if born < 1 || born > u64::from(groups) {
        return Err(Fault::OverLimit);
    }
    Ok(born as u8)
}

/// Reads the head of a plan.
#[tactic(auto, unfolding(crate::specs::PlanText::header_of))]
pub fn header<N: Node>(value: &N) -> Result<Header<N>, Fault>
    ensures read { Gives (header_data N.means) result (header_of (N.means value.now)) }
    ensures lal_some { IfOk result (λ h. 1 ≤ h.lal) }
    ensures lal_few { IfOk result (λ h. h.lal ≤ 10000000) }
    ensures born_some { IfOk result (λ h. 1 ≤ h.born) }
    ensures born_within { IfOk result (λ h. h.born ≤ items_len (items_in (N.means h.groups))) }
    ensures some { IfOk result (λ h. 1 ≤ items_len (items_in (N.means h.groups))) }
    ensures few { IfOk result (λ h. items_len (items_in (N.means h.groups)) ≤ 16) }
{
    let fields = top_fields(value)?;
    let lal = lal(&fields.lal)?;
    let count = group_count(&fields.groups)?;
    let born = born(&fields.born, count)?;
    Ok(Header {
        format: fields.format,
        lal,
        born,
        groups: fields.groups,
    })
}

/// Reads a plan.
#[tactic(auto, unfolding(crate::specs::PlanText::plan_in))]
pub fn read_plan_at<N: Node>(alloc: Global, value: &N) -> Result<Plan, PlanFault>
    ensures { Reads plan_data result (plan_in (N.means value.now)) }
{
    let header = header(value)?;
    let groups = groups(alloc, header.format.is_weighted(), &header.groups)?;
    Ok(Plan {
        format: header.format,
        lal: header.lal,
        born: header.born,
        groups,
    })
}

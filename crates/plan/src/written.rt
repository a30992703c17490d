//! Writes the plan of a tape with other certificates.

ghost use Rattle.std.specs.Prelude.{◌≡◌, ◌<◌, OnSome, drop};
ghost use Rattle.quorum_expr.specs.Common.{items_in, data_of};
ghost use Rattle.plan.specs.Rewriting.{fields_object, meets_value, step_value, configuration_written, group_written, plan_written};
ghost use Rattle.plan.specs.TextForms.{fields_data};
ghost use Rattle.plan.specs.Certificates.{certificate_values};
ghost use Rattle.plan.specs.Puts.{Puts};
ghost use Rattle.plan.specs.PutPlans.{PutsBorn, PutsMade, configurations_array, groups_array};

use crate::certificates::put_certificate_at;
use crate::expressions::{put_expression, put_whole, put_wholes};
use crate::fields::Fields;
use crate::formats::Format;
use crate::puts::{
    close_array, close_object, open_array, open_object, put_key, put_null, put_number_at,
};
use crate::reading::{fields_at, group_array, header};
use json::Writer;
use quorum_expr::{Node, TapeNode, count_items};
use refutation::Certificate;
use std::alloc::Global;

/// Writes a whole number, or null.
fn put_whole_or_null(writer: &mut Writer, node: &TapeNode<'_, '_>) -> Option<()>
    ensures { OnSome result (Puts (data_of node.now) writer.old writer.new) }
{
    if node.is_null() {
        return put_null(writer);
    }
    put_whole(writer, node)
}

/// Writes the certificate of a configuration's step, or null for configuration 0.
fn put_step(
    writer: &mut Writer,
    number: usize,
    certificates: &[Option<Certificate<Global>>],
) -> Option<()>
    requires { number < 64 }
    ensures { OnSome result (Puts (step_value number (certificate_values certificates.now)) writer.old writer.new) }
{
    if number == 0 {
        return put_null(writer);
    }
    put_certificate_at(writer, certificates, 2 * number)
}

/// Writes the claims' certificates and the other values of a configuration, with the keys in order.
fn put_fields(
    writer: &mut Writer,
    fields: &Fields<TapeNode<'_, '_>>,
    number: usize,
    certificates: &[Option<Certificate<Global>>],
) -> Option<()>
    requires { number < 64 }
    ensures { OnSome result
        (Puts (fields_object (fields_data data_of fields.now) (meets_value number (certificate_values certificates.now))
        (step_value number (certificate_values certificates.now))) writer.old writer.new) }
{
    open_object(writer)?;
    put_key(writer, "full")?;
    put_wholes(writer, &fields.full)?;
    put_key(writer, "meets")?;
    put_certificate_at(writer, certificates, (2 * number).saturating_sub(1))?;
    put_key(writer, "members")?;
    put_wholes(writer, &fields.members)?;
    put_key(writer, "parent")?;
    put_whole_or_null(writer, &fields.parent)?;
    put_key(writer, "read")?;
    put_expression(writer, &fields.read)?;
    put_key(writer, "step")?;
    put_step(writer, number, certificates)?;
    put_key(writer, "write")?;
    put_expression(writer, &fields.write)?;
    close_object(writer)
}

/// Writes a configuration with these certificates of its group.
fn put_configuration(
    writer: &mut Writer,
    node: &TapeNode<'_, '_>,
    number: usize,
    certificates: &[Option<Certificate<Global>>],
) -> Option<()>
    requires { number < 64 }
    ensures { OnSome result
        (PutsMade (configuration_written number (data_of node.now) (certificate_values certificates.now)) writer.old
        writer.new) }
{
    match fields_at(node) {
        Ok(fields) => put_fields(writer, &fields, number, certificates),
        Err(_) => None,
    }
}

/// Writes the configurations of an array with these certificates of their group.
fn put_configurations(
    writer: &mut Writer,
    list: &TapeNode<'_, '_>,
    certificates: &[Option<Certificate<Global>>],
) -> Option<()>
    ensures { OnSome result
        (PutsMade (configurations_array (items_in (data_of list.now)) (certificate_values certificates.now)) writer.old
        writer.new) }
{
    let mut rest = list.items()?;
    open_array(writer)?;
    let mut number = 0usize;
    'configurations: while let Some(node) = TapeNode::next(&mut rest) {
        if number >= 64 {
            return None;
        }
        put_configuration(writer, &node, number, certificates)?;
        number += 1;
    }
    close_array(writer)
}

/// Writes a group with these configurations.
fn put_group(
    writer: &mut Writer,
    list: &TapeNode<'_, '_>,
    certificates: &[Option<Certificate<Global>>],
) -> Option<()>
    ensures { OnSome result
        (PutsMade (group_written (items_in (data_of list.now)) (certificate_values certificates.now)) writer.old
        writer.new) }
{
    open_object(writer)?;
    put_key(writer, "configurations")?;
    put_configurations(writer, list, certificates)?;
    close_object(writer)
}

/// Returns the certificates after the first `count`.
fn after(
    certificates: &[Option<Certificate<Global>>],
    count: usize,
) -> &[Option<Certificate<Global>>]
    ensures { result.now ≡ drop count certificates.now }
{
    if count < certificates.len() {
        &certificates[count..]
    } else {
        &[]
    }
}

/// Writes the groups of an array. Each takes its certificates from the front of the list.
fn put_groups(
    writer: &mut Writer,
    list: &TapeNode<'_, '_>,
    certificates: &[Option<Certificate<Global>>],
) -> Option<()>
    ensures { OnSome result (PutsMade (groups_array (items_in (data_of list.now)) (certificate_values certificates.now))
        writer.old writer.new) }
{
    let mut rest = list.items()?;
    open_array(writer)?;
    let mut left = certificates;
    'groups: while let Some(node) = TapeNode::next(&mut rest) {
        let Ok(configurations) = group_array(&node) else {
            return None;
        };
        put_group(writer, &configurations, left)?;
        left = after(left, 2 * count_items(&configurations, 65) - 1);
    }
    close_array(writer)
}

/// Writes the number of groups at birth, which only format 3 has.
fn put_born(writer: &mut Writer, format: Format, born: u8) -> Option<()>
    ensures { OnSome result (PutsBorn format born writer.old writer.new) }
{
    match format {
        Format::Growing => put_number_at(writer, "born", u64::from(born)),
        Format::Plain | Format::Weighted => Some(()),
    }
}

/// Writes a plan with these certificates for its claims.
pub(crate) fn put_plan(
    writer: &mut Writer,
    node: &TapeNode<'_, '_>,
    certificates: &[Option<Certificate<Global>>],
) -> Option<()>
    ensures { OnSome result (PutsMade (plan_written (data_of node.now) (certificate_values certificates.now)) writer.old
        writer.new) }
{
    let Ok(header) = header(node) else {
        return None;
    };
    open_object(writer)?;
    put_born(writer, header.format, header.born)?;
    put_number_at(writer, "format", header.format.number())?;
    put_key(writer, "groups")?;
    put_groups(writer, &header.groups, certificates)?;
    put_number_at(writer, "lal", header.lal)?;
    close_object(writer)
}

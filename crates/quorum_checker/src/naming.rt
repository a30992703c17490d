//! The members that an expression names.

ghost use Rattle.std.specs.Prelude.{◌≡◌, IfOk, IfErr};
ghost use Rattle.volume_model.specs.Common.{listed};
ghost use Rattle.quorum_expr.specs.Common.{formula_of};
ghost use Rattle.quorum_checker.specs.Naming.{named};
ghost use Rattle.volume_model.specs.declared.fault.Fault.TheVariants.{NoMemory};

use quorum_expr::{Expr, MEMBERS, MemberSet};
use std::alloc::{Allocator, Global};
use volume_model::Fault;

/// Returns the members that an expression names.
pub fn members_named<A: Allocator>(expr: &Expr<A>) -> MemberSet
    ensures { result ≡ named (formula_of expr.now) }
{
    match expr {
        Expr::Member(member) => {
            if *member < MEMBERS {
                MemberSet::empty().with(*member)
            } else {
                MemberSet::empty()
            }
        }
        Expr::KOf { of, .. } => {
            let mut members = MemberSet::empty();
            for (_, child) in of {
                members = members.union(members_named(child));
            }
            members
        }
    }
}

/// Returns the members of a set, in growing order.
pub(crate) fn list_of(alloc: Global, members: MemberSet) -> Result<Vec<u8>, Fault>
    ensures listed { IfOk result (λ v. v.items ≡ listed members) }
    ensures memory { IfErr result (λ e. e ≡ NoMemory) }
{
    let mut list = Vec::new(alloc);
    for member in 0..MEMBERS {
        if members.contains(member) {
            list.push(member)?;
        }
    }
    Ok(list)
}

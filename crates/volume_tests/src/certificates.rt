//! Tests of certificates outside a search, and of what is written of a plan.

use crate::thread_plans::plan_of;
use cert_search::{NoGate, keep_shortest, search_all, search_one};
use plan::{PLAN_BYTES, Plan, PlanFault, claims, read_plan, write_plan};
use quorum_checker::check;
use quorum_expr::{Lists, MemberSet, holds, read_expr, valid};
use refutation::{Certificate, read_certificate, write_certificate};
use serde_json::Value;
use std::alloc::Global;
use std::sync::Wait;
use std::test::*;
use std::thread::Threads;
use volume_model::Fault;

/// A plan of format 1 with each rule but a match, its keys in any order, and the same with its keys in alphabetical
/// order.
const PLAIN: (&str, &str) = (
    r#"{"lal":10,"groups":[{"configurations":[{"meets":{"left":{"item":0,"side":"left","rule":"dead"},"right":{"side":"left","rule":"open","item":0,"then":{"side":"right","rule":"pick","then":[{"side":"right","rule":"dead","item":0},{"right":0,"rule":"clash","left":1}],"item":0,"children":[0,1]}},"rule":"split","member":0},"step":null,"members":[0,1],"write":{"of":[0,{"of":[1],"k":1}],"k":1},"read":{"of":"all","k":2},"parent":null,"full":[0,1]}]}],"format":1}"#,
    r#"{"format":1,"groups":[{"configurations":[{"full":[0,1],"meets":{"left":{"item":0,"rule":"dead","side":"left"},"member":0,"right":{"item":0,"rule":"open","side":"left","then":{"children":[0,1],"item":0,"rule":"pick","side":"right","then":[{"item":0,"rule":"dead","side":"right"},{"left":1,"right":0,"rule":"clash"}]}},"rule":"split"},"members":[0,1],"parent":null,"read":{"k":2,"of":"all"},"step":null,"write":{"k":1,"of":[0,{"k":1,"of":[1]}]}}]}],"lal":10}"#,
);

/// A plan of format 3 with weights, a match and a step, its keys in any order, and the same with its keys in
/// alphabetical order.
const GROWING: (&str, &str) = (
    r#"{"groups":[{"configurations":[{"meets":{"right":0,"pairs":[[0,0],[1,1]],"then":[{"rule":"clash","right":0,"left":0},{"left":1,"rule":"clash","right":0}],"rule":"match","left":0},"step":null,"members":[0,1,2],"write":{"k":2,"of":"all","weights":[2,1,1]},"read":{"k":2,"of":"full"},"parent":null,"full":[0,1]},{"full":[0,1],"read":0,"step":{"side":"left","item":0,"rule":"dead"},"parent":0,"write":{"of":"tail","k":1},"members":[0,1,2],"meets":null}]},{"configurations":[{"write":5,"parent":null,"full":[],"step":null,"members":[5],"meets":{"left":0,"rule":"clash","right":0},"read":5}]}],"format":3,"born":1,"lal":10}"#,
    r#"{"born":1,"format":3,"groups":[{"configurations":[{"full":[0,1],"meets":{"left":0,"pairs":[[0,0],[1,1]],"right":0,"rule":"match","then":[{"left":0,"right":0,"rule":"clash"},{"left":1,"right":0,"rule":"clash"}]},"members":[0,1,2],"parent":null,"read":{"k":2,"of":"full"},"step":null,"write":{"k":2,"of":"all","weights":[2,1,1]}},{"full":[0,1],"meets":null,"members":[0,1,2],"parent":0,"read":0,"step":{"item":0,"rule":"dead","side":"left"},"write":{"k":1,"of":"tail"}}]},{"configurations":[{"full":[],"meets":{"left":0,"right":0,"rule":"clash"},"members":[5],"parent":null,"read":5,"step":null,"write":5}]}],"lal":10}"#,
);

/// Four groups with one configuration each, of four, three, three and two members, which all read and all write. Their
/// certificates match four, three, three and two pairs.
const SOME_LONGER: &str = r#"{"format":1,"lal":10,"groups":[
{"configurations":[{"parent":null,"members":[0,1,2,3],"full":[],"read":{"k":4,"of":"all"},"write":{"k":4,"of":"all"},"meets":null,"step":null}]},
{"configurations":[{"parent":null,"members":[0,1,2],"full":[],"read":{"k":3,"of":"all"},"write":{"k":3,"of":"all"},"meets":null,"step":null}]},
{"configurations":[{"parent":null,"members":[0,1,2],"full":[],"read":{"k":3,"of":"all"},"write":{"k":3,"of":"all"},"meets":null,"step":null}]},
{"configurations":[{"parent":null,"members":[0,1],"full":[],"read":{"k":2,"of":"all"},"write":{"k":2,"of":"all"},"meets":null,"step":null}]}
]}"#;

/// Writes a certificate as JSON, and reads it again.
fn read_again(
    alloc: Global,
    certificate: &Option<Certificate<Global>>,
) -> Result<Option<Certificate<Global>>, Fault> {
    match certificate {
        Some(certificate) => {
            let value = write_certificate(alloc, certificate)?;
            Ok(Some(read_certificate(alloc, &value)?))
        }
        None => Ok(None),
    }
}

/// Returns the certificates of a plan in the order of its claims.
fn own_certificates(alloc: Global, plan: &Plan) -> Result<Vec<Option<Certificate<Global>>>, Fault> {
    let mut list = Vec::new(alloc);
    for group in &plan.groups {
        for configuration in &group.configurations {
            list.push(read_again(alloc, &configuration.meets)?)?;
            if configuration.parent.is_some() {
                list.push(read_again(alloc, &configuration.step)?)?;
            }
        }
    }
    Ok(list)
}

/// Returns the text of a plan with its own certificates.
fn written(alloc: Global, text: &[u8]) -> Result<Vec<u8>, PlanFault> {
    let plan = read_plan(alloc, text)?;
    let claims = claims(alloc, &plan)?;
    let certificates = own_certificates(alloc, &plan)?;
    if certificates.len() != claims.len() {
        return Err(PlanFault::Text(Fault::OverLimit));
    }
    write_plan(alloc, text, &certificates)
}

/// Returns whether the first text becomes the second when it is written with its own certificates.
fn becomes(alloc: Global, (text, other): (&str, &str)) -> bool {
    match written(alloc, text.as_bytes()) {
        Ok(bytes) => bytes.as_slice() == other.as_bytes(),
        Err(_) => false,
    }
}

#[test]
fn plans_are_written(rt: HostRuntime) {
    let alloc = rt.alloc();
    assert_eq!(rt;
        [becomes(alloc, PLAIN), becomes(alloc, GROWING)],
        [true, true]
    );
}

/// Returns which of the four certificates are kept if there is this much room.
fn kept<R: Threads + Wait + Sync>(rt: &R, alloc: Global, room: u32) -> Result<[bool; 4], Fault> {
    let plan = plan_of(alloc, SOME_LONGER)?;
    let mut certificates = search_all(rt, alloc, &plan, 1, 100_000, &NoGate)?;
    keep_shortest(alloc, &mut certificates, room)?;
    match certificates.as_slice() {
        [first, second, third, fourth] => Ok([
            first.is_some(),
            second.is_some(),
            third.is_some(),
            fourth.is_some(),
        ]),
        _ => Err(Fault::OverLimit),
    }
}

/// The shortest are kept, of equally long ones the first, as many as fit. A match takes 57 bytes, and 42 more for each
/// pair.
const KEPT: &[(u32, [bool; 4])] = &[
    (PLAN_BYTES, [true, true, true, true]),
    (732, [true, true, true, true]),
    (731, [false, true, true, true]),
    (506, [false, true, false, true]),
    (323, [false, false, false, true]),
    (140, [false, false, false, false]),
];

#[test]
fn shortest_stay(rt: HostRuntime) {
    for (room, expected) in KEPT {
        assert_eq!(rt; kept(&rt, rt.alloc(), *room), Ok(*expected));
    }
}

/// Returns whether the certificate that is found for a plan's first claim refutes the claim.
fn is_found(alloc: Global) -> Result<bool, PlanFault> {
    let plan = read_plan(alloc, SOME_LONGER.as_bytes())?;
    let claims = claims(alloc, &plan)?;
    let Some(first) = claims.first() else {
        return Ok(false);
    };
    match search_one(alloc, &first.claim, 100)? {
        Some(certificate) => Ok(check(alloc, &first.claim, &certificate).is_ok()),
        None => Ok(false),
    }
}

/// Returns whether an expression that is read from JSON asks for any two of members 0, 1 and 2.
fn is_read(alloc: Global) -> Result<bool, Fault> {
    let Ok(value) = Value::from_str(alloc, r#"{"k":2,"of":"all"}"#) else {
        return Err(Fault::Malformed);
    };
    let two = MemberSet::empty().with(0).with(2);
    let lists = Lists {
        members: two.with(1),
        full: two,
        is_weighted: false,
    };
    let expr = read_expr(alloc, &value, &lists)?;
    valid(&expr)?;
    Ok(holds(&expr, two) && !holds(&expr, two.without(2)))
}

#[test]
fn claims_and_expressions(rt: HostRuntime) {
    let alloc = rt.alloc();
    let found = is_found(alloc).unwrap_or(false);
    assert_eq!(rt; (found, is_read(alloc)), (true, Ok(true)));
}

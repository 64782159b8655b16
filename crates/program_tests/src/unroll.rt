//! Trees written by hand, and what they are without loops.

use crate::support::shown::shown;
use ba_code::fitting::loop_tree_of;
use ba_code::nodes::{Node, Operand, Take};
use ba_code::trees::Code;
use ba_items::Items;
use ba_numbers::ids::{CallId, StmtId};
use ba_tree::run::{Place, Step};
use ba_unroll::unroll;
use std::alloc::Global;
use std::panic::Expect;
use std::process::Abort;

/// An execution of a statement in the present iterations of these loops, outermost first, after call 1.
fn execution(rt: &impl Abort, alloc: Global, loops: &[u32], stmt: u32) -> Node {
    let mut path = Items::new(alloc);
    path.push(Step::Call(CallId(1))).expect(rt, "memory");
    for number in loops {
        path.push(Step::Turn(StmtId(*number), 0))
            .expect(rt, "memory");
    }
    Node::Pick {
        place: Place {
            path,
            stmt: StmtId(stmt),
        },
        take: Take::Nothing,
        keep: Vec::new(alloc),
    }
}

/// Nodes in a row.
fn row<const N: usize>(rt: &impl Abort, alloc: Global, nodes: [Node; N]) -> Vec<Node> {
    Vec::from_array(alloc, nodes).expect(rt, "memory")
}

/// A loop that goes on while variable 0 isn't 0.
fn repeat(after: bool, head: Vec<Node>, body: Vec<Node>, step: Vec<Node>, stmt: u32) -> Node {
    Node::Loop {
        after,
        head,
        when: Operand::Var(0),
        body,
        step,
        stmt: StmtId(stmt),
    }
}

/// The tree of one variable with this body is, with so many iterations, the tree that is written so.
fn expect_turns(rt: &impl Abort, alloc: Global, body: Vec<Node>, turns: u32, expected: &str) {
    let code = Code {
        vars: 1,
        arrays: Items::new(alloc),
        params: Items::new(alloc),
        body: Items::from_vec(body),
    };
    let tree = loop_tree_of(alloc, code)
        .expect(rt, "memory")
        .expect(rt, "a loop tree");
    let made = unroll(alloc, &tree, turns).expect(rt, "memory");
    assert_eq!(rt; made.vars, 1);
    assert_eq!(rt; shown(rt, alloc, made.body.as_slice()).as_str(), expected);
}

/// The sum of the numbers from 1 to n in a `for`: condition 3, body 5, step 4.
fn sum(rt: &impl Abort, alloc: Global) -> Vec<Node> {
    let head = row(rt, alloc, [execution(rt, alloc, &[3], 3)]);
    let body = row(rt, alloc, [execution(rt, alloc, &[3], 5)]);
    let step = row(rt, alloc, [execution(rt, alloc, &[3], 4)]);
    row(rt, alloc, [repeat(false, head, body, step, 3)])
}

#[test]
fn three_turns_have_three_bodies_and_four_conditions(rt: HostRuntime) {
    let body = sum(&rt, rt.alloc());
    expect_turns(
        &rt,
        rt.alloc(),
        body,
        3,
        "3( c1 3.1 ) if { 5( c1 3.1 ) 4( c1 3.1 ) 3( c1 3.2 ) if { 5( c1 3.2 ) 4( c1 3.2 ) \
        3( c1 3.3 ) if { 5( c1 3.3 ) 4( c1 3.3 ) 3( c1 3.4 ) if { beyond 3 } { } } { } } { } } { } ",
    );
}

#[test]
fn a_do_tests_behind_each_turn(rt: HostRuntime) {
    let alloc = rt.alloc();
    let head = row(&rt, alloc, [execution(&rt, alloc, &[2], 2)]);
    let body = row(&rt, alloc, [execution(&rt, alloc, &[2], 1)]);
    let nodes = row(&rt, alloc, [repeat(true, head, body, Vec::new(alloc), 2)]);
    expect_turns(
        &rt,
        alloc,
        nodes,
        2,
        "1( c1 2.1 ) 2( c1 2.1 ) if { 1( c1 2.2 ) 2( c1 2.2 ) if { beyond 2 } { } } { } ",
    );
}

#[test]
fn each_loop_has_its_own_turns(rt: HostRuntime) {
    let alloc = rt.alloc();
    let head = row(&rt, alloc, [execution(&rt, alloc, &[1, 2], 2)]);
    let body = row(&rt, alloc, [execution(&rt, alloc, &[1, 2], 3)]);
    let inner = repeat(false, head, body, Vec::new(alloc), 2);
    let head = row(&rt, alloc, [execution(&rt, alloc, &[1], 1)]);
    let body = row(&rt, alloc, [inner]);
    let nodes = row(&rt, alloc, [repeat(false, head, body, Vec::new(alloc), 1)]);
    expect_turns(
        &rt,
        alloc,
        nodes,
        1,
        "1( c1 1.1 ) if { 2( c1 1.1 2.1 ) if { 3( c1 1.1 2.1 ) 2( c1 1.1 2.2 ) if { beyond 2 } { } \
        } { } 1( c1 1.2 ) if { beyond 1 } { } } { } ",
    );
}

#[test]
fn a_leave_keeps_its_block(rt: HostRuntime) {
    let alloc = rt.alloc();
    let leave = row(&rt, alloc, [Node::Leave { label: 1 }]);
    let branch = Node::If {
        when: Operand::Var(0),
        yes: leave,
        no: Vec::new(alloc),
    };
    let head = row(&rt, alloc, [execution(&rt, alloc, &[1], 1)]);
    let body = row(&rt, alloc, [branch, execution(&rt, alloc, &[1], 2)]);
    let block = Node::Block {
        label: 1,
        body: row(&rt, alloc, [repeat(false, head, body, Vec::new(alloc), 1)]),
    };
    let nodes = row(&rt, alloc, [block]);
    expect_turns(
        &rt,
        alloc,
        nodes,
        1,
        "block 1 { 1( c1 1.1 ) if { if { leave 1 } { } 2( c1 1.1 ) 1( c1 1.2 ) if { beyond 1 } { } \
        } { } } ",
    );
}

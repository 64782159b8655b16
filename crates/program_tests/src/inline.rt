//! Programs, and the nodes that are made of them, a letter for each.

use crate::support::programs::program_of;
use ba_code::nodes::Node;
use ba_inline::inline;
use std::alloc::{AllocError, Global};
use std::panic::Expect;
use std::process::Abort;
use test_programs::examples::{ARRAYS, BEHIND, DOWN, GLOBAL, INITIALISER, JUMPS, OWN, SUM, VALUES};

/// Writes a node: a letter for what it does, and in brackets the nodes in it.
#[cycle(shapes)]
fn write_node(shape: &mut String, node: &Node) -> Result<(), AllocError> {
    match node {
        Node::Set { .. } => shape.push_str("s"),
        Node::Unary { .. } => shape.push_str("u"),
        Node::Binary { .. } => shape.push_str("b"),
        Node::Convert { .. } => shape.push_str("c"),
        Node::Load { .. } => shape.push_str("l"),
        Node::Save { .. } => shape.push_str("S"),
        Node::Fill { .. } => shape.push_str("f"),
        Node::Pick { keep, .. } => {
            shape.push_str("p(")?;
            write_nodes(shape, keep.as_slice())?;
            shape.push_str(")")
        }
        Node::If { yes, no, .. } => {
            shape.push_str("i(")?;
            write_nodes(shape, yes.as_slice())?;
            shape.push_str("|")?;
            write_nodes(shape, no.as_slice())?;
            shape.push_str(")")
        }
        Node::Block { label, body } => {
            write_label(shape, "B", *label)?;
            shape.push_str("(")?;
            write_nodes(shape, body.as_slice())?;
            shape.push_str(")")
        }
        Node::Leave { label } => write_label(shape, "^", *label),
        Node::Loop {
            head,
            body,
            step,
            ..
        } => {
            shape.push_str("o(")?;
            write_nodes(shape, head.as_slice())?;
            shape.push_str("|")?;
            write_nodes(shape, body.as_slice())?;
            shape.push_str("|")?;
            write_nodes(shape, step.as_slice())?;
            shape.push_str(")")
        }
        Node::Assert { .. } => shape.push_str("a"),
        Node::Beyond { .. } => shape.push_str("x"),
    }
}

/// Writes nodes in a row.
#[cycle(shapes)]
fn write_nodes(shape: &mut String, nodes: &[Node]) -> Result<(), AllocError> {
    for node in nodes {
        write_node(shape, node)?;
    }
    Ok(())
}

/// Writes a letter and a label.
fn write_label(shape: &mut String, letter: &str, label: u32) -> Result<(), AllocError> {
    shape.push_str(letter)?;
    match label {
        0 => shape.push_str("0"),
        1 => shape.push_str("1"),
        2 => shape.push_str("2"),
        _ => shape.push_str("?"),
    }
}

/// The nodes that stand for a program.
fn shape_of(rt: &impl Abort, alloc: Global, program: &str, frames: u32) -> String {
    let program = program_of(rt, alloc, program);
    let tree = inline(alloc, &program, frames).expect(rt, "memory");
    let mut shape = String::new(alloc);
    write_nodes(&mut shape, tree.body.as_slice()).expect(rt, "memory");
    shape
}

/// Whether these nodes stand for a program.
fn has_shape(rt: &impl Abort, alloc: Global, program: &str, frames: u32, expected: &str) -> bool {
    let shape = shape_of(rt, alloc, program, frames);
    shape.as_str() == expected
}

/// How many calls of a program go past so many frames.
fn calls_beyond(rt: &impl Abort, alloc: Global, program: &str, frames: u32) -> usize {
    let shape = shape_of(rt, alloc, program, frames);
    shape
        .as_bytes()
        .iter()
        .filter(|byte| **byte == b'x')
        .count()
}

/// A global on the left of a call that changes it.
const KEPT: &str = "int g;
int f(void) {
    g = 1;
    return 0;
}
int main(void) {
    int x;
    x = g + f();
    return x;
}
";

/// A function whose one `return` is at its end.
const LAST: &str = "int f(int x) {
    int y = x + 1;
    return y;
}
int main(int x) {
    assert(f(x) == 3);
    return 0;
}
";

/// A function with a `return` before its end.
const EARLY: &str = "int f(int x) {
    if (x)
        return 1;
    return 2;
}
int main(int x) {
    return f(x);
}
";

/// A function with a `return` at the end of each branch.
const BRANCHES: &str = "int f(int x) {
    if (x) {
        return 1;
    } else if (x)
        return 2;
    else
        return 3;
}
int main(int x) {
    return f(x);
}
";

/// A `return` in a loop.
const INSIDE: &str = "int main(void) {
    int x;
    while (x)
        return 1;
    return x;
}
";

/// Programs with bounds on frames, and the nodes that stand for them.
static SHAPES: [(&str, u32, &str); 14] = [
    (GLOBAL, 16, "sp(sp(s)p(s)ss)basp(s)"),
    (GLOBAL, 1, "sp(xs)basp(s)"),
    (KEPT, 16, "sp(ssp(s)p(s)bssss)p(s)"),
    (INITIALISER, 1, "p(bss)p(s)"),
    (
        SUM,
        1,
        "ssp(css)p(css)B1(o(p(bss)|B2(sp(bss))|p(cbsss)))scbassp(s)",
    ),
    (
        ARRAYS,
        3,
        "fp(sfsfp(s)i(sp(bsfsfp(s)i(sp(bxs)|s)lbassp(S)sss)|s)lbassp(S)ss)lbass",
    ),
    (
        VALUES,
        1,
        "succbbasssssp(css)cbi(i(s|buuss)uuss|s)asssi(s|bss)bassp(bs)",
    ),
    (
        JUMPS,
        1,
        "sp(s)B1(o(p(bss)|B2(sp(bss)i(s^1|s)^2)|p(bss)))sbas",
    ),
    (BEHIND, 1, "sB1(o(p(s)|B2(sp(bss))|))sbas"),
    (OWN, 1, "fp(lfs)lbass"),
    (LAST, 2, "ssssp(bss)p(s)ssbassp(s)"),
    (EARLY, 2, "p(ssB0(p(s)i(sp(s)^0|s)p(s))sss)"),
    (BRANCHES, 2, "p(ssp(s)i(sp(s)|sp(s)i(sp(s)|sp(s)))sss)"),
    (INSIDE, 1, "B0(sB1(o(p(s)|B2(sp(s)^0)|))sp(s))"),
];

#[test]
fn nodes_stand_for_programs_as_worked_out(rt: HostRuntime) {
    for row in &SHAPES {
        let (program, frames, expected) = *row;
        assert!(rt; has_shape(&rt, rt.alloc(), program, frames, expected));
    }
}

#[test]
fn a_function_that_calls_itself_once_goes_past_the_depth_at_one_call(rt: HostRuntime) {
    for frames in [1, 2, 16] {
        assert_eq!(rt; calls_beyond(&rt, rt.alloc(), DOWN, frames), 1);
    }
}

//! The edits of one statement of every form, which were written by hand.

use crate::support::programs::program_of;
use ba_numbers::ids::StmtId;
use ba_numbers::numbers::BinOp;
use ba_repair::{Change, Edit, edits};
use std::alloc::Global;
use std::panic::Expect;
use std::process::Abort;

/// Every form of statement, and of expression.
const FORMS: &str = "enum { TWO = 2, THREE };
int table[4] = {1, TWO};
unsigned top = 5u;
int less(int x[], int y) {
    return x[0] < y && y || -5;
}
int main(int a) {
    char c = 'A' + 1;
    int i;
    table[i + 1] += a * 3;
    for (i = 0; ; i++) {
        if (a ? i >= 3 : top > 0)
            break;
    }
    switch (a - 1) {
    case TWO:
        a = less(table, 7);
    default:
        less(table, !a == 0);
    }
    do {
        printf(\"%d\", a << 2, a != 1);
    } while ((char)a <= 2147483647);
    while (0)
        ;
    assert(a == 0u);
    return THREE;
}
";

/// The statement, the node and the change of each edit, in order.
static EDITS: [(u32, u32, Change); 63] = [
    (1, 1, Change::Constant { from: 1, to: 0 }),
    (1, 1, Change::Constant { from: 1, to: 2 }),
    (1, 2, Change::Constant { from: 2, to: 1 }),
    (1, 2, Change::Constant { from: 2, to: 3 }),
    (2, 1, Change::Constant { from: 5, to: 4 }),
    (2, 1, Change::Constant { from: 5, to: 6 }),
    (3, 1, Change::ToAnd),
    (3, 2, Change::ToOr),
    (
        3,
        3,
        Change::Operator {
            from: BinOp::Lt,
            to: BinOp::Le,
        },
    ),
    (3, 4, Change::Constant { from: 0, to: -1 }),
    (3, 4, Change::Constant { from: 0, to: 1 }),
    (3, 5, Change::Constant { from: 5, to: 4 }),
    (3, 5, Change::Constant { from: 5, to: 6 }),
    (
        4,
        1,
        Change::Operator {
            from: BinOp::Add,
            to: BinOp::Sub,
        },
    ),
    (4, 2, Change::Constant { from: 65, to: 64 }),
    (4, 2, Change::Constant { from: 65, to: 66 }),
    (4, 3, Change::Constant { from: 1, to: 0 }),
    (4, 3, Change::Constant { from: 1, to: 2 }),
    (
        5,
        1,
        Change::Operator {
            from: BinOp::Add,
            to: BinOp::Sub,
        },
    ),
    (5, 2, Change::Constant { from: 1, to: 0 }),
    (5, 2, Change::Constant { from: 1, to: 2 }),
    (
        5,
        3,
        Change::Operator {
            from: BinOp::Add,
            to: BinOp::Sub,
        },
    ),
    (
        5,
        4,
        Change::Operator {
            from: BinOp::Add,
            to: BinOp::Sub,
        },
    ),
    (5, 5, Change::Constant { from: 1, to: 0 }),
    (5, 5, Change::Constant { from: 1, to: 2 }),
    (5, 6, Change::Constant { from: 3, to: 2 }),
    (5, 6, Change::Constant { from: 3, to: 4 }),
    (6, 1, Change::Constant { from: 0, to: -1 }),
    (6, 1, Change::Constant { from: 0, to: 1 }),
    (7, 1, Change::Constant { from: 1, to: 0 }),
    (7, 1, Change::Constant { from: 1, to: 2 }),
    (
        8,
        1,
        Change::Operator {
            from: BinOp::Add,
            to: BinOp::Sub,
        },
    ),
    (8, 2, Change::Constant { from: 1, to: 0 }),
    (8, 2, Change::Constant { from: 1, to: 2 }),
    (
        9,
        1,
        Change::Operator {
            from: BinOp::Ge,
            to: BinOp::Gt,
        },
    ),
    (9, 2, Change::Constant { from: 3, to: 2 }),
    (9, 2, Change::Constant { from: 3, to: 4 }),
    (
        9,
        3,
        Change::Operator {
            from: BinOp::Gt,
            to: BinOp::Ge,
        },
    ),
    (9, 4, Change::Constant { from: 0, to: -1 }),
    (9, 4, Change::Constant { from: 0, to: 1 }),
    (
        10,
        1,
        Change::Operator {
            from: BinOp::Sub,
            to: BinOp::Add,
        },
    ),
    (10, 2, Change::Constant { from: 1, to: 0 }),
    (10, 2, Change::Constant { from: 1, to: 2 }),
    (11, 1, Change::Constant { from: 7, to: 6 }),
    (11, 1, Change::Constant { from: 7, to: 8 }),
    (
        12,
        1,
        Change::Operator {
            from: BinOp::Eq,
            to: BinOp::Ne,
        },
    ),
    (12, 2, Change::Constant { from: 0, to: -1 }),
    (12, 2, Change::Constant { from: 0, to: 1 }),
    (13, 1, Change::Constant { from: 2, to: 1 }),
    (13, 1, Change::Constant { from: 2, to: 3 }),
    (
        13,
        2,
        Change::Operator {
            from: BinOp::Ne,
            to: BinOp::Eq,
        },
    ),
    (13, 3, Change::Constant { from: 1, to: 0 }),
    (13, 3, Change::Constant { from: 1, to: 2 }),
    (
        14,
        1,
        Change::Operator {
            from: BinOp::Le,
            to: BinOp::Lt,
        },
    ),
    (
        14,
        2,
        Change::Constant {
            from: 2147483647,
            to: 2147483646,
        },
    ),
    (
        14,
        2,
        Change::Constant {
            from: 2147483647,
            to: -2147483648,
        },
    ),
    (15, 1, Change::Constant { from: 0, to: -1 }),
    (15, 1, Change::Constant { from: 0, to: 1 }),
    (
        16,
        1,
        Change::Operator {
            from: BinOp::Eq,
            to: BinOp::Ne,
        },
    ),
    (
        16,
        2,
        Change::Constant {
            from: 0,
            to: 4294967295,
        },
    ),
    (16, 2, Change::Constant { from: 0, to: 1 }),
    (17, 1, Change::Constant { from: 3, to: 2 }),
    (17, 1, Change::Constant { from: 3, to: 4 }),
];

/// The edits of the statements of these numbers, and of one that is not there.
fn edits_of(rt: &impl Abort, alloc: Global, program: &str, last: u32) -> Vec<Edit> {
    let program = program_of(rt, alloc, program);
    let mut stmts = Vec::new(alloc);
    for number in 1..=last {
        stmts.push(StmtId(number)).expect(rt, "memory");
    }
    stmts.push(StmtId(4000)).expect(rt, "memory");
    edits(alloc, &program, stmts.as_slice()).expect(rt, "memory")
}

/// Whether edits are those of these rows.
fn are_edits(edits: &[Edit], rows: &[(u32, u32, Change)]) -> bool {
    edits.len() == rows.len()
        && edits.iter().zip(rows.iter()).all(|(edit, row)| edit.stmt.0 == row.0
            && edit.node == row.1
            && edit.change == row.2)
}

#[test]
fn edits_are_listed(rt: HostRuntime) {
    let edits = edits_of(&rt, rt.alloc(), FORMS, 17);
    assert!(rt; are_edits(edits.as_slice(), EDITS.as_slice()));
}

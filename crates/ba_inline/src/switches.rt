//! The code of `switch`.

ghost use Rattle.std.specs.Prelude.{◌≡◌, true, length, OnOk};
ghost use Rattle.ba_inline.specs.Inlining.{Executes};
ghost use Rattle.ba_inline.specs.Making.{AreSettled};
ghost use Rattle.ba_inline.specs.Names.{with_home};
ghost use Rattle.ba_inline.specs.Switching.{guarded_part, switch_part};

use crate::blocks::wrap_block;
use crate::declared::Declared;
use crate::frames::{BROKEN, Inliner, Wanted, in_step};
use crate::labels::{Group, Labels, add_where, entry_flags, flag_at, group_for};
use ba_code::nodes::{Node, Operand};
use ba_tree::tree::{Expr, Stmt};
use std::alloc::AllocError;

impl<'a> Inliner<'a> {
    /// The code of a `switch`: a block that a `break` leaves. In it each statement runs if the label of
    /// the value, or else `default`, is before it.
    #[cycle(inline)]
    #[inline(never)]
    pub fn switch(
        &self,
        declared: &mut Declared,
        out: &mut Vec<Node>,
        labels: &Labels,
        on: &Expr,
        body: &[Stmt],
    ) -> Result<(), AllocError>
        ensures { OnOk result (Executes self.now (λ p frame. switch_part p frame labels.now.stmt
            labels.now.t on.now labels.now.starts.now labels.now.other body.now)
            declared.old declared.new out.old.items out.new.items) }
    {
        let since = declared.moment();
        let to = declared.variable(labels.t)?;
        let start = out.len();
        self.given_to(labels.stmt, Wanted::Value(labels.t), to, declared, out, on)?;
        let flags = entry_flags(
            self.setting.alloc,
            declared,
            out,
            labels,
            Operand::Var(to),
            body.len(),
        )?;
        let inside = Inliner {
            frame: in_step(self.frame),
            ..*self
        };
        inside.guarded(declared, out, body, flags.as_slice())?;
        wrap_block(self.setting.alloc, out, start, BROKEN)?;
        declared.wipe(since, self.frame.home, out)
    }

    /// The code of statements in a row, each of which runs if its flag is set. Neighbours with the same
    /// flag are one group.
    #[cycle(inline)]
    fn guarded(
        &self,
        declared: &mut Declared,
        out: &mut Vec<Node>,
        body: &[Stmt],
        flags: &[Operand],
    ) -> Result<(), AllocError>
        ensures { OnOk result (length flags.now ≡ length body.now
            → AreSettled true (with_home self.now.frame.home self.now.scope.now) declared.old flags.now
            → Executes self.now (λ p frame. guarded_part p frame body.now flags.now)
            declared.old declared.new out.old.items out.new.items) }
    {
        let mut group = Group {
            when: Operand::Const(0),
            nodes: Vec::new(self.setting.alloc),
        };
        for (place, stmt) in body.iter().enumerate() {
            group = group_for(self.setting.alloc, out, group, flag_at(flags, place))?;
            self.statement(declared, &mut group.nodes, stmt)?;
        }
        let Group { when, nodes } = group;
        add_where(self.setting.alloc, out, when, nodes)
    }
}

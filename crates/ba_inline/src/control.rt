//! The code of statements in a row, of conditions' branches and of loops.

ghost use Rattle.std.specs.Prelude.{OnOk};
ghost use Rattle.ba_inline.specs.Inlining.{Executes};
ghost use Rattle.ba_inline.specs.Parts.{loop_part, optional_part, stmt_part, stmts_part};
ghost use Rattle.ba_inline.specs.Repeating.{parts_of};

use crate::blocks::{wrap_branches, wrap_loop};
use crate::declared::Declared;
use crate::emit::{add_assert, add_leave, add_zero};
use crate::frames::{Inliner, RETURNED, Wanted, break_label, continue_label, in_body, in_step};
use crate::labels::Labels;
use crate::leaves::{declare, extended};
use ba_code::nodes::{Node, Operand};
use ba_numbers::ids::StmtId;
use ba_numbers::numbers::CType;
use ba_tree::run::Step;
use ba_tree::tree::{Expr, Stmt};
use std::alloc::AllocError;

impl<'a> Inliner<'a> {
    /// The code of a statement.
    #[cycle(inline)]
    pub fn statement(
        &self,
        declared: &mut Declared,
        out: &mut Vec<Node>,
        stmt: &Stmt,
    ) -> Result<(), AllocError>
        ensures { OnOk result (Executes self.now (λ p frame. stmt_part p frame stmt.now)
            declared.old declared.new out.old.items out.new.items) }
    {
        match stmt {
            Stmt::Block { body } => { self.statements(declared, out, body.as_slice()) }
            Stmt::Declare { var } => declare(self.setting, self.scope, declared, out, *var),
            Stmt::Init { stmt, var, value } => self.assign(*stmt, declared, out, *var, value),
            Stmt::InitArray {
                stmt,
                array,
                values,
            } => self.init_array(*stmt, declared, out, *array, values.as_slice()),
            Stmt::Assign { stmt, var, value } => self.assign(*stmt, declared, out, *var, value),
            Stmt::Store {
                stmt,
                array,
                index,
                value,
            } => self.store(*stmt, declared, out, *array, index, value),
            Stmt::If {
                stmt,
                when,
                yes,
                no,
            } => {
                let to = self.condition(*stmt, declared, out, when)?;
                let start = out.len();
                add_zero(out, to)?;
                self.statement(declared, out, yes)?;
                let middle = out.len();
                add_zero(out, to)?;
                self.optional(declared, out, no)?;
                wrap_branches(self.setting.alloc, out, start, middle, Operand::Var(to))
            }
            Stmt::Switch {
                stmt,
                t,
                on,
                starts,
                other,
                body,
            } => {
                let labels = Labels {
                    stmt: *stmt,
                    t: *t,
                    starts: starts.as_slice(),
                    other: *other,
                };
                self.switch(declared, out, &labels, on, body.as_slice())
            }
            Stmt::While { stmt, when, body } => self.repeat(
                declared,
                out,
                false,
                *stmt,
                when,
                body,
                &[],
            ),
            Stmt::DoWhile { stmt, when, body } => self.repeat(
                declared,
                out,
                true,
                *stmt,
                when,
                body,
                &[],
            ),
            Stmt::For {
                stmt,
                first,
                when,
                step,
                body,
            } => {
                self.statements(declared, out, first.as_slice())?;
                self.repeat(declared, out, false, *stmt, when, body, step.as_slice())
            }
            Stmt::Break => add_leave(out, break_label(self.frame.exits)),
            Stmt::Continue => add_leave(out, continue_label(self.frame.exits)),
            Stmt::Return { stmt, value } => {
                let t = self.frame.result.unwrap_or(CType::I32);
                self.given_to(
                    *stmt,
                    Wanted::Value(t),
                    self.frame.home,
                    declared,
                    out,
                    value,
                )?;
                add_leave(out, RETURNED)
            }
            Stmt::ReturnNone => {
                add_zero(out, self.frame.home)?;
                add_leave(out, RETURNED)
            }
            Stmt::CallStmt {
                stmt,
                call,
                function,
                args,
            } => self.call_statement(*stmt, declared, out, *call, *function, args.as_slice()),
            Stmt::Print { stmt, args } => self.print(*stmt, declared, out, args.as_slice()),
            Stmt::Assert { stmt, when } => {
                let since = declared.moment();
                let value = self.expression(*stmt, declared, out, when)?;
                add_assert(out, value, *stmt)?;
                declared.give_back(since, self.frame.home, out)
            }
        }
    }

    /// The code of the statement after an `else`, if there is one.
    #[cycle(inline)]
    fn optional(
        &self,
        declared: &mut Declared,
        out: &mut Vec<Node>,
        stmt: &Option<Box<Stmt>>,
    ) -> Result<(), AllocError>
        ensures { OnOk result (Executes self.now (λ p frame. optional_part p frame stmt.now)
            declared.old declared.new out.old.items out.new.items) }
    {
        match stmt {
            Some(stmt) => self.statement(declared, out, stmt),
            None => Ok(()),
        }
    }

    /// The code of statements in a row.
    #[cycle(inline)]
    pub fn statements(
        &self,
        declared: &mut Declared,
        out: &mut Vec<Node>,
        body: &[Stmt],
    ) -> Result<(), AllocError>
        ensures { OnOk result (Executes self.now (λ p frame. stmts_part p frame body.now)
            declared.old declared.new out.old.items out.new.items) }
    {
        for stmt in body {
            self.statement(declared, out, stmt)?;
        }
        Ok(())
    }

    /// The code of a loop. Its condition comes before each iteration, or after it if `after` is true;
    /// `step` is that of a `for`.
    #[cycle(inline)]
    #[inline(never)]
    fn repeat(
        &self,
        declared: &mut Declared,
        out: &mut Vec<Node>,
        after: bool,
        stmt: StmtId,
        when: &Expr,
        body: &Stmt,
        step: &[Stmt],
    ) -> Result<(), AllocError>
        ensures { OnOk result (Executes self.now (λ p frame. loop_part p frame
            (parts_of after stmt when.now body.now step.now))
            declared.old declared.new out.old.items out.new.items) }
    {
        let path = extended(self.setting.alloc, self.path, Step::Turn(stmt, 0))?;
        let head = Inliner {
            path: path.as_slice(),
            ..*self
        };
        let turn = Inliner {
            frame: in_body(self.frame),
            ..head
        };
        let last = Inliner {
            frame: in_step(self.frame),
            ..head
        };
        let start = out.len();
        let to = head.condition(stmt, declared, out, when)?;
        let head_end = out.len();
        add_zero(out, to)?;
        turn.statement(declared, out, body)?;
        let body_end = out.len();
        last.statements(declared, out, step)?;
        wrap_loop(
            self.setting.alloc,
            out,
            start,
            head_end,
            body_end,
            after,
            stmt,
            to,
        )?;
        add_zero(out, to)
    }
}

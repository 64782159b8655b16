//! The code of calls: arguments, frames and bodies.

ghost use Rattle.std.specs.Prelude.{false, IfOk, OnOk};
ghost use Rattle.ba_inline.specs.Calling.{has_call};
ghost use Rattle.ba_inline.specs.Inlining.{Assigns, Calls, EvaluatesArgument, EvaluatesArguments, Executes};
ghost use Rattle.ba_inline.specs.Invoking.{invoke_part};
ghost use Rattle.ba_inline.specs.Making.{AreGiven};
ghost use Rattle.ba_inline.specs.Parts.{call_part, call_stmt_part, given_part};

use crate::binding::begin_frame;
use crate::blocks::add_body;
use crate::declared::Declared;
use crate::emit::{add, add_pick, add_set};
use crate::expressions::any_arg_has_call;
use crate::frames::{Exits, Frame, Given, Inliner, Wanted, take_of};
use crate::leaves::extended;
use ba_code::nodes::{Node, Operand, Take};
use ba_numbers::ids::{CallId, FnId, StmtId};
use ba_numbers::numbers::CType;
use ba_tree::lookup::function_of;
use ba_tree::run::Step;
use ba_tree::tree::{Arg, Expr};
use std::alloc::AllocError;

impl<'a> Inliner<'a> {
    /// The code of an argument, and what it gives to a parameter.
    #[cycle(inline)]
    fn argument(
        &self,
        here: StmtId,
        declared: &mut Declared,
        out: &mut Vec<Node>,
        arg: &Arg,
        keep: bool,
    ) -> Result<Given, AllocError>
        ensures { IfOk result (λ given. EvaluatesArgument self.now here arg.now keep given
            declared.old declared.new out.old.items out.new.items) }
    {
        match arg {
            Arg::Value(value) => {
                let value = self.kept_expression(here, declared, out, value, keep)?;
                Ok(Given::Value(value))
            }
            Arg::Array(array) => Ok(Given::Array(self.scope.location(*array))),
        }
    }

    /// The code of arguments, from left to right, and what they give to the parameters.
    #[cycle(inline)]
    fn arguments(
        &self,
        here: StmtId,
        declared: &mut Declared,
        out: &mut Vec<Node>,
        args: &[Arg],
    ) -> Result<Vec<Given>, AllocError>
        ensures { IfOk result (λ given. EvaluatesArguments self.now here args.now given.items
            declared.old declared.new out.old.items out.new.items) }
    {
        let keep = any_arg_has_call(args);
        let mut given = Vec::with_capacity(self.setting.alloc, args.len())?;
        for arg in args {
            given.push(self.argument(here, declared, out, arg, keep)?)?;
        }
        Ok(given)
    }

    /// The code of a call, and the operand of its result.
    #[cycle(inline)]
    #[inline(never)]
    pub fn call_value(
        &self,
        here: StmtId,
        declared: &mut Declared,
        out: &mut Vec<Node>,
        call: CallId,
        function: FnId,
        args: &[Arg],
    ) -> Result<Operand, AllocError>
        ensures { IfOk result (λ operand. Calls self.now
            (λ p frame. call_part p frame here call function args.now) operand
            declared.old declared.new out.old.items out.new.items) }
    {
        let given = self.arguments(here, declared, out, args)?;
        let path = extended(self.setting.alloc, self.path, Step::Call(call))?;
        let inside = Inliner {
            path: path.as_slice(),
            ..*self
        };
        inside.invoke(here, declared, out, function, given.as_slice())
    }

    /// The code of a function's body in a new frame, and the operand of its result.
    #[cycle(inline)]
    #[inline(never)]
    fn invoke(
        &self,
        here: StmtId,
        declared: &mut Declared,
        out: &mut Vec<Node>,
        function: FnId,
        given: &[Given],
    ) -> Result<Operand, AllocError>
        ensures { IfOk result (λ operand. AreGiven false self.now.scope.now declared.old given.now
            → Calls self.now (λ p frame. invoke_part p frame here function given.now) operand
            declared.old declared.new out.old.items out.new.items) }
    {
        if self.frame.frames == 0 {
            add(out, Node::Beyond { stmt: here })?;
            return Ok(Operand::Const(0));
        }
        let Some(function) = function_of(self.setting.program, function) else {
            return Err(AllocError);
        };
        let since = declared.moment();
        let scope = begin_frame(self.setting, self.scope, declared, out, function, given)?;
        let home = declared.variable(function.result.unwrap_or(CType::I32))?;
        add_set(out, home, Operand::Const(0))?;
        let frame = Frame {
            home,
            exits: Exits {
                breaks: false,
                continues: false,
            },
            result: function.result,
            frames: self.frame.frames - 1,
        };
        let mut body = Vec::new(self.setting.alloc);
        let inside = Inliner {
            scope: &scope,
            frame,
            ..*self
        };
        inside.statements(declared, &mut body, function.body.as_slice())?;
        add_body(out, body)?;
        declared.give_back(since, home, out)?;
        declared.use_on(home)?;
        Ok(Operand::Var(home))
    }

    /// The code that sets a variable to the value of an expression, or to that of the choice in its
    /// place.
    #[cycle(inline)]
    #[inline(never)]
    pub fn given_to(
        &self,
        stmt: StmtId,
        wanted: Wanted,
        to: u32,
        declared: &mut Declared,
        out: &mut Vec<Node>,
        expr: &Expr,
    ) -> Result<(), AllocError>
        ensures { OnOk result (Assigns self.now (λ p frame. given_part p frame stmt wanted expr.now)
            (has_call expr.now) to declared.old declared.new out.old.items out.new.items) }
    {
        let mut keep = Vec::new(self.setting.alloc);
        self.expression_to(stmt, declared, &mut keep, expr, to)?;
        add_pick(
            self.setting.alloc,
            out,
            self.path,
            stmt,
            take_of(wanted, to),
            keep,
        )
    }

    /// The code of a call statement.
    #[cycle(inline)]
    #[inline(never)]
    pub fn call_statement(
        &self,
        stmt: StmtId,
        declared: &mut Declared,
        out: &mut Vec<Node>,
        call: CallId,
        function: FnId,
        args: &[Arg],
    ) -> Result<(), AllocError>
        ensures { OnOk result (Executes self.now
            (λ p frame. call_stmt_part p frame stmt call function args.now)
            declared.old declared.new out.old.items out.new.items) }
    {
        let since = declared.moment();
        let mut keep = Vec::new(self.setting.alloc);
        self.call_value(stmt, declared, &mut keep, call, function, args)?;
        declared.give_back(since, self.frame.home, &mut keep)?;
        add_pick(
            self.setting.alloc,
            out,
            self.path,
            stmt,
            Take::Nothing,
            keep,
        )
    }
}

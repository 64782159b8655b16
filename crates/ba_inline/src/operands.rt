//! The code of expressions, and the operands that have their values.

ghost use Rattle.std.specs.Prelude.{◌≡◌, false, length, IfOk, OnOk};
ghost use Rattle.ba_inline.specs.Calling.{has_call};
ghost use Rattle.ba_inline.specs.Forms.{HoldsThree, HoldsTwo};
ghost use Rattle.ba_inline.specs.Inlining.{Assigns, Decides, Evaluates, EvaluatesAll};
ghost use Rattle.ba_inline.specs.Parts.{truth_part, value_part};
ghost use Rattle.ba_tree.specs.declared.tree.Expr as tree;
ghost use Rattle.ba_tree.specs.declared.tree.Expr.{Expr};

use crate::declared::Declared;
use crate::emit::{add_binary, add_convert, add_if, add_load, add_set, add_unary};
use crate::expressions::{any_has_call, has_call, tested_in, type_of};
use crate::frames::{Inliner, Wanted};
use ba_code::nodes::{Node, Operand};
use ba_numbers::ids::StmtId;
use ba_numbers::numbers::{CType, UnOp};
use ba_numbers::types::{type_of_binary, type_of_unary};
use ba_tree::lookup::variable_of;
use ba_tree::tree::Expr;
use std::alloc::AllocError;

impl<'a> Inliner<'a> {
    /// The code of an expression, within a statement, and the operand of its value.
    #[cycle(inline)]
    pub fn expression(
        &self,
        here: StmtId,
        declared: &mut Declared,
        out: &mut Vec<Node>,
        expr: &Expr,
    ) -> Result<Operand, AllocError>
        ensures { IfOk result (λ operand. Evaluates self.now here expr.now false operand
            declared.old declared.new out.old.items out.new.items) }
    {
        match expr {
            Expr::Const { value, .. } => Ok(Operand::Const(*value)),
            Expr::Var { var } => Ok(self.scope.value(*var)),
            Expr::Element { array, index } => {
                let number = self.scope.array(*array)?;
                let index = self.expression(here, declared, out, index)?;
                let to = declared.variable(variable_of(self.setting.program, *array).t)?;
                add_load(out, to, number, index, here)?;
                Ok(Operand::Var(to))
            }
            Expr::Unary { op, t, a } => {
                let a = self.expression(here, declared, out, a)?;
                let to = declared.variable(type_of_unary(*op, *t))?;
                add_unary(out, to, *op, *t, a)?;
                Ok(Operand::Var(to))
            }
            Expr::Binary { op, t, a, b } => {
                let keep = has_call(b);
                let a = self.kept_expression(here, declared, out, a, keep)?;
                let b = self.expression(here, declared, out, b)?;
                let to = declared.variable(type_of_binary(*op, *t))?;
                add_binary(out, to, *op, *t, a, b, here)?;
                Ok(Operand::Var(to))
            }
            Expr::AndAlso { a, b } => self.and_also(here, declared, out, a, b),
            Expr::OrElse { a, b } => self.or_else(here, declared, out, a, b),
            Expr::Select { t, when, yes, no } => self.selected(
                here, declared, out, *t, when, yes, no,
            ),
            Expr::Convert { t, a } => {
                let a = self.expression(here, declared, out, a)?;
                let to = declared.variable(*t)?;
                add_convert(out, to, *t, a)?;
                Ok(Operand::Var(to))
            }
            Expr::Call {
                call,
                function,
                args,
            } => self.call_value(here, declared, out, *call, *function, args.as_slice()),
        }
    }

    /// The code of `a && b`, and the operand of its value.
    #[cycle(inline)]
    #[inline(never)]
    fn and_also(
        &self,
        here: StmtId,
        declared: &mut Declared,
        out: &mut Vec<Node>,
        a: &Expr,
        b: &Expr,
    ) -> Result<Operand, AllocError>
        ensures { IfOk result (λ operand. (whole : Expr) → HoldsTwo tree.AndAlso whole a.now b.now
            → Evaluates self.now here whole false operand
            declared.old declared.new out.old.items out.new.items) }
    {
        let a = self.expression(here, declared, out, a)?;
        let to = declared.variable(CType::I32)?;
        let mut yes = Vec::new(self.setting.alloc);
        self.truth_to(here, declared, &mut yes, b, to)?;
        let mut no = Vec::new(self.setting.alloc);
        add_set(&mut no, to, Operand::Const(0))?;
        add_if(out, a, yes, no)?;
        Ok(Operand::Var(to))
    }

    /// The code of `a || b`, and the operand of its value.
    #[cycle(inline)]
    #[inline(never)]
    fn or_else(
        &self,
        here: StmtId,
        declared: &mut Declared,
        out: &mut Vec<Node>,
        a: &Expr,
        b: &Expr,
    ) -> Result<Operand, AllocError>
        ensures { IfOk result (λ operand. (whole : Expr) → HoldsTwo tree.OrElse whole a.now b.now
            → Evaluates self.now here whole false operand
            declared.old declared.new out.old.items out.new.items) }
    {
        let a = self.expression(here, declared, out, a)?;
        let to = declared.variable(CType::I32)?;
        let mut yes = Vec::new(self.setting.alloc);
        add_set(&mut yes, to, Operand::Const(1))?;
        let mut no = Vec::new(self.setting.alloc);
        self.truth_to(here, declared, &mut no, b, to)?;
        add_if(out, a, yes, no)?;
        Ok(Operand::Var(to))
    }

    /// The code of `when ? a : b`, of this type, and the operand of its value.
    #[cycle(inline)]
    #[inline(never)]
    fn selected(
        &self,
        here: StmtId,
        declared: &mut Declared,
        out: &mut Vec<Node>,
        t: CType,
        when: &Expr,
        a: &Expr,
        b: &Expr,
    ) -> Result<Operand, AllocError>
        ensures { IfOk result (λ operand. (whole : Expr)
            → HoldsThree (tree.Select t) whole when.now a.now b.now
            → Evaluates self.now here whole false operand
            declared.old declared.new out.old.items out.new.items) }
    {
        let when = self.expression(here, declared, out, when)?;
        let to = declared.variable(t)?;
        let mut yes = Vec::new(self.setting.alloc);
        self.expression_to(here, declared, &mut yes, a, to)?;
        let mut no = Vec::new(self.setting.alloc);
        self.expression_to(here, declared, &mut no, b, to)?;
        add_if(out, when, yes, no)?;
        Ok(Operand::Var(to))
    }

    /// The code of an expression, and an operand of its value. If `keep` is true, later calls do not
    /// change the operand.
    #[cycle(inline)]
    pub fn kept_expression(
        &self,
        here: StmtId,
        declared: &mut Declared,
        out: &mut Vec<Node>,
        expr: &Expr,
        keep: bool,
    ) -> Result<Operand, AllocError>
        ensures { IfOk result (λ operand. Evaluates self.now here expr.now keep operand
            declared.old declared.new out.old.items out.new.items) }
    {
        let operand = self.expression(here, declared, out, expr)?;
        if !keep {
            return Ok(operand);
        }
        match operand {
            Operand::Const(_) => Ok(operand),
            Operand::Var(_) => {
                let to = declared.variable(type_of(self.setting.program, expr))?;
                add_set(out, to, operand)?;
                Ok(Operand::Var(to))
            }
        }
    }

    /// The code that sets a variable to the value of an expression.
    #[cycle(inline)]
    pub fn expression_to(
        &self,
        here: StmtId,
        declared: &mut Declared,
        out: &mut Vec<Node>,
        expr: &Expr,
        to: u32,
    ) -> Result<(), AllocError>
        ensures { OnOk result (Assigns self.now (λ p frame. value_part p frame here expr.now)
            (has_call expr.now) to declared.old declared.new out.old.items out.new.items) }
    {
        let since = declared.moment();
        let operand = self.expression(here, declared, out, expr)?;
        add_set(out, to, operand)?;
        declared.give_back(since, to, out)
    }

    /// The code that sets a variable to 1 if the value of an expression isn't 0, and else to 0.
    #[cycle(inline)]
    fn truth_to(
        &self,
        here: StmtId,
        declared: &mut Declared,
        out: &mut Vec<Node>,
        expr: &Expr,
        to: u32,
    ) -> Result<(), AllocError>
        ensures { OnOk result (Assigns self.now (λ p frame. truth_part p frame here expr.now)
            (has_call expr.now) to declared.old declared.new out.old.items out.new.items) }
    {
        let since = declared.moment();
        let operand = self.expression(here, declared, out, expr)?;
        let between = declared.variable(CType::I32)?;
        let t = tested_in(type_of(self.setting.program, expr));
        add_unary(out, between, UnOp::IsZero, t, operand)?;
        add_unary(out, to, UnOp::IsZero, CType::I32, Operand::Var(between))?;
        declared.give_back(since, to, out)
    }

    /// The code of values, from left to right, and the operands that have them at its end.
    #[cycle(inline)]
    pub fn expressions(
        &self,
        here: StmtId,
        declared: &mut Declared,
        out: &mut Vec<Node>,
        exprs: &[Expr],
    ) -> Result<Vec<Operand>, AllocError>
        ensures { IfOk result (λ operands. EvaluatesAll self.now here exprs.now operands.items
            declared.old declared.new out.old.items out.new.items) }
    {
        let keep = any_has_call(exprs);
        let mut operands = Vec::with_capacity(self.setting.alloc, exprs.len())?;
        for expr in exprs {
            operands.push(self.kept_expression(here, declared, out, expr, keep)?)?;
        }
        Ok(operands)
    }

    /// The code of a condition, and the variable of its value. The caller sets it to 0 when it is read no
    /// more.
    #[cycle(inline)]
    pub fn condition(
        &self,
        stmt: StmtId,
        declared: &mut Declared,
        out: &mut Vec<Node>,
        when: &Expr,
    ) -> Result<u32, AllocError>
        ensures number { IfOk result (λ to. to ≡ length declared.old.vars) }
        ensures made { IfOk result (λ to. Decides self.now stmt when.now to
            declared.old declared.new out.old.items out.new.items) }
    {
        let to = declared.own_variable(type_of(self.setting.program, when))?;
        self.given_to(stmt, Wanted::Truth, to, declared, out, when)?;
        Ok(to)
    }
}

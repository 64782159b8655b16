//! The code of statements that hold no other.

ghost use Rattle.std.specs.Prelude.{OnOk};
ghost use Rattle.ba_inline.specs.Inlining.{Executes};
ghost use Rattle.ba_inline.specs.Parts.{assign_part, init_array_part, print_part, store_part};

use crate::declared::Declared;
use crate::emit::{add, add_pick};
use crate::expressions::has_call;
use crate::frames::{Inliner, Wanted};
use crate::leaves::{array_of, filled_up};
use ba_code::nodes::{Node, Take};
use ba_numbers::ids::{StmtId, VarId};
use ba_tree::lookup::variable_of;
use ba_tree::tree::Expr;
use std::alloc::AllocError;

impl<'a> Inliner<'a> {
    /// The code of an assignment to a variable, or of its initialiser.
    #[cycle(inline)]
    #[inline(never)]
    pub fn assign(
        &self,
        stmt: StmtId,
        declared: &mut Declared,
        out: &mut Vec<Node>,
        var: VarId,
        value: &Expr,
    ) -> Result<(), AllocError>
        ensures { OnOk result (Executes self.now (λ p frame. assign_part p frame stmt var value.now)
            declared.old declared.new out.old.items out.new.items) }
    {
        let to = self.scope.variable(var)?;
        let t = variable_of(self.setting.program, var).t;
        self.given_to(stmt, Wanted::Value(t), to, declared, out, value)
    }

    /// The code of a store to an element.
    #[cycle(inline)]
    #[inline(never)]
    pub fn store(
        &self,
        stmt: StmtId,
        declared: &mut Declared,
        out: &mut Vec<Node>,
        array: VarId,
        index: &Expr,
        value: &Expr,
    ) -> Result<(), AllocError>
        ensures { OnOk result (Executes self.now
            (λ p frame. store_part p frame stmt array index.now value.now)
            declared.old declared.new out.old.items out.new.items) }
    {
        let (number, _) = array_of(self.setting, self.scope, declared, array)?;
        let since = declared.moment();
        let mut keep = Vec::new(self.setting.alloc);
        let settled = has_call(value);
        let index = self.kept_expression(stmt, declared, &mut keep, index, settled)?;
        let value = self.expression(stmt, declared, &mut keep, value)?;
        add(
            &mut keep,
            Node::Save {
                array: number,
                index,
                value,
                stmt,
            },
        )?;
        declared.give_back(since, self.frame.home, &mut keep)?;
        add_pick(
            self.setting.alloc,
            out,
            self.path,
            stmt,
            Take::Cell { array: number },
            keep,
        )
    }

    /// The code of an array's initialiser.
    #[cycle(inline)]
    #[inline(never)]
    pub fn init_array(
        &self,
        stmt: StmtId,
        declared: &mut Declared,
        out: &mut Vec<Node>,
        array: VarId,
        values: &[Expr],
    ) -> Result<(), AllocError>
        ensures { OnOk result (Executes self.now (λ p frame. init_array_part p frame stmt array values.now)
            declared.old declared.new out.old.items out.new.items) }
    {
        let (number, len) = array_of(self.setting, self.scope, declared, array)?;
        let since = declared.moment();
        let mut keep = Vec::new(self.setting.alloc);
        let values = self.expressions(stmt, declared, &mut keep, values)?;
        let filled = filled_up(values, len)?;
        add(
            &mut keep,
            Node::Fill {
                array: number,
                values: filled,
            },
        )?;
        declared.give_back(since, self.frame.home, &mut keep)?;
        add_pick(
            self.setting.alloc,
            out,
            self.path,
            stmt,
            Take::Cells { array: number },
            keep,
        )
    }

    /// The code of a `printf`.
    #[cycle(inline)]
    #[inline(never)]
    pub fn print(
        &self,
        stmt: StmtId,
        declared: &mut Declared,
        out: &mut Vec<Node>,
        args: &[Expr],
    ) -> Result<(), AllocError>
        ensures { OnOk result (Executes self.now (λ p frame. print_part p frame stmt args.now)
            declared.old declared.new out.old.items out.new.items) }
    {
        let since = declared.moment();
        let mut keep = Vec::new(self.setting.alloc);
        self.expressions(stmt, declared, &mut keep, args)?;
        declared.give_back(since, self.frame.home, &mut keep)?;
        add_pick(
            self.setting.alloc,
            out,
            self.path,
            stmt,
            Take::Nothing,
            keep,
        )
    }
}

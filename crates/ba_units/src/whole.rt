//! The units of a whole program.

ghost use Rattle.std.specs.Prelude.{◌≡◌, ◌-◌, true, min, sum_by};
ghost use Rattle.ba_tree.specs.Meaning.{variable_of};
ghost use Rattle.ba_tree.specs.Run.{are_bounds};
ghost use Rattle.ba_tree.specs.Units.{declaration_units, units_of};

use crate::costs::left_after_declaration;
use crate::counting::left_after_stmts;
use crate::frame::Frame;
use crate::setting::Setting;
use ba_numbers::ids::VarId;
use ba_tree::lookup::main_body;
use ba_tree::run::Bounds;
use ba_tree::tree::Program;

/// One more than the limit on units.
const PAST_LIMIT: u32 = 20_001;

/// The units left after the declarations of these variables.
fn left_after_declarations(program: &Program, left: u32, vars: &[VarId]) -> u32
    ensures { result ≡ left - sum_by (λ v. declaration_units (variable_of program.now v).shape)
        vars.now }
{
    let mut rest = left;
    for var in vars {
        rest = left_after_declaration(program, rest, *var);
    }
    rest
}

/// The units of a program within these bounds, or 20,001 if there are more.
///
/// They are the sum of what its forms cost. Each call is replaced by the function's body, down to the depth,
/// and each loop by its iterations. The bounds have to be within their limits: 1 to 128 iterations and 1 to
/// 32 frames. It takes no memory.
pub fn units(program: &Program, bounds: Bounds) -> u32
    requires bounds { are_bounds bounds ≡ true }
    ensures { result ≡ min (units_of program.now bounds) 20001 }
{
    let setting = Setting {
        program,
        turns: bounds.turns,
    };
    let frames = bounds.frames - 1;
    let frame = Frame::main();
    let left = left_after_declarations(program, PAST_LIMIT, program.globals.as_slice());
    let left = left_after_stmts(&setting, frames, &frame, left, program.inits.as_slice());
    let left = left_after_stmts(&setting, frames, &frame, left, main_body(program));
    PAST_LIMIT.saturating_sub(left)
}

//! Checking the types of expressions and patterns.

ghost use Rattle.std.specs.Prelude.{◌≡◌, true, false, IfOk, IfErr};
ghost use Rattle.xp_tree.specs.PatternTree.{pattern_of};
ghost use Rattle.xp_tree.specs.View.{tree_of};
ghost use Rattle.xp_types.specs.Places.{UnlessMemory};
ghost use Rattle.xp_types.specs.HasType.{HasType};
ghost use Rattle.xp_types.specs.TypeFaults.{IsFirstTypeFault};
ghost use Rattle.xp_types.specs.PatternTypes.{PatternHasType};
ghost use Rattle.xp_types.specs.PatternFaults.{IsFirstPatternTypeFault};

use crate::env::Env;
use crate::faults::CheckError;
use crate::patterns::type_paths;
use crate::typing::type_expr;
use std::alloc::Global;
use xp_tree::{Expr, Pattern};
use xp_typed_tree::{Typed, TypedPattern};

/// Checks the types of an expression, whose first fault is the answer where it has one.
///
/// Parts are checked in the order in which they begin in the text; at a call the name, the number of arguments, the
/// arguments. A node-set that is wanted is tested when its operand has been checked. Costs time linear in the
/// expression's size.
pub fn check(alloc: Global, expr: Expr, env: &Env) -> Result<Typed, CheckError>
    requires { env.now.in_pattern ≡ false }
    ensures typed { IfOk result (λ typed. HasType env.now (tree_of expr) typed) }
    ensures refused { IfErr result (UnlessMemory (IsFirstTypeFault env.now (tree_of expr))) }
{
    let tree = type_expr(alloc, &expr, env);
    drop(expr);
    Ok(Typed::new(tree?))
}

/// Checks the types of a match pattern, as `check` does those of an expression; `id`, `key` and `current` are refused.
pub fn check_pattern(alloc: Global, pattern: Pattern, env: &Env) -> Result<TypedPattern, CheckError>
    requires { env.now.in_pattern ≡ true }
    ensures typed { IfOk result (λ typed. PatternHasType env.now (pattern_of pattern) typed) }
    ensures refused { IfErr result (UnlessMemory (IsFirstPatternTypeFault env.now (pattern_of pattern))) }
{
    let paths = type_paths(alloc, &pattern.paths, env)?;
    Ok(TypedPattern::new(paths))
}

//! The call `current()` (XSLT 1.0, section 12.4), at which a path may begin. No list is made of its node, and no function
//! is applied.

ghost use Rattle.std.specs.Prelude.{◌≡◌, true, [], ◌∷◌};
ghost use Rattle.doc_tree.specs.Table.{Table};
ghost use Rattle.xp_values.specs.declared.values.Value.TheVariants as value_kinds;
ghost use Rattle.xp_outcome.specs.Evaluation.{done, visit};
ghost use Rattle.xp_typed_tree.specs.declared.function.Function.TheVariants as functions;
ghost use Rattle.xp_typed_tree.specs.TypedView.{typed_tree_of};
ghost use Rattle.xp_meaning.specs.declared.context.Context.{Context};
ghost use Rattle.xp_meaning.specs.Evaluation.{Lets, meaning};

use xp_typed_tree::{Function, TypedExpr};

/// Whether the expression is `current()`.
pub(crate) fn is_current(expr: &TypedExpr) -> bool
    ensures { result ≡ true → (T : Table) (L : Lets) (c : Context) → meaning T L (typed_tree_of expr.now) c ≡ visit (done (value_kinds.NodeSet (c.current ∷ []))) }
{
    match expr {
        TypedExpr::Call { function, args } => {
            gives_current(*function) && args.as_slice().is_empty()
        }
        _ => false,
    }
}

/// Whether the function is `current`.
fn gives_current(function: Function) -> bool
    ensures { result ≡ true → function ≡ functions.Current }
{
    matches!(function, Function::Current)
}

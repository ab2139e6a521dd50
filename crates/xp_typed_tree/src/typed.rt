//! Well typed expressions and patterns.

ghost use Rattle.std.specs.Prelude.{◌≡◌, true, false};
ghost use Rattle.xp_typed_tree.specs.TypedView.{typed_tree_of, paths_seen};
ghost use Rattle.xp_typed_tree.specs.WellTyped.{WellTyped, PathsTyped, type_of};

use crate::expr::TypedExpr;
use crate::pattern::TypedPath;
use crate::value_type::ValueType;
use std::marker::Model;

/// A well typed expression, seen by contracts as its tree.
#[derive(Drop)]
pub struct Typed {
    tree: TypedExpr,
}

impl Model for Typed {
    ghost use Rattle.xp_typed_tree.specs.TypedTree.{TypedTree};
    ghost use Rattle.xp_typed_tree.specs.inner.TypedCode.{tree_code};
    ghost use Rattle.std.specs.Coded.{codes};

    ghost Value = { TypedTree };

    ghost coded = { tree_code (Prim.hlevel codes) };

    ghost use Rattle.std.specs.Prelude.{false};
    ghost use Rattle.xp_typed_tree.specs.TypedView.{typed_tree_of};
    ghost use Rattle.xp_typed_tree.specs.WellTyped.{WellTyped};

    ghost view = { λ t. typed_tree_of t.tree };

    ghost invariant = { λ t. WellTyped false (typed_tree_of t.tree) };
}

impl Typed {
    /// The expression as a well typed one.
    pub fn new(tree: TypedExpr) -> Typed
        requires { WellTyped false (typed_tree_of tree) }
        ensures { result ≡ typed_tree_of tree }
    {
        Typed { tree }
    }

    /// The type of the expression's value.
    pub fn ty(&self) -> ValueType
        ensures { result ≡ type_of self.now }
    {
        self.tree.ty()
    }

    /// The expression's parts.
    pub fn tree(&self) -> &TypedExpr
        ensures tree { typed_tree_of result.now ≡ self.now }
        ensures well_typed { WellTyped false self.now }
    {
        &self.tree
    }
}

/// A well typed match pattern, seen by contracts as the trees of its path patterns.
#[derive(Drop)]
pub struct TypedPattern {
    paths: Vec<TypedPath>,
}

impl Model for TypedPattern {
    ghost use Rattle.std.specs.Prelude.{List};
    ghost use Rattle.xp_typed_tree.specs.TypedTree.{TypedPathTree};
    ghost use Rattle.xp_typed_tree.specs.inner.TypedCode.{paths_code};
    ghost use Rattle.std.specs.Coded.{codes};

    ghost Value = { List TypedPathTree };

    ghost coded = { paths_code (Prim.hlevel codes) (Prim.hlevel codes) (Prim.hlevel codes) (Prim.hlevel codes) };

    ghost use Rattle.xp_typed_tree.specs.TypedView.{paths_seen};
    ghost use Rattle.xp_typed_tree.specs.WellTyped.{PathsTyped};

    ghost view = { λ p. paths_seen p.paths.items };

    ghost invariant = { λ p. PathsTyped (paths_seen p.paths.items) };
}

impl TypedPattern {
    /// The path patterns as a well typed pattern.
    pub fn new(paths: Vec<TypedPath>) -> TypedPattern
        requires { PathsTyped (paths_seen paths.items) }
        ensures { result ≡ paths_seen paths.items }
    {
        TypedPattern { paths }
    }

    /// The path patterns that the pattern joins by `|`.
    pub fn paths(&self) -> &[TypedPath]
        ensures paths { paths_seen result.now ≡ self.now }
        ensures well_typed { PathsTyped self.now }
    {
        self.paths.as_slice()
    }
}

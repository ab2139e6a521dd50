//! The parts of typed expressions, made from what they hold, and the types of their values.

ghost use Rattle.std.specs.Prelude.{◌≡◌, List};
ghost use Rattle.xp_typed_tree.specs.TypedTree.{TypedSteps, Comparands, Combinands, disjunction, conjunction, comparison, arithmetic, negation, union, location, selection, slot, text, whole, application, at_root, at_context, at_nodes, typed_step, comparand, combinand};
ghost use Rattle.xp_typed_tree.specs.TypedView.{typed_tree_of, compared_of, combined_of, place_of, typed_step_of, typed_seen, compared_list_seen, combined_list_seen, typed_steps_seen};
ghost use Rattle.xp_typed_tree.specs.WellTyped.{type_of};

use crate::expr::{Combined, Compared, TypedExpr, TypedStart, TypedStep};
use crate::function::Function;
use crate::value_type::ValueType;
use doc_tree::{Axis, NodeTest};
use sch_base::Text;
use xp_tree::{ArithOp, Comparison};

impl Compared {
    /// A later operand with the comparison before it.
    pub fn new(operator: Comparison, expr: TypedExpr) -> Compared
        ensures { (rest : Comparands) → compared_of result rest ≡ comparand operator (typed_tree_of expr) rest }
    {
        Compared { operator, expr }
    }
}

impl Combined {
    /// A later operand with the operator before it.
    pub fn new(operator: ArithOp, expr: TypedExpr) -> Combined
        ensures { (rest : Combinands) → combined_of result rest ≡ combinand operator (typed_tree_of expr) rest }
    {
        Combined { operator, expr }
    }
}

impl TypedStart {
    /// The root.
    pub fn at_root() -> TypedStart
        ensures { place_of result ≡ at_root }
    {
        TypedStart::Root
    }

    /// The context node.
    pub fn at_context() -> TypedStart
        ensures { place_of result ≡ at_context }
    {
        TypedStart::Here
    }

    /// The nodes of an expression.
    pub fn from_nodes(base: Box<TypedExpr>) -> TypedStart
        ensures { place_of result ≡ at_nodes (typed_tree_of base.value) }
    {
        TypedStart::From(base)
    }
}

impl TypedStep {
    /// A step.
    pub fn new(axis: Axis, test: NodeTest, predicates: Vec<TypedExpr>) -> TypedStep
        ensures { (rest : TypedSteps) → typed_step_of result rest ≡ typed_step axis test (typed_seen predicates.items) rest }
    {
        TypedStep {
            axis,
            test,
            predicates,
        }
    }
}

impl TypedExpr {
    /// Operands joined by `or`.
    pub fn or(operands: Vec<TypedExpr>) -> TypedExpr
        ensures { typed_tree_of result ≡ disjunction (typed_seen operands.items) }
    {
        TypedExpr::Or(operands)
    }

    /// Operands joined by `and`.
    pub fn and(operands: Vec<TypedExpr>) -> TypedExpr
        ensures { typed_tree_of result ≡ conjunction (typed_seen operands.items) }
    {
        TypedExpr::And(operands)
    }

    /// Operands joined by comparisons.
    pub fn compare(first: Box<TypedExpr>, rest: Vec<Compared>) -> TypedExpr
        ensures { typed_tree_of result ≡ comparison (typed_tree_of first.value) (compared_list_seen rest.items) }
    {
        TypedExpr::Compare { first, rest }
    }

    /// Operands joined by operators on numbers.
    pub fn arith(first: Box<TypedExpr>, rest: Vec<Combined>) -> TypedExpr
        ensures { typed_tree_of result ≡ arithmetic (typed_tree_of first.value) (combined_list_seen rest.items) }
    {
        TypedExpr::Arith { first, rest }
    }

    /// An operand under minus signs.
    pub fn negate(count: u32, operand: Box<TypedExpr>) -> TypedExpr
        ensures { typed_tree_of result ≡ negation count (typed_tree_of operand.value) }
    {
        TypedExpr::Negate { count, operand }
    }

    /// Node-sets joined by `|`.
    pub fn union(operands: Vec<TypedExpr>) -> TypedExpr
        ensures { typed_tree_of result ≡ union (typed_seen operands.items) }
    {
        TypedExpr::Union(operands)
    }

    /// A path.
    pub fn path(start: TypedStart, steps: Vec<TypedStep>) -> TypedExpr
        ensures { typed_tree_of result ≡ location (place_of start) (typed_steps_seen steps.items) }
    {
        TypedExpr::Path { start, steps }
    }

    /// A node-set with predicates.
    pub fn filter(base: Box<TypedExpr>, predicates: Vec<TypedExpr>) -> TypedExpr
        ensures { typed_tree_of result ≡ selection (typed_tree_of base.value) (typed_seen predicates.items) }
    {
        TypedExpr::Filter { base, predicates }
    }

    /// The variable of a slot.
    pub fn variable(place: u32, ty: ValueType) -> TypedExpr
        ensures { typed_tree_of result ≡ slot place ty }
    {
        TypedExpr::Variable { slot: place, ty }
    }

    /// A literal.
    pub fn literal(value: Text) -> TypedExpr
        ensures { typed_tree_of result ≡ text value }
    {
        TypedExpr::Literal { value }
    }

    /// A whole number.
    pub fn number(value: i64) -> TypedExpr
        ensures { typed_tree_of result ≡ whole value }
    {
        TypedExpr::Number { value }
    }

    /// A call of a function.
    pub fn call(function: Function, args: Vec<TypedExpr>) -> TypedExpr
        ensures { typed_tree_of result ≡ application function (typed_seen args.items) }
    {
        TypedExpr::Call { function, args }
    }

    /// The type of the expression's value.
    pub fn ty(&self) -> ValueType
        ensures { result ≡ type_of (typed_tree_of self.now) }
    {
        match self {
            TypedExpr::Or(_) => ValueType::Truth,
            TypedExpr::And(_) => ValueType::Truth,
            TypedExpr::Compare { .. } => ValueType::Truth,
            TypedExpr::Arith { .. } => ValueType::Number,
            TypedExpr::Negate { .. } => ValueType::Number,
            TypedExpr::Union(_) => ValueType::NodeSet,
            TypedExpr::Path { .. } => ValueType::NodeSet,
            TypedExpr::Filter { .. } => ValueType::NodeSet,
            TypedExpr::Variable { ty, .. } => *ty,
            TypedExpr::Literal { .. } => ValueType::Chars,
            TypedExpr::Number { .. } => ValueType::Number,
            TypedExpr::Call { function, .. } => function.result_type(),
        }
    }
}

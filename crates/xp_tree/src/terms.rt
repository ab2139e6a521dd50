//! The parts of expressions that hold no expression: operators, axis names, node tests.

use sch_base::Text;

/// The levels of the operators that join operands to chains, loosest first (XPath 1.0, sections 3.3 to 3.5).
#[derive(Clone, Copy)]
pub enum Level {
    Or,
    And,
    Equal,
    Rel,
    Sum,
    Prod,
    /// `|`, which binds tighter than a sign.
    Union,
}

/// The operators between the operands of a chain (XPath 1.0, section 3.7).
#[derive(Clone, Copy, Debug)]
pub enum Operator {
    Or,
    And,
    /// `=`
    Equal,
    /// `!=`
    NotEqual,
    /// `<`
    Less,
    /// `<=`
    AtMost,
    /// `>`
    Greater,
    /// `>=`
    AtLeast,
    /// `+`
    Plus,
    /// `-` between operands
    Minus,
    /// `*` between operands
    Times,
    Div,
    Mod,
    /// `|`
    Union,
}

/// The names of the thirteen axes (XPath 1.0, section 2.2).
#[derive(Clone, Copy, Debug)]
pub enum AxisName {
    Ancestor,
    AncestorOrSelf,
    Attribute,
    Child,
    Descendant,
    DescendantOrSelf,
    Following,
    FollowingSibling,
    Namespace,
    Parent,
    Preceding,
    PrecedingSibling,
    SelfNode,
}

/// A node test as it is written (XPath 1.0, section 2.3): prefixes aren't resolved.
#[derive(Debug, Drop)]
pub enum StepTest {
    /// `*`
    Star,
    /// `p:*`
    InPrefix { prefix: Text },
    /// `name` or `p:name`
    Named { prefix: Option<Text>, local: Text },
    /// `node()`
    Node,
    /// `text()`
    Chars,
    /// `comment()`
    Comment,
    /// `processing-instruction()`
    Pi,
    /// `processing-instruction('target')`
    PiNamed { target: Text },
}

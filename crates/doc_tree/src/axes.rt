//! Axes and node tests of XPath 1.0, sections 2.2 and 2.3.

use sch_base::Text;

/// The axes of XPath 1.0, section 2.2, but for the namespace axis.
#[derive(Clone, Copy, Debug, PartialEq, Eq)]
pub enum Axis {
    Ancestor,
    AncestorOrSelf,
    Attribute,
    Child,
    Descendant,
    DescendantOrSelf,
    Following,
    FollowingSibling,
    Parent,
    Preceding,
    PrecedingSibling,
    /// The axis `self`.
    SelfNode,
}

/// A node test whose prefixes are resolved (XPath 1.0, section 2.3).
#[derive(Drop)]
pub enum NodeTest {
    /// `node()`
    Any,
    /// `*`: each node of the axis's principal kind.
    Star,
    /// `p:*`: each node of the principal kind whose name is in the namespace.
    InNamespace { uri: Text },
    /// A name: each node of the principal kind with this expanded name; the namespace is empty for none.
    Named { uri: Text, local: Text },
    /// `text()`
    Text,
    /// `comment()`
    Comment,
    /// `processing-instruction()`
    Pi,
    /// `processing-instruction('target')`
    PiNamed { target: Text },
}

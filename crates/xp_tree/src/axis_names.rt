//! The names of the axes (XPath 1.0, section 2.2).

ghost use Rattle.std.specs.Prelude.{◌≡◌, map};
ghost use Rattle.xp_tree.specs.AxisNames.{axis_names, axis_text};
ghost use Rattle.sch_base.specs.Named.{named};

use crate::terms::AxisName;

impl AxisName {
    /// The axis's name.
    pub fn as_str(self) -> &'static str
        ensures { result.now ≡ axis_text self }
    {
        match self {
            AxisName::Ancestor => "ancestor",
            AxisName::AncestorOrSelf => "ancestor-or-self",
            AxisName::Attribute => "attribute",
            AxisName::Child => "child",
            AxisName::Descendant => "descendant",
            AxisName::DescendantOrSelf => "descendant-or-self",
            AxisName::Following => "following",
            AxisName::FollowingSibling => "following-sibling",
            AxisName::Namespace => "namespace",
            AxisName::Parent => "parent",
            AxisName::Preceding => "preceding",
            AxisName::PrecedingSibling => "preceding-sibling",
            AxisName::SelfNode => "self",
        }
    }

    /// The axis of a name, None where no axis has it.
    pub fn named(name: &str) -> Option<AxisName>
        ensures { result ≡ named axis_names name.now }
    {
        first_named(&AXES, name)
    }
}

/// The axes, in the order of their names.
const AXES: [AxisName; 13] = [
    AxisName::Ancestor,
    AxisName::AncestorOrSelf,
    AxisName::Attribute,
    AxisName::Child,
    AxisName::Descendant,
    AxisName::DescendantOrSelf,
    AxisName::Following,
    AxisName::FollowingSibling,
    AxisName::Namespace,
    AxisName::Parent,
    AxisName::Preceding,
    AxisName::PrecedingSibling,
    AxisName::SelfNode,
];

/// The first of some axes that has the name.
fn first_named(mut axes: &[AxisName], name: &str) -> Option<AxisName>
    ensures { result ≡ named (map (λ axis. (axis_text axis, axis)) axes.entry.now) name.now }
{
    while let [axis, rest @ ..] = axes {
        if name == axis.as_str() {
            return Some(*axis);
        }
        axes = rest;
    }
    None
}

//! The functions that an expression may call.

ghost use Rattle.std.specs.Prelude.{◌≡◌};
ghost use Rattle.xp_typed_tree.specs.WellTyped.{result_type, takes, wants_nodes, may_call};

use crate::value_type::ValueType;

/// The functions of XPath 1.0, section 4, and XSLT's `current`, each by its name; `id` is left out.
#[derive(Clone, Copy)]
pub enum Function {
    Last,
    Position,
    Current,
    Count,
    Sum,
    LocalName,
    NamespaceUri,
    Name,
    String,
    Number,
    Boolean,
    Not,
    True,
    False,
    Concat,
    StartsWith,
    Contains,
    SubstringBefore,
    SubstringAfter,
    Substring,
    StringLength,
    NormalizeSpace,
    Translate,
    Lang,
    Floor,
    Ceiling,
    Round,
}

impl Function {
    /// The type of what the function gives.
    pub fn result_type(self) -> ValueType
        ensures { result ≡ result_type self }
    {
        match self {
            Function::Current => ValueType::NodeSet,
            Function::Last
            | Function::Position
            | Function::Count
            | Function::Sum
            | Function::Number
            | Function::StringLength
            | Function::Floor
            | Function::Ceiling
            | Function::Round => ValueType::Number,
            Function::Boolean
            | Function::Not
            | Function::True
            | Function::False
            | Function::StartsWith
            | Function::Contains
            | Function::Lang => ValueType::Truth,
            Function::LocalName
            | Function::NamespaceUri
            | Function::Name
            | Function::String
            | Function::Concat
            | Function::SubstringBefore
            | Function::SubstringAfter
            | Function::Substring
            | Function::NormalizeSpace
            | Function::Translate => ValueType::Chars,
        }
    }

    /// Whether the function takes so many arguments.
    pub fn takes(self, count: usize) -> bool
        ensures { result ≡ takes self count }
    {
        match self {
            Function::Last
            | Function::Position
            | Function::Current
            | Function::True
            | Function::False => count == 0,
            Function::LocalName
            | Function::NamespaceUri
            | Function::Name
            | Function::String
            | Function::Number
            | Function::StringLength
            | Function::NormalizeSpace => count <= 1,
            Function::Count
            | Function::Sum
            | Function::Boolean
            | Function::Not
            | Function::Lang
            | Function::Floor
            | Function::Ceiling
            | Function::Round => count == 1,
            Function::Concat => 2 <= count,
            Function::StartsWith
            | Function::Contains
            | Function::SubstringBefore
            | Function::SubstringAfter => count == 2,
            Function::Substring => 2 <= count && count <= 3,
            Function::Translate => count == 3,
        }
    }

    /// Whether the function's arguments are node-sets.
    pub fn wants_nodes(self) -> bool
        ensures { result ≡ wants_nodes self }
    {
        matches!(
            self,
            Function::Count
                | Function::Sum
                | Function::LocalName
                | Function::NamespaceUri
                | Function::Name
        )
    }

    /// Whether an expression may call the function: a pattern calls no `current`.
    pub fn may_be_called(self, in_pattern: bool) -> bool
        ensures { result ≡ may_call in_pattern self }
    {
        match self {
            Function::Current => !in_pattern,
            _ => true,
        }
    }
}

//! Names that mean something of their own.

ghost use Rattle.std.specs.Prelude.{◌≡◌};
ghost use Rattle.xp_lexicon.specs.Lexicon.{operator_names, node_types};
ghost use Rattle.sch_base.specs.Named.{named};

use xp_grammar::{NodeType, Token};
use xp_tree::Operator;

/// The operator of a name after an operand (XPath 1.0, section 3.7).
pub(crate) fn operator_named<'a>(name: &str) -> Option<Token<'a>>
    ensures { result ≡ named operator_names name.now }
{
    match name {
        "and" => Some(Token::Operator(Operator::And)),
        "or" => Some(Token::Operator(Operator::Or)),
        "mod" => Some(Token::Operator(Operator::Mod)),
        "div" => Some(Token::Operator(Operator::Div)),
        _ => None,
    }
}

/// The node type of a name (XPath 1.0, section 2.3).
pub(crate) fn node_type_named(name: &str) -> Option<NodeType>
    ensures { result ≡ named node_types name.now }
{
    match name {
        "comment" => Some(NodeType::Comment),
        "text" => Some(NodeType::Chars),
        "processing-instruction" => Some(NodeType::Pi),
        "node" => Some(NodeType::Node),
        _ => None,
    }
}

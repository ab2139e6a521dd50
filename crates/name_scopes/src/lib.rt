//! From events to a tree with its names in their namespaces (Namespaces in XML 1.0).
#![tactic(auto)]

mod around;
mod build;
mod declarations;
mod fault;
mod load;
mod open_tags;
mod own_names;
mod piece;
mod qnames;
mod recent_names;
mod refusal;
mod refuse;
mod round_trip;
mod scope;
mod subtree;
mod tag;

pub use declarations::declares_namespace;
pub use doc_write::write_tree;
pub use fault::{DocFault, DocKind, LoadError};
pub use load::load_tree;
pub use own_names::check_names;
pub use qnames::{QName, split};
pub use refusal::PieceError;
pub use round_trip::{namespaces_follow, one_tree, text_comes_back, tree_comes_back};
pub use subtree::load_subtree;

//! Reports in SVRL (ISO/IEC 19757-3, annex on SVRL) as values: read back from a document, and written as lines of PYX.
#![tactic(auto)]

mod building;
mod check;
mod fault;
mod reading;
mod source;
mod value;
mod values;
mod words;
mod writing;

pub use check::Place;
pub use doc_tree::NodeId;
pub use fault::{SvrlError, SvrlFault, SvrlKind};
pub use reading::read_svrl;
pub use sch_base::Text;
pub use value::{
    Fired, FiredList, Prefix, PrefixList, Ref, RefList, SvrlFinding, SvrlFindingList, SvrlPattern,
    SvrlPatternList, SvrlReport,
};
pub use words::Word;
pub use writing::write_svrl;

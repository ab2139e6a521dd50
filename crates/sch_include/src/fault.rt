//! Why the includes of a schema are not replaced.

ghost use Rattle.std.specs.Prelude.{◌≡◌};
ghost use Rattle.sch_include.specs.declared.fault.IncludeError.TheVariants as include_error;

use name_scopes::DocFault;
use sch_base::Text;
use std::alloc::AllocError;
use thiserror::Error;

/// What is wrong with an include, or with the file of a schema. The faults of one include are tested in this order.
#[derive(Clone, Copy, Debug, PartialEq, Eq)]
pub enum IncludeKind {
    /// It has no `href`.
    NoHref,
    /// Its `href` has a scheme: a colon before any `/`.
    Scheme,
    /// Its `href` has a fragment: a `#`.
    Fragment,
    /// It names a file that is being read.
    Cycle,
    /// More includes stand inside one another than may.
    TooDeep,
    /// There are more includes than there may be.
    TooMany,
    /// There is no file of that name.
    Missing,
    /// The file was not read whole.
    Failed,
    /// The file has more bytes than a file may have.
    TooLarge,
    /// The file is no document: it has this fault first.
    Doc(DocFault),
    /// With the file's element in its place the tree has more nodes than a tree may have.
    TooManyNodes,
    /// An element of the file stands deeper in the tree than an element may.
    TreeTooDeep,
    /// With the file's element in its place the tree has more text than a tree may have.
    TooMuchText,
}

/// The first fault on the way, with the name of the file; with the `href` itself where that names none.
#[derive(Debug, Drop)]
pub struct IncludeFault {
    pub kind: IncludeKind,
    pub name: Text,
}

/// Why the includes of a schema are not replaced.
#[derive(Debug, Drop, Error)]
pub enum IncludeError {
    /// This is the first fault.
    #[error("include {}", .0.name.as_str())]
    Fault(IncludeFault),
    #[error("out of memory")]
    Memory,
}

impl From<AllocError> for IncludeError {
    ghost from_gives = { λ _ error. error ≡ include_error.Memory };

    fn from(_error: AllocError) -> IncludeError {
        IncludeError::Memory
    }
}

//! How a run ended.

ghost use Rattle.std.specs.Prelude.{◌≡◌};
ghost use Rattle.sch_words.specs.Status.{code_of};

/// How a run ended; its code is the exit status of the program.
#[derive(Clone, Copy, Debug, PartialEq, Eq)]
pub enum Status {
    /// The report has no finding, or the expanded schema or a notice was written.
    Clean,
    /// The report has a finding.
    Findings,
    /// The words are not in the table of accepted words.
    Usage,
    /// The schema is refused.
    SchemaRefused,
    /// The document is refused.
    DocumentRefused,
    /// The script of edits is refused.
    ScriptRefused,
    /// An evaluation met a fault.
    Faulted,
    /// A named file is not there.
    Missing,
    /// A read failed.
    ReadFault,
    /// A write to the output failed.
    WriteFault,
    /// Memory ran out.
    Memory,
}

impl Status {
    /// The exit status of the program.
    pub fn code(&self) -> u8
        ensures { result ≡ code_of self.now }
    {
        match self {
            Status::Clean => 0,
            Status::Findings => 1,
            Status::Usage => 2,
            Status::SchemaRefused => 3,
            Status::DocumentRefused => 4,
            Status::ScriptRefused => 5,
            Status::Faulted => 6,
            Status::Missing => 7,
            Status::ReadFault => 8,
            Status::WriteFault => 9,
            Status::Memory => 10,
        }
    }
}

//! What the text of a state shows.

/// What a text that was written shows.
#[derive(Clone, Copy, Debug, PartialEq, Eq)]
pub enum Shown {
    /// A report without a finding.
    Clean,
    /// A report with a finding.
    Findings,
    /// The line of a fault.
    Fault,
}

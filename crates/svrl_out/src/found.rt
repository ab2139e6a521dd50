//! The nodes that findings are at.

ghost use Rattle.std.specs.Prelude.{◌<◌};

use doc_tree::NodeId;
use sch_compiled::{FindingList, Findings, Outcome};
use std::alloc::{AllocError, Global};

/// The nodes that the findings at some nodes are at, once for each pattern, node and run of findings at one of them: so often
/// their locations are written.
///
/// Looks at the outcomes of each, and at their findings.
pub(crate) fn nodes_of_findings(
    alloc: Global,
    found: &Findings,
    nodes: &[NodeId],
) -> Result<Vec<NodeId>, AllocError> {
    let mut some = Vec::new(alloc);
    for p in 0..found.patterns() {
        push_found(&mut some, found, p, nodes)?;
    }
    Ok(some)
}

/// Puts the nodes that the findings of a pattern at some nodes are at at the end.
fn push_found(
    some: &mut Vec<NodeId>,
    found: &Findings,
    p: u32,
    nodes: &[NodeId],
) -> Result<(), AllocError>
    requires { p < found.now.patterns }
{
    for n in nodes {
        if let Some(Outcome::Fired { findings, .. }) = found.get(p, *n) {
            push_runs(some, findings)?;
        }
    }
    Ok(())
}

/// Puts the node of each finding at the end, but for those that are where the finding before them is.
fn push_runs(some: &mut Vec<NodeId>, findings: &FindingList) -> Result<(), AllocError> {
    let mut last = None;
    for finding in findings.as_slice() {
        if last != Some(finding.at) {
            some.push(finding.at)?;
            last = Some(finding.at);
        }
    }
    Ok(())
}

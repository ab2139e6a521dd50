//! Paths to nodes: each node of a tree but its attributes has a path that leads to it.
#![tactic(auto)]

ghost use Rattle.edit_paths.specs.PathTo.{PathsLead};

/// The path to a node leads to it.
pub fn paths_lead()
    ensures { PathsLead }
{}

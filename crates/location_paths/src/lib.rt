//! Locations as paths of edit scripts: a law of both, as a call that does nothing.
#![tactic(auto)]

ghost use Rattle.location_paths.specs.LocationPaths.{LocationsArePaths};

/// The location of a node that is no attribute, read as a path of an edit script, leads to the node.
pub fn locations_are_paths()
    ensures { LocationsArePaths }
{}

//! Laws of the definitions: what a location is good for.

ghost use Rattle.doc_locations.specs.LocationLaws.{LocationsAreToldApart};

/// Two nodes of a tree have different locations.
pub fn locations_are_told_apart()
    ensures { LocationsAreToldApart }
{}

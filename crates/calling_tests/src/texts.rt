//! The files of the examples.

/// A schema of one rule for items.
pub const SCHEMA: &[u8] = b"(schema
Axmlns http://purl.oclc.org/dsdl/schematron
(pattern
(rule
Acontext item
(assert
Atest @id
-An item has an id.
)assert
)rule
)pattern
)schema
";

/// A list of two items, the second without an id.
pub const DOCUMENT: &[u8] = b"(list
(item
Aid 1
)item
(item
)item
)list
";

/// An edit that gives the second item an id.
pub const SCRIPT: &[u8] = b"set /*[1]/*[2] id 2
";

//! Qualified names (Namespaces in XML 1.0, section 4).

ghost use Rattle.std.specs.Prelude.{◌≡◌};
ghost use Rattle.name_scopes.specs.QNames.{prefix_part, local_part};

/// A QName in two parts.
#[derive(Clone, Copy)]
pub struct QName<'a> {
    /// Empty where there is no colon.
    pub prefix: &'a str,
    pub local: &'a str,
}

/// Splits a QName at its first colon. A name without a colon is its own local part.
pub fn split(name: &str) -> QName
    ensures prefix { result.prefix.now ≡ prefix_part name.now }
    ensures local { result.local.now ≡ local_part name.now }
{
    match memchr::memchr(b':', name.as_bytes()) {
        Some(at) => QName {
            prefix: &name[..at],
            local: &name[at + 1..],
        },
        None => QName {
            prefix: "",
            local: name,
        },
    }
}

//! Names as Namespaces in XML 1.0 has them.

ghost use Rattle.std.specs.Prelude.{◌≡◌};
ghost use Rattle.std.specs.List.{list_all};
ghost use Rattle.std.specs.Str.{chars};
ghost use Rattle.sch_base.specs.Characters.{is_name_char};
ghost use Rattle.sch_base.specs.Names.{is_ncname, split_at_colon, split_qname};

use crate::characters::{is_name_char, is_name_start};

/// Whether all characters of the text may stand in a name after its first one.
fn are_name_chars(s: &str) -> bool
    ensures { result ≡ list_all is_name_char (chars s.now) }
{
    s.chars().all(is_name_char)
}

/// Whether the text is an NCName, a name without a colon: Namespaces in XML 1.0, section 3.
pub fn is_ncname(s: &str) -> bool
    ensures { result ≡ is_ncname s.now }
{
    let mut chars = s.chars();
    match chars.next() {
        Some(first) => is_name_start(first) && are_name_chars(chars.as_str()),
        None => false,
    }
}

/// How a text with a colon is split, by what stands before its first colon and what is after it.
fn split_at_colon(prefix: &str, local: &str) -> Option<(usize, usize)>
    ensures { result ≡ split_at_colon prefix.now local.now }
{
    if is_ncname(prefix) && is_ncname(local) {
        return Some((prefix.len(), prefix.len() + 1));
    }
    None
}

/// Splits a QName, an NCName or two joined by one colon: Namespaces in XML 1.0, section 4.
///
/// The answer is the length of the prefix and the place where the local part begins, both in bytes: `(0, 0)` for
/// `a`, `(1, 2)` for `p:a`. It is None exactly where the text is no QName.
pub fn split_qname(s: &str) -> Option<(usize, usize)>
    ensures { result ≡ split_qname s.now }
{
    match s.split_once(':') {
        Some((prefix, local)) => split_at_colon(prefix, local),
        None => is_ncname(s).then_some((0, 0)),
    }
}

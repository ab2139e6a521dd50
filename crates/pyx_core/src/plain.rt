//! Texts and names of ASCII: their bytes are their characters, and a test of a byte takes a compare or two.

ghost use Rattle.std.specs.Prelude.{◌≡◌, ◌≤◌, true, length, take};
ghost use Rattle.std.specs.List.{list_all};
ghost use Rattle.pyx_core.specs.inner.Plain.{is_plain, is_literal, is_plain_start, is_plain_part, is_plain_name};

/// Whether the byte is a character of ASCII from the space on.
fn is_plain(b: &u8) -> bool
    ensures { result ≡ is_plain b.now }
{
    matches!(b, b' '..=b'~')
}

/// Whether the bytes are characters of ASCII from the space on, so that each is a Char (XML 1.0, section 2.2).
pub fn is_plain_text(bytes: &[u8]) -> bool
    ensures { result ≡ list_all is_plain bytes.now }
{
    bytes.iter().all(is_plain)
}

/// Whether the byte is literal: a character of ASCII from the space on that stands for itself, as each but the
/// backslash does.
fn is_literal(b: u8) -> bool
    ensures { result ≡ is_literal b }
{
    matches!(b, b' '..=b'[' | b']'..=b'~')
}

/// The most bytes that are looked at one by one.
const LOOKED_AT: usize = 256;

/// How many bytes in front are literal, of a few hundred at most: longer lines are searched faster, many bytes at once.
pub fn literal_len(bytes: &[u8]) -> usize
    ensures within { result ≤ length bytes.now }
    ensures literal { list_all is_literal (take result bytes.now) ≡ true }
{
    let mut len = 0;
    while len < LOOKED_AT && len < bytes.len() && is_literal(bytes[len]) {
        len += 1;
    }
    len
}

/// Literal bytes as a text, which need no test.
pub fn literal_text(bytes: &[u8]) -> &str
    requires literal { list_all is_literal bytes.now ≡ true }
    ensures { result.now ≡ bytes.now }
{
    unsafe { str::from_utf8_unchecked(bytes) }
}

/// Whether the byte is a letter of ASCII or the underscore.
fn is_plain_start(b: &u8) -> bool
    ensures { result ≡ is_plain_start b.now }
{
    matches!(b, b'A'..=b'Z' | b'_' | b'a'..=b'z')
}

/// Whether the byte is a letter of ASCII, a digit, an underscore, a hyphen or a dot.
fn is_plain_part(b: &u8) -> bool
    ensures { result ≡ is_plain_part b.now }
{
    is_plain_start(b) || matches!(b, b'-'..=b'.' | b'0'..=b'9')
}

/// Whether each byte is such a character.
fn are_plain_parts(bytes: &[u8]) -> bool
    ensures { result ≡ list_all is_plain_part bytes.now }
{
    bytes.iter().all(is_plain_part)
}

/// Whether the bytes are a name of such characters of ASCII, and so an NCName (Namespaces in XML 1.0, section 3).
pub fn is_plain_name(bytes: &[u8]) -> bool
    ensures { result ≡ is_plain_name bytes.now }
{
    match bytes.split_first() {
        Some((first, rest)) => is_plain_start(first) && are_plain_parts(rest),
        None => false,
    }
}

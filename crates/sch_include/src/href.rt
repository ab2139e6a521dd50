//! What an include's `href` names.

ghost use Rattle.std.specs.Prelude.{◌≡◌, ◌++◌, string_bytes, IfOk, OnOk};
ghost use Rattle.sch_include.specs.Includes.{begins_with_slash, file_named, folder_of, has_fragment, has_scheme};

use sch_base::Text;
use std::alloc::{AllocError, Global};

/// Whether a text has a scheme: a colon before any `/`.
pub(crate) fn has_scheme(href: &str) -> bool
    ensures { result ≡ has_scheme href.now }
{
    for b in href.as_bytes() {
        if *b == b':' {
            return true;
        }
        if *b == b'/' {
            return false;
        }
    }
    false
}

/// Whether a text has a fragment: a `#`.
pub(crate) fn has_fragment(href: &str) -> bool
    ensures { result ≡ has_fragment href.now }
{
    href.as_bytes().iter().any(|b| *b == b'#')
}

/// Whether a text begins with a `/`.
fn begins_with_slash(href: &str) -> bool
    ensures { result ≡ begins_with_slash href.now }
{
    match href.as_bytes().first() {
        Some(b) => *b == b'/',
        None => false,
    }
}

/// The name of an included file: the folder part of the including file's name, then `href`; an `href` that begins with `/`
/// stands as it is.
pub(crate) fn file_named(alloc: Global, includer: &str, href: &str) -> Result<Text, AllocError>
    ensures { IfOk result (λ name. name ≡ file_named includer.now href.now) }
{
    if begins_with_slash(href) {
        return Text::copy(alloc, href);
    }
    let mut name = String::new(alloc);
    push_folder(&mut name, includer)?;
    name.push_str(href)?;
    Ok(Text::from(name))
}

/// Puts the folder part of a file's name at the end: up to the last `/`, which is included.
fn push_folder(text: &mut String, name: &str) -> Result<(), AllocError>
    ensures { OnOk result (string_bytes text.new ≡ string_bytes text.old ++ folder_of name.now) }
{
    match name.rfind('/') {
        Some(last) => text.push_str(&name[..last + 1]),
        None => Ok(()),
    }
}

//! The names of functions.

ghost use Rattle.std.specs.Prelude.{◌≡◌, map};
ghost use Rattle.sch_base.specs.Named.{named};
ghost use Rattle.xp_types.specs.FunctionNames.{function_named, is_left_out, listed};

use xp_typed_tree::Function;

/// Each function with its name.
const FUNCTIONS: [(&str, Function); 27] = [
    ("last", Function::Last),
    ("position", Function::Position),
    ("current", Function::Current),
    ("count", Function::Count),
    ("sum", Function::Sum),
    ("local-name", Function::LocalName),
    ("namespace-uri", Function::NamespaceUri),
    ("name", Function::Name),
    ("string", Function::String),
    ("number", Function::Number),
    ("boolean", Function::Boolean),
    ("not", Function::Not),
    ("true", Function::True),
    ("false", Function::False),
    ("concat", Function::Concat),
    ("starts-with", Function::StartsWith),
    ("contains", Function::Contains),
    ("substring-before", Function::SubstringBefore),
    ("substring-after", Function::SubstringAfter),
    ("substring", Function::Substring),
    ("string-length", Function::StringLength),
    ("normalize-space", Function::NormalizeSpace),
    ("translate", Function::Translate),
    ("lang", Function::Lang),
    ("floor", Function::Floor),
    ("ceiling", Function::Ceiling),
    ("round", Function::Round),
];

/// The functions of the standards that are left out here.
const LEFT_OUT: [&str; 9] = [
    "document",
    "key",
    "id",
    "format-number",
    "generate-id",
    "system-property",
    "unparsed-entity-uri",
    "element-available",
    "function-available",
];

/// The function of a name.
pub(crate) fn function_named(name: &str) -> Option<Function>
    ensures { result ≡ function_named name.now }
{
    named(&FUNCTIONS, name)
}

/// What a table has beside a name.
fn named(mut table: &[(&str, Function)], name: &str) -> Option<Function>
    ensures { result ≡ named (map (λ entry. (entry.0.now, entry.1)) table.entry.now) name.now }
{
    while let [entry, rest @ ..] = table {
        if name == entry.0 {
            return Some(entry.1);
        }
        table = rest;
    }
    None
}

/// Whether the standards have a function of the name that is left out here.
pub(crate) fn is_left_out(name: &str) -> bool
    ensures { result ≡ is_left_out name.now }
{
    listed(&LEFT_OUT, name)
}

/// Whether a name is among others.
fn listed(mut names: &[&str], name: &str) -> bool
    ensures { result ≡ listed (map (λ other. other.now) names.entry.now) name.now }
{
    while let [other, rest @ ..] = names {
        if name == *other {
            return true;
        }
        names = rest;
    }
    false
}

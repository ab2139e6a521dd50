//! Questions about texts of the language: their first faults, their trees and their printed texts.

ghost use Rattle.std.specs.Prelude.{◌≤◌, length};

use std::alloc::Global;
use std::test::Fail;
use test_rows::{copy, named, parts};
use xp_syntax::{MAX_EXPRESSION_BYTES, ParseError, parse_expr, parse_pattern, print_expr};

/// What is asked of a text.
#[derive(Clone, Copy)]
enum Question {
    Expression,
    Pattern,
    Tree,
    PatternTree,
    Printed,
}

/// The questions by their words.
const QUESTIONS: [(&str, Question); 5] = [
    ("expression", Question::Expression),
    ("pattern", Question::Pattern),
    ("tree", Question::Tree),
    ("pattern tree", Question::PatternTree),
    ("printed", Question::Printed),
];

/// Of an `expression` or a `pattern` the first fault, if any; of a `printed` one its text without abbreviations; of a `tree` and of
/// a `pattern tree` all their parts.
pub fn ask_text(alloc: Global, kind: &str, text: &str) -> Result<String, Fail> {
    if text.len() > MAX_EXPRESSION_BYTES {
        return Err("the text is too long".into());
    }
    match named(&QUESTIONS, kind)? {
        Question::Expression => expression(alloc, text),
        Question::Pattern => pattern(alloc, text),
        Question::Tree => tree(alloc, text),
        Question::PatternTree => pattern_tree(alloc, text),
        Question::Printed => printed(alloc, text),
    }
}

/// The first fault of an expression, if any.
fn expression(alloc: Global, text: &str) -> Result<String, Fail>
    requires { length text.now ≤ MAX_EXPRESSION_BYTES }
{
    first_fault(alloc, parse_expr(alloc, text).err(), "expression")
}

/// The first fault of a pattern, if any.
fn pattern(alloc: Global, text: &str) -> Result<String, Fail>
    requires { length text.now ≤ MAX_EXPRESSION_BYTES }
{
    first_fault(alloc, parse_pattern(alloc, text).err(), "pattern")
}

/// All parts of an expression.
fn tree(alloc: Global, text: &str) -> Result<String, Fail>
    requires { length text.now ≤ MAX_EXPRESSION_BYTES }
{
    let expr = parse_expr(alloc, text)?;
    let told = parts(alloc, &expr);
    drop(expr);
    told
}

/// All parts of a pattern.
fn pattern_tree(alloc: Global, text: &str) -> Result<String, Fail>
    requires { length text.now ≤ MAX_EXPRESSION_BYTES }
{
    let pattern = parse_pattern(alloc, text)?;
    let told = parts(alloc, &pattern);
    drop(pattern);
    told
}

/// The text of an expression without abbreviations.
fn printed(alloc: Global, text: &str) -> Result<String, Fail>
    requires { length text.now ≤ MAX_EXPRESSION_BYTES }
{
    let expr = parse_expr(alloc, text)?;
    let printed = print_expr(alloc, &expr);
    drop(expr);
    copy(alloc, printed?.as_str())
}

/// The kind and the place of a first fault, or what there is without one.
fn first_fault(alloc: Global, error: Option<ParseError>, good: &str) -> Result<String, Fail> {
    match error {
        Some(ParseError::Fault(fault)) => {
            Ok(format!(in alloc; "{:?} {}", fault.kind, fault.offset)?)
        }
        Some(ParseError::Memory) => Err("out of memory".into()),
        None => copy(alloc, good),
    }
}

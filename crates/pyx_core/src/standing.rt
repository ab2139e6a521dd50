//! Lines in their context.

ghost use Rattle.std.specs.Prelude.{◌≡◌, ◌&&◌, not, ◌++◌, ◌∷◌, [], List, ℕ, suc, length, false, Ok, None, Some, IfOk, IfSome, OnOk, OnErr};
ghost use Rattle.std.specs.List.{list_all};
ghost use Rattle.std.specs.Str.{bytes_eq, chars};
ghost use Rattle.sch_base.specs.Characters.{is_whitespace};
ghost use Rattle.pyx_core.specs.declared.line_table.Line.TheVariants as line_of;
ghost use Rattle.pyx_core.specs.declared.event.Located.{Located};
ghost use Rattle.pyx_core.specs.declared.line_table.Line.{Line};
ghost use Rattle.pyx_core.specs.declared.mode.Mode.{Mode};
ghost use Rattle.pyx_core.specs.declared.mode.Mode.TheVariants.{Fragment};
ghost use Rattle.pyx_core.specs.Before.{is_fragment, is_second, has_item, makes_item, misplaced, lacking, kept, is_outside, at_top, open_names, outer, is_innermost, takes_attribute, is_text, pending};
ghost use Rattle.pyx_core.specs.Reading.{judge};
ghost use Rattle.pyx_core.specs.inner.Plain.{AreLiteral};
ghost use Rattle.pyx_core.specs.inner.Standing.{AreNamed, ends_innermost, attribute_line, IsInside, HasRead, Settles, TakesLine, TakesLast};

use crate::begun::{Begun, Events};
use crate::line_table::{Line, is_qname, line_of, literal_body, parts};
use crate::plain::literal_text;
use crate::{Attr, Event, Mode, PyxKind};
use sch_base::{Text, is_whitespace};
use std::alloc::{AllocError, Global};

/// What is kept of the lines that were read.
#[derive(Drop)]
pub struct Standing {
    pub mode: Mode,
    /// The names of the open elements, the innermost last.
    pub opened: Vec<Text>,
    /// Whether the item that the text may have once at its top has begun.
    pub has_item: bool,
    pub events: Events,
}

fn is_fragment(mode: Mode) -> bool
    ensures { result ≡ is_fragment mode }
{
    matches!(mode, Mode::Fragment)
}

/// Whether the line stands for an item that the text may have once at its top, if no element is open.
fn makes_item(mode: Mode, line: &Line) -> bool
    ensures { result ≡ makes_item mode line.now }
{
    match line {
        Line::Start { .. } => true,
        Line::Chars { text } => is_fragment(mode) && !text.as_str().is_empty(),
        Line::Pi { .. } => is_fragment(mode),
        Line::Comment { .. } => is_fragment(mode),
        Line::Skipped => false,
        Line::Attribute { .. } => false,
        Line::End { .. } => false,
    }
}

fn is_whitespace_alone(text: &str) -> bool
    ensures { result ≡ list_all is_whitespace (chars text.now) }
{
    text.chars().all(|c| is_whitespace(c))
}

/// Whether the text has these bytes. Where they are known to be literal they are compared as a text, which is faster.
fn has_bytes(text: &Text, bytes: &[u8], is_literal: bool) -> bool
    requires literal { AreLiteral is_literal bytes.now }
    ensures { result ≡ bytes_eq text.now bytes.now }
{
    if is_literal {
        return text.as_str() == literal_text(bytes);
    }
    text.as_str().as_bytes() == bytes
}

/// Puts a name to those of the open elements.
fn open_name(alloc: Global, opened: &mut Vec<Text>, name: &Text) -> Result<(), AllocError>
    ensures opened { OnOk result (opened.new.items ≡ opened.old.items ++ name.now ∷ []) }
    ensures unchanged { OnErr result (opened.new.items ≡ opened.old.items) }
{
    let name = Text::copy(alloc, name.as_str())?;
    opened.push(name)?;
    Ok(())
}

/// The text of a character line, of which nothing is kept outside the document element.
fn kept(alloc: Global, is_outside: bool, text: Text) -> Text
    ensures { result ≡ kept is_outside text }
{
    if is_outside {
        Text::from(String::new(alloc))
    } else {
        text
    }
}

impl Standing {
    pub fn new(alloc: Global, mode: Mode) -> Standing
        ensures { HasRead result mode [] [] }
    {
        Standing {
            mode,
            opened: Vec::new(alloc),
            has_item: false,
            events: Events::new(alloc),
        }
    }

    /// Whether an element begins with the newest lines, so that attributes may follow.
    fn takes_attribute(&self) -> bool
        ensures { (mode : Mode) (taken : List Located) (before : List Line) → HasRead self.now mode taken before →
            result ≡ takes_attribute before }
    {
        matches!(self.events.begun, Begun::Element { .. })
    }

    /// Whether the newest lines have begun characters.
    fn is_text(&self) -> bool
        ensures { (mode : Mode) (taken : List Located) (before : List Line) → HasRead self.now mode taken before →
            result ≡ is_text (pending mode before) }
    {
        matches!(self.events.begun, Begun::Text { .. })
    }

    fn at_top(&self) -> bool
        ensures { (mode : Mode) (taken : List Located) (before : List Line) → HasRead self.now mode taken before →
            result ≡ at_top before }
    {
        self.opened.is_empty()
    }

    /// Whether the innermost open element has the name with these bytes, which may be known to be literal.
    fn is_innermost(&self, name: &[u8], is_literal: bool) -> bool
        requires literal { AreLiteral is_literal name.now }
        ensures { (mode : Mode) (taken : List Located) (before : List Line) → HasRead self.now mode taken before →
            result ≡ is_innermost name.now (open_names before) }
    {
        match self.opened.last() {
            Some(top) => has_bytes(top, name, is_literal),
            None => false,
        }
    }

    /// Whether the line with these bytes, which may be known to be literal, is `)` and the name of the innermost open
    /// element.
    fn ends_innermost(&self, bytes: &[u8], is_literal: bool) -> bool
        requires literal { AreLiteral is_literal bytes.now }
        ensures { (mode : Mode) (taken : List Located) (before : List Line) → HasRead self.now mode taken before →
            result ≡ ends_innermost bytes.now (open_names before) }
    {
        match bytes.split_first() {
            Some((mark, name)) => *mark == b')' && self.is_innermost(name, is_literal),
            None => false,
        }
    }

    /// Whether the line would be a second item at the top.
    fn is_second(&self, line: &Line) -> bool
        ensures { (mode : Mode) (taken : List Located) (before : List Line) → HasRead self.now mode taken before →
            result ≡ is_second mode before line.now }
    {
        makes_item(self.mode, line) && self.at_top() && self.has_item
    }

    /// Whether characters would be a second item at the top of a fragment, and don't go on with the first.
    fn is_second_text(&self, text: &str) -> bool
        ensures { (taken : List Located) (before : List Line) → HasRead self.now Fragment taken before →
            result ≡ (is_second Fragment before (line_of.Chars text.now) && not (is_text (pending Fragment before))) }
    {
        !text.is_empty() && self.at_top() && self.has_item && !self.is_text()
    }

    /// Whether the top item has begun after the line.
    fn has_item_after(&self, line: &Line) -> bool
        ensures { (mode : Mode) (taken : List Located) (before : List Line) → HasRead self.now mode taken before →
            result ≡ has_item mode (line.now ∷ before) }
    {
        makes_item(self.mode, line) || self.has_item
    }

    /// Whether the top item has begun after characters.
    fn has_item_after_chars(&self, text: &str) -> bool
        ensures { (mode : Mode) (taken : List Located) (before : List Line) → HasRead self.now mode taken before →
            result ≡ has_item mode (line_of.Chars text.now ∷ before) }
    {
        is_fragment(self.mode) && !text.is_empty() || self.has_item
    }

    /// The rule that the line breaks after those before it.
    fn misplaced(&self, line: &Line) -> Option<PyxKind>
        ensures { (mode : Mode) (taken : List Located) (before : List Line) → HasRead self.now mode taken before →
            result ≡ misplaced mode before line.now }
    {
        match line {
            Line::Skipped => None,
            Line::Attribute { .. } => (!self.takes_attribute()).then_some(PyxKind::AttributePlace),
            Line::End { name } => (!self.is_innermost(name.as_str().as_bytes(), false)).then_some(
                PyxKind::WrongEnd,
            ),
            Line::Chars { text } => self.misplaced_text(text),
            Line::Start { .. } => self.is_second(line).then_some(PyxKind::SecondRoot),
            Line::Pi { .. } => self.is_second(line).then_some(PyxKind::SecondRoot),
            Line::Comment { .. } => self.is_second(line).then_some(PyxKind::SecondRoot),
        }
    }

    fn misplaced_text(&self, text: &Text) -> Option<PyxKind>
        ensures { (mode : Mode) (taken : List Located) (before : List Line) → HasRead self.now mode taken before →
            result ≡ misplaced mode before (line_of.Chars text.now) }
    {
        let text = text.as_str();
        match self.mode {
            Mode::Document => {
                (self.at_top() && !is_whitespace_alone(text)).then_some(PyxKind::TextOutside)
            }
            Mode::Fragment => { self.is_second_text(text).then_some(PyxKind::SecondRoot) }
        }
    }

    /// Whether no element is open after a line that has its place.
    fn ends_at_top(&self, line: &Line) -> bool
        ensures { (mode : Mode) (taken : List Located) (before : List Line) → HasRead self.now mode taken before →
            result ≡ at_top (line.now ∷ before) }
    {
        match line {
            Line::Start { .. } => false,
            Line::End { .. } => self.opened.len() <= 1,
            _ => self.opened.is_empty(),
        }
    }

    /// The rule that the text breaks if it ends after the line.
    fn lacking(&self, line: &Line) -> Option<PyxKind>
        ensures { (mode : Mode) (taken : List Located) (before : List Line) → HasRead self.now mode taken before →
            result ≡ lacking mode (line.now ∷ before) }
    {
        if !self.has_item_after(line) {
            return Some(PyxKind::NoRoot);
        }
        (!self.ends_at_top(line)).then_some(PyxKind::Unfinished)
    }

    /// Whether the next line stands outside the document element.
    fn is_outside(&self) -> bool
        ensures { (mode : Mode) (taken : List Located) (before : List Line) → HasRead self.now mode taken before →
            result ≡ is_outside mode before }
    {
        !is_fragment(self.mode) && self.at_top()
    }

    /// Takes a line that has its place.
    fn settle(&mut self, alloc: Global, number: u64, line: Line) -> Result<(), AllocError>
        ensures { (mode : Mode) (taken : List Located) (before : List Line) → HasRead self.old mode taken before →
            number ≡ suc (length before) → AreNamed (line ∷ before) → Settles self.new mode taken before line result }
    {
        let is_outside = self.is_outside();
        self.has_item = self.has_item_after(&line);
        match line {
            Line::Skipped => Ok(()),
            Line::Start { name } => {
                open_name(alloc, &mut self.opened, &name)?;
                self.events.start(alloc, number, name)
            }
            Line::Attribute { attr } => self.events.attribute(attr),
            Line::End { name } => {
                let _ = self.opened.pop();
                self.events.whole(number, Event::End { name })
            }
            Line::Chars { text } => {
                let kept = kept(alloc, is_outside, text);
                self.events.text(number, kept)
            }
            Line::Pi { target, body } => self.events.whole(number, Event::Pi { target, body }),
            Line::Comment { text } => self.events.whole(number, Event::Comment { text }),
        }
    }

    /// Ends the innermost open element, whose name becomes that of the event.
    fn end_innermost(&mut self, number: u64) -> Result<(), AllocError>
        ensures { (mode : Mode) (taken : List Located) (before : List Line) (name : List ℕ) → HasRead self.old mode taken before →
            number ≡ suc (length before) → open_names before ≡ name ∷ outer (open_names before) →
            Settles self.new mode taken before (line_of.End name) result }
    {
        match self.opened.pop() {
            Some(name) => self.events.whole(number, Event::End { name }),
            None => Ok(()),
        }
    }

    /// The name of the element that the line with these bytes begins, where they are known to be literal and the line
    /// is good.
    #[tactic(auto, using(crate::proofs::LiteralLines::start_good))]
    fn literal_start<'a>(&self, bytes: &'a [u8], is_literal: bool) -> Option<&'a str>
        requires literal { AreLiteral is_literal bytes.now }
        ensures { (mode : Mode) (taken : List Located) (before : List Line) → HasRead self.now mode taken before →
            IfSome result (λ name. judge mode before bytes.now ≡ Ok (line_of.Start name.now)) }
    {
        let name = literal_body(bytes, b'(', is_literal)?;
        if self.at_top() && self.has_item {
            return None;
        }
        is_qname(name).then_some(name)
    }

    /// The text of the character line with these bytes, where they are known to be literal and an element is open.
    fn literal_chars<'a>(&self, bytes: &'a [u8], is_literal: bool) -> Option<&'a str>
        requires literal { AreLiteral is_literal bytes.now }
        ensures { (mode : Mode) (taken : List Located) (before : List Line) → HasRead self.now mode taken before →
            IfSome result (λ text. IsInside mode before bytes.now text.now) }
    {
        let text = literal_body(bytes, b'-', is_literal)?;
        if self.at_top() {
            return None;
        }
        Some(text)
    }

    /// The name and the value in the attribute line with these bytes, where they are known to be literal and the line is
    /// good.
    fn literal_attribute<'a>(&self, bytes: &'a [u8], is_literal: bool) -> Option<(&'a str, &'a str)>
        requires literal { AreLiteral is_literal bytes.now }
        ensures { (mode : Mode) (taken : List Located) (before : List Line) → HasRead self.now mode taken before →
            IfSome result (λ attr. judge mode before bytes.now ≡ Ok (attribute_line attr.0.now attr.1.now)) }
    {
        let body = literal_body(bytes, b'A', is_literal)?;
        if self.takes_attribute() {
            let (name, value) = parts(body);
            if is_qname(name) {
                return Some((name, value));
            }
        }
        None
    }

    /// Starts an element that has its place.
    fn start(&mut self, alloc: Global, number: u64, name: &str) -> Result<(), AllocError>
        ensures { (mode : Mode) (taken : List Located) (before : List Line) → HasRead self.old mode taken before →
            number ≡ suc (length before) → AreNamed (line_of.Start name.now ∷ before) →
            Settles self.new mode taken before (line_of.Start name.now) result }
    {
        self.has_item = true;
        let top = Text::copy(alloc, name)?;
        self.opened.push(top)?;
        let name = Text::copy(alloc, name)?;
        self.events.start(alloc, number, name)
    }

    /// Takes characters within an element.
    fn chars(&mut self, alloc: Global, number: u64, text: &str) -> Result<(), AllocError>
        ensures { (mode : Mode) (taken : List Located) (before : List Line) → HasRead self.old mode taken before →
            number ≡ suc (length before) → at_top before ≡ false →
            Settles self.new mode taken before (line_of.Chars text.now) result }
    {
        self.has_item = self.has_item_after_chars(text);
        self.events.lent_text(alloc, number, text)
    }

    /// Takes an attribute of the element that is begun.
    fn attribute(&mut self, alloc: Global, name: &str, value: &str) -> Result<(), AllocError>
        ensures { (mode : Mode) (taken : List Located) (before : List Line) → HasRead self.old mode taken before →
            Settles self.new mode taken before (attribute_line name.now value.now) result }
    {
        let name = Text::copy(alloc, name)?;
        let value = Text::copy(alloc, value)?;
        self.events.attribute(Attr { name, value })
    }

    /// The line with these bytes, which may be known to be literal, or the first rule that it breaks after the lines
    /// before it.
    fn judge(
        &self,
        alloc: Global,
        bytes: &[u8],
        is_literal: bool,
    ) -> Result<Result<Line, PyxKind>, AllocError>
        requires literal { AreLiteral is_literal bytes.now }
        ensures { (mode : Mode) (taken : List Located) (before : List Line) → HasRead self.now mode taken before →
            IfOk result (λ found. found ≡ judge mode before bytes.now) }
    {
        let line = match line_of(alloc, bytes, is_literal)? {
            Ok(line) => line,
            Err(kind) => return Ok(Err(kind)),
        };
        match self.misplaced(&line) {
            Some(kind) => {
                drop(line);
                Ok(Err(kind))
            }
            None => Ok(Ok(line)),
        }
    }

    /// Judges the line with these bytes, which may be known to be literal, and takes it if it is good; else the answer is
    /// the rule that it breaks.
    ///
    /// Those lines that come most are taken from their bytes, without a value of their own: one that ends the innermost
    /// open element, which is compared with the open name alone, and literal ones that begin an element, are
    /// characters in one or are an attribute.
    pub fn take(
        &mut self,
        alloc: Global,
        number: u64,
        bytes: &[u8],
        is_literal: bool,
    ) -> Result<Option<PyxKind>, AllocError>
        requires literal { AreLiteral is_literal bytes.now }
        ensures { (mode : Mode) (taken : List Located) (before : List Line) → HasRead self.old mode taken before →
            number ≡ suc (length before) → TakesLine self.new mode taken before (judge mode before bytes.now) result }
    {
        if self.ends_innermost(bytes, is_literal) {
            self.end_innermost(number)?;
            return Ok(None);
        }
        if let Some(name) = self.literal_start(bytes, is_literal) {
            self.start(alloc, number, name)?;
            return Ok(None);
        }
        if let Some(text) = self.literal_chars(bytes, is_literal) {
            self.chars(alloc, number, text)?;
            return Ok(None);
        }
        if let Some((name, value)) = self.literal_attribute(bytes, is_literal) {
            self.attribute(alloc, name, value)?;
            return Ok(None);
        }
        self.take_judged(alloc, number, bytes, is_literal)
    }

    /// Judges the line with these bytes, which may be known to be literal, and takes it if it is good; else the answer is
    /// the rule that it breaks.
    fn take_judged(
        &mut self,
        alloc: Global,
        number: u64,
        bytes: &[u8],
        is_literal: bool,
    ) -> Result<Option<PyxKind>, AllocError>
        requires literal { AreLiteral is_literal bytes.now }
        ensures { (mode : Mode) (taken : List Located) (before : List Line) → HasRead self.old mode taken before →
            number ≡ suc (length before) → TakesLine self.new mode taken before (judge mode before bytes.now) result }
    {
        let line = match self.judge(alloc, bytes, is_literal)? {
            Ok(line) => line,
            Err(kind) => return Ok(Some(kind)),
        };
        self.settle(alloc, number, line)?;
        Ok(None)
    }

    /// Judges the last line and the end of the text after it, and takes the line and completes the begun event if
    /// both are good; else the answer is the rule that is broken.
    pub fn finish(
        &mut self,
        alloc: Global,
        number: u64,
        bytes: &[u8],
    ) -> Result<Option<PyxKind>, AllocError>
        ensures { (mode : Mode) (taken : List Located) (before : List Line) → HasRead self.old mode taken before →
            number ≡ suc (length before) → TakesLast self.new mode taken before (judge mode before bytes.now) result }
    {
        let line = match self.judge(alloc, bytes, false)? {
            Ok(line) => line,
            Err(kind) => return Ok(Some(kind)),
        };
        if let Some(kind) = self.lacking(&line) {
            drop(line);
            return Ok(Some(kind));
        }
        self.settle(alloc, number, line)?;
        self.events.complete()?;
        Ok(None)
    }
}

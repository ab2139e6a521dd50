//! The events that wait to be taken, and the one that the newest lines have begun.

ghost use Rattle.std.specs.Prelude.{◌≡◌, ◌++◌, ◌∷◌, [], List, Option, None, Some};
ghost use Rattle.std.specs.Option.{option_to_list};
ghost use Rattle.pyx_core.specs.declared.begun.Begun.TheVariants as begun_of;
ghost use Rattle.pyx_core.specs.declared.event.Event.TheVariants as event;
ghost use Rattle.pyx_core.specs.declared.event.Located.{Located};
ghost use Rattle.pyx_core.specs.Before.{located, with_attr, with_text, begin_text, but_text, is_text};
ghost use Rattle.pyx_core.specs.inner.Begun.{shown, Puts, Collected, Goes};

use crate::{Attr, AttrList, Event, Located};
use sch_base::Text;
use std::alloc::{AllocError, Global};
use std::collections::VecDeque;
use std::mem;

/// An event that the next line may continue.
#[derive(Drop)]
pub enum Begun {
    Nothing,
    Element {
        line: u64,
        name: Text,
        attrs: AttrList,
    },
    /// The characters of one line, or of several that were joined.
    Text {
        line: u64,
        text: Text,
    },
}

/// The events of the lines that were read.
#[derive(Drop)]
pub struct Events {
    /// The event that may still be continued.
    pub begun: Begun,
    /// The completed events before it that were not taken.
    pub waiting: VecDeque<Located>,
}

/// Puts an event to those that wait.
fn put(waiting: &mut VecDeque<Located>, event: Located) -> Result<(), AllocError>
    ensures { Puts waiting.old.items waiting.new.items (event ∷ []) result }
{
    waiting.push_back(event)?;
    Ok(())
}

/// Puts a begun event to those that wait.
fn complete(waiting: &mut VecDeque<Located>, begun: Begun) -> Result<(), AllocError>
    ensures { Puts waiting.old.items waiting.new.items (option_to_list (shown begun)) result }
{
    match begun {
        Begun::Nothing => Ok(()),
        Begun::Element { line, name, attrs } => put(
            waiting,
            Located {
                line,
                event: Event::Start { name, attrs },
            },
        ),
        Begun::Text { line, text } => put(
            waiting,
            Located {
                line,
                event: Event::Chars { text },
            },
        ),
    }
}

/// Characters that begin in a line, where there are any.
fn begin_text(line: u64, text: Text) -> Begun
    ensures { shown result ≡ begin_text line text }
{
    if text.as_str().is_empty() {
        return Begun::Nothing;
    }
    Begun::Text { line, text }
}

impl Events {
    pub fn new(alloc: Global) -> Events
        ensures { Collected result [] [] None }
    {
        Events {
            begun: Begun::Nothing,
            waiting: VecDeque::new(alloc),
        }
    }

    /// Begins another event, or none, which completes the begun one.
    fn begin(&mut self, next: Begun) -> Result<(), AllocError>
        ensures { (taken done : List Located) (begun : Option Located) → Collected self.old taken done begun →
            Goes self.new taken done (option_to_list begun) (shown next) result }
    {
        let begun = mem::replace(&mut self.begun, next);
        complete(&mut self.waiting, begun)
    }

    /// Completes the begun event.
    pub fn complete(&mut self) -> Result<(), AllocError>
        ensures { (taken done : List Located) (begun : Option Located) → Collected self.old taken done begun →
            Goes self.new taken done (option_to_list begun) None result }
    {
        self.begin(Begun::Nothing)
    }

    /// Begins an element, which completes the begun event.
    pub fn start(&mut self, alloc: Global, line: u64, name: Text) -> Result<(), AllocError>
        ensures { (taken done : List Located) (begun : Option Located) → Collected self.old taken done begun →
            Goes self.new taken done (option_to_list begun) (Some (located line (event.Start name []))) result }
    {
        let attrs = AttrList::new(alloc);
        self.begin(Begun::Element { line, name, attrs })
    }

    /// Puts an attribute to the element that is begun.
    pub fn attribute(&mut self, attr: Attr) -> Result<(), AllocError>
        ensures { (taken done : List Located) (begun : Option Located) → Collected self.old taken done begun →
            Goes self.new taken done [] (with_attr attr begun) result }
    {
        match &mut self.begun {
            Begun::Element { attrs, .. } => attrs.push(attr),
            _ => Ok(()),
        }
    }

    /// Takes characters: they go on with those that are begun, or complete another event and begin.
    ///
    /// The characters of one line are not copied.
    pub fn text(&mut self, line: u64, text: Text) -> Result<(), AllocError>
        ensures { (taken done : List Located) (begun : Option Located) → Collected self.old taken done begun →
            Goes self.new taken done (but_text begun) (with_text line text begun) result }
    {
        match &mut self.begun {
            Begun::Text { text: begun, .. } => begun.push_str(text.as_str()),
            _ => self.begin(begin_text(line, text)),
        }
    }

    /// Takes characters that are lent, which are copied at once to those that are begun.
    pub fn lent_text(&mut self, alloc: Global, line: u64, text: &str) -> Result<(), AllocError>
        ensures { (taken done : List Located) (begun : Option Located) → Collected self.old taken done begun →
            Goes self.new taken done (but_text begun) (with_text line text.now begun) result }
    {
        match &mut self.begun {
            Begun::Text { text: begun, .. } => begun.push_str(text),
            _ => self.begin_lent(alloc, line, text),
        }
    }

    /// Begins characters that are lent, if there are any, which completes the begun event.
    fn begin_lent(&mut self, alloc: Global, line: u64, text: &str) -> Result<(), AllocError>
        ensures { (taken done : List Located) (begun : Option Located) → Collected self.old taken done begun →
            Goes self.new taken done (option_to_list begun) (begin_text line text.now) result }
    {
        let text = Text::copy(alloc, text)?;
        self.begin(begin_text(line, text))
    }

    /// Takes an event that no line continues.
    pub fn whole(&mut self, line: u64, event: Event) -> Result<(), AllocError>
        ensures { (taken done : List Located) (begun : Option Located) → Collected self.old taken done begun →
            Goes self.new taken done (option_to_list begun ++ located line event ∷ []) None result }
    {
        self.complete()?;
        put(&mut self.waiting, Located { line, event })
    }
}

//! Laws of the definitions, for the proofs of callers.

ghost use Rattle.pyx_core.specs.Escapes.{EscapesAreUndone, EscapesHoldNoLineEnd};
ghost use Rattle.pyx_core.specs.Nesting.{EventsNest};
ghost use Rattle.pyx_core.specs.Reading.{FaultsStay, CompletedEventsStay, EventsAreFew};
ghost use Rattle.pyx_core.specs.Written.{WrittenIsReadBack};

/// To undo the escapes of an escaped text gives the text.
pub fn unescaped_undoes_escaped()
    ensures { EscapesAreUndone }
{}

/// An escaped text is within one line.
pub fn escaped_holds_no_line_end()
    ensures { EscapesHoldNoLineEnd }
{}

/// A fault in the lines that have ended stays the text's first fault, whatever follows.
pub fn faults_stay()
    ensures { FaultsStay }
{}

/// Events that are completed stay the first ones, whatever follows.
pub fn completed_events_stay()
    ensures { CompletedEventsStay }
{}

/// The completed events nest, and so do the events of a whole text.
pub fn events_nest()
    ensures { EventsNest }
{}

/// Events that are written as lines are read back from them.
pub fn written_is_read_back()
    ensures { WrittenIsReadBack }
{}

/// A text has no more events than bytes.
pub fn events_are_few()
    ensures { EventsAreFew }
{}

//! Examples of whole runs in memory. Rows set the schema `s.pyx`, the document `d.pyx` and files of other names; others run words
//! over them, and tell the status, the line on the error output, and the output, or the status and how many steps were taken.

use crate::settings::{PLAIN, ROOM, Setting};
use crate::sinks::tell;
use sch_cli::Words;
use sch_io::MemoryShelf;
use std::alloc::{AllocError, Global};
use std::marker::Brand;
use std::sync::ledger::Blank;
use std::test::Fail;
use test_rows::{Answers, first_word, named, repeated};

/// The files of a run.
#[derive(Drop)]
pub struct Runs {
    pub alloc: Global,
    held: Vec<HeldFile>,
}

#[derive(Drop)]
struct HeldFile {
    name: String,
    bytes: Vec<u8>,
}

/// What a row sets or runs, by the first word of its kind.
#[derive(Clone, Copy)]
enum Question {
    Schema,
    Document,
    /// The file whose name is the second word.
    File,
    /// The same without its last byte; the document where there is no second word.
    Cut,
    /// The same with its parts repeated.
    Repeated,
    Run,
    /// A run of whose output the lines of reports are left out.
    Marks,
    Steps,
    /// A run whose output has room for that many bytes.
    Room,
    /// A run whose shelf fails at the call of that number.
    Failing,
    /// A run whose error output fails.
    Unheard,
    /// Runs with reads and writes of at most that many bytes.
    Pieces,
    /// Runs whose shelf fails at each of its calls.
    Reads,
    /// Runs whose output fails at each of its writes.
    Writes,
}

/// The questions by their words.
const QUESTIONS: [(&str, Question); 14] = [
    ("schema", Question::Schema),
    ("document", Question::Document),
    ("file", Question::File),
    ("cut", Question::Cut),
    ("repeated", Question::Repeated),
    ("run", Question::Run),
    ("marks", Question::Marks),
    ("steps", Question::Steps),
    ("room", Question::Room),
    ("failing", Question::Failing),
    ("unheard", Question::Unheard),
    ("pieces", Question::Pieces),
    ("reads", Question::Reads),
    ("writes", Question::Writes),
];

impl Answers for Runs {
    fn answer(&mut self, kind: &str, input: &str) -> Result<String, Fail> {
        let (word, rest) = first_word(kind);
        match named(&QUESTIONS, word)? {
            Question::Schema => self.put_text("s.pyx", input),
            Question::Document => self.put_text("d.pyx", input),
            Question::File => self.put_text(rest, input),
            Question::Cut => self.put_cut(rest, input),
            Question::Repeated => self.put_repeated(rest, input),
            Question::Run => self.ended(input, PLAIN),
            Question::Marks => self.told_marks(input),
            Question::Steps => self.told_steps(input),
            Question::Room => self.told_within(rest, input),
            Question::Failing => self.told_failing(rest, input),
            Question::Unheard => self.told_unheard(input),
            Question::Pieces => self.told_pieces(rest, input),
            Question::Reads => self.told_reads(input),
            Question::Writes => self.told_writes(input),
        }
    }
}

impl Runs {
    /// No files.
    pub fn new(alloc: Global) -> Runs {
        Runs {
            alloc,
            held: Vec::new(alloc),
        }
    }

    /// Sets the file of that name to a text.
    fn put_text(&mut self, name: &str, text: &str) -> Result<String, Fail> {
        self.put(name, text.as_bytes())
    }

    /// Sets a file without its last byte.
    fn put_cut(&mut self, name: &str, text: &str) -> Result<String, Fail> {
        match text.as_bytes().split_last() {
            Some((_, front)) => self.put(name_of(name), front),
            None => Err("nothing to cut".into()),
        }
    }

    /// Sets a file with its parts repeated.
    fn put_repeated(&mut self, name: &str, text: &str) -> Result<String, Fail> {
        let text = repeated(self.alloc, text)?;
        let told = self.put(name_of(name), text.as_bytes());
        drop(text);
        told
    }

    /// Sets the file of that name in place of an earlier one; nothing is told of it.
    fn put(&mut self, name: &str, held: &[u8]) -> Result<String, Fail> {
        self.held.retain(|file| file.name.as_str() != name);
        let name = String::from_str(self.alloc, name)?;
        let bytes = Vec::from_slice(self.alloc, held)?;
        self.held.push(HeldFile { name, bytes })?;
        Ok(String::new(self.alloc))
    }

    /// How words end, and what they write but for the lines of reports.
    fn told_marks(&self, words: &str) -> Result<String, Fail> {
        let told = self.ended(
            words,
            Setting {
                room: ROOM,
                ..PLAIN
            },
        )?;
        let marks = marks_of(self.alloc, told.as_str());
        drop(told);
        marks
    }

    /// How words end, and how many steps that takes.
    fn told_steps(&self, words: &str) -> Result<String, Fail> {
        self.ended(
            words,
            Setting {
                room: ROOM,
                are_steps: true,
                ..PLAIN
            },
        )
    }

    /// How words end, and what they write, with room for that many bytes of output.
    fn told_within(&self, room: &str, words: &str) -> Result<String, Fail> {
        self.ended(
            words,
            Setting {
                room: room.parse()?,
                ..PLAIN
            },
        )
    }

    /// The same over a shelf whose call of that number fails.
    fn told_failing(&self, call: &str, words: &str) -> Result<String, Fail> {
        self.ended(
            words,
            Setting {
                failing_read: call.parse()?,
                ..PLAIN
            },
        )
    }

    /// The same with an error output whose first write fails.
    fn told_unheard(&self, words: &str) -> Result<String, Fail> {
        self.ended(
            words,
            Setting {
                failing_line: 1,
                ..PLAIN
            },
        )
    }

    /// How words end where a run is set up so, and what is told of it.
    pub fn ended(&self, words: &str, setting: Setting) -> Result<String, Fail> {
        let mut list = Words::new(self.alloc);
        for word in words.split(' ') {
            list.push(word)?;
        }
        let told = self.ended_words(&list, setting);
        drop(list);
        told
    }

    /// The same of the words as a list.
    fn ended_words(&self, words: &Words, setting: Setting) -> Result<String, Fail> {
        let mut shelf = MemoryShelf::new(self.alloc);
        let told = match self.fill(&mut shelf, setting) {
            Ok(()) => tell::<Brand>(self.alloc, words, &mut shelf, setting, Blank::new(1)),
            Err(fail) => Err(fail.into()),
        };
        drop(shelf);
        told
    }

    /// Puts the files on a shelf, which gives at most so many bytes at once, and fails at the call of that number.
    fn fill(&self, shelf: &mut MemoryShelf, setting: Setting) -> Result<(), AllocError> {
        for file in &self.held {
            shelf.put(file.name.as_str(), file.bytes.as_slice())?;
        }
        if setting.most_read > 0 {
            shelf.read_at_most(setting.most_read);
        }
        shelf.fail_at(setting.failing_read)
    }
}

/// The name of a file, which is the document's where there is none.
fn name_of(word: &str) -> &str {
    if word.is_empty() { "d.pyx" } else { word }
}

/// The status of what is told of a run, and the lines behind it that are no lines of a report.
fn marks_of(alloc: Global, told: &str) -> Result<String, Fail> {
    let (status, lines) = first_word(told);
    let mut marks = format!(in alloc; "{status} ")?;
    for line in lines.lines() {
        if is_mark(line) {
            write!(marks, "{line}\n")?;
        }
    }
    Ok(marks)
}

/// Whether a line tells of an edit or a fault, and is none of a report.
fn is_mark(line: &str) -> bool {
    line.starts_with('?') || line.starts_with("sch: ")
}

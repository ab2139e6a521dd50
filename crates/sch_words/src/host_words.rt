//! The words of a command line, read from the host.

ghost use Rattle.std.specs.Prelude.{◌≡◌, ◌<◌, ◌∷◌, ◌++◌, ℕ, List, [], Option, None, Some, OnOk, MatchOption, MatchResult, slice_get};
ghost use Rattle.std.specs.Io.{WritesAtMost};
ghost use Rattle.sch_words.specs.declared.host_words.WordsError.TheVariants as errors;
ghost use Rattle.sch_words.specs.HostWords.{CopiesWord, IsWordOf, ReadsWords, RefusesWord};

use crate::words::Words;
use std::alloc::{AllocError, Global};
use std::env::{Env, FillError};
use std::str;

/// Rooms in bytes that a word is read into, the next where the one before is too small.
const ROOMS: [usize; 4] = [256, 4_096, 131_072, 16_777_216];

/// Where the words of a command line behind the program's name come from.
pub trait Arguments {
    // the words as bytes, where they are told
    ghost words: { Self → Option (List (List ℕ)) };

    /// Copies the word with the number, counted from 0, to the start of the room, and answers its length in bytes.
    fn copy_word(&self, number: usize, room: &mut [u8]) -> Result<usize, FillError>
        requires { number < usize.MAX }
        ensures bound { WritesAtMost result room.new }
        ensures copied { CopiesWord (words self.now) number room.new result };
}

/// The words that the host gives, which it tells no contract.
#[derive(Drop)]
pub struct HostArguments<'a, R: Env> {
    host: &'a R,
}

impl<'a, R: Env> HostArguments<'a, R> {
    /// The words of the host.
    pub fn new(host: &'a R) -> HostArguments<'a, R> {
        HostArguments { host }
    }
}

impl<R: Env> Arguments for HostArguments<'_, R> {
    ghost words = { λ _. None };

    fn copy_word(&self, number: usize, room: &mut [u8]) -> Result<usize, FillError> {
        self.host.arg(number + 1, room)
    }
}

/// Why the words are not read.
#[derive(Clone, Copy)]
pub enum WordsError {
    /// One has more bytes than a word may have.
    TooLong,
    /// Memory ran out.
    Memory,
}

impl From<AllocError> for WordsError {
    ghost from_gives = { λ _ error. error ≡ errors.Memory };

    fn from(_refused: AllocError) -> Self {
        WordsError::Memory
    }
}

/// All words; one that is not UTF-8 becomes the empty word.
pub fn read_words<A: Arguments>(alloc: Global, arguments: &A) -> Result<Words, WordsError>
    ensures { (all : List (List ℕ)) → A.words arguments.now ≡ Some all → ReadsWords all result }
{
    let mut words = Words::new(alloc);
    for number in 0..usize::MAX {
        match bytes_of_word(alloc, arguments, number)? {
            Some(bytes) => push_word(&mut words, bytes)?,
            None => return Ok(words),
        }
    }
    // no memory holds so many
    Err(WordsError::Memory)
}

/// Takes the bytes as the next word.
fn push_word(words: &mut Words, bytes: Vec<u8>) -> Result<(), AllocError>
    ensures { OnOk result ((word : List ℕ) × IsWordOf bytes.items word × (words.new ≡ words.old ++ word ∷ [])) }
{
    let pushed = words.push(word_of(bytes.as_slice()));
    drop(bytes);
    pushed
}

/// A word as the program takes it: its bytes where they are UTF-8, and else the empty word.
fn word_of(bytes: &[u8]) -> &str
    ensures { IsWordOf bytes.now result.now }
{
    str::from_utf8(bytes).unwrap_or("")
}

/// The bytes of the word with the number, or None past the last word.
fn bytes_of_word<A: Arguments>(
    alloc: Global,
    arguments: &A,
    number: usize,
) -> Result<Option<Vec<u8>>, WordsError>
    requires { number < usize.MAX }
    ensures { (all : List (List ℕ)) → A.words arguments.now ≡ Some all → MatchResult result
        (λ found. MatchOption found (slice_get all number ≡ None) (λ bytes. slice_get all number ≡ Some bytes.items)) (RefusesWord all number) }
{
    for room in ROOMS {
        let mut bytes = vec![in alloc; 0u8; room]?;
        match arguments.copy_word(number, bytes.as_mut_slice()) {
            Ok(n) => {
                bytes.truncate(n);
                return Ok(Some(bytes));
            }
            Err(FillError::NotPresent) => {
                drop(bytes);
                return Ok(None);
            }
            Err(FillError::TooLong) => drop(bytes),
        }
    }
    Err(WordsError::TooLong)
}

//! Runs in turn over the same files: with short reads and writes, and with a fault of the first call, of the second, and so on. What is
//! told of a run is passed over where the same was told of the one before.

use crate::runs::Runs;
use crate::settings::{PLAIN, Setting};
use std::test::Fail;
use test_rows::{first_word, number};

/// How many calls of one kind a run makes at most.
const MOST_CALLS: u64 = 10_000;

/// With what begins what is told of a run that a failed write ends.
const WRITE_FAULT: &str = "9 sch: write fault\n";

/// What is told of such a run where a front of the whole output was written.
const FRONT: &str = "9 sch: write fault\na front of the output\n";

impl Runs {
    /// Runs with reads of at most so many bytes, with such writes, and with both.
    pub fn told_pieces(&self, most: &str, words: &str) -> Result<String, Fail> {
        let most = number(most)?;
        let reads = Setting {
            most_read: most,
            ..PLAIN
        };
        let writes = Setting {
            most_written: most,
            ..PLAIN
        };
        let both = Setting {
            most_read: most,
            ..writes
        };
        self.told_of_each(&[reads, writes, both], words)
    }

    /// Runs that are set up so.
    fn told_of_each(&self, settings: &[Setting], words: &str) -> Result<String, Fail> {
        let mut turns = String::new(self.alloc);
        for setting in settings {
            self.append_run(&mut turns, *setting, words)?;
        }
        Ok(turns)
    }

    /// Appends what is told of a run that is set up so.
    fn append_run(&self, turns: &mut String, setting: Setting, words: &str) -> Result<(), Fail> {
        let told = self.ended(words, setting)?;
        let done = append(turns, told.as_str());
        drop(told);
        done
    }

    /// Runs whose shelf fails at its first call, at its second, and so on, up to one that does not come to that call.
    pub fn told_reads(&self, words: &str) -> Result<String, Fail> {
        let mut turns = String::new(self.alloc);
        for call in 1..=MOST_CALLS {
            if self.is_last_read(&mut turns, call, words)? {
                break;
            }
        }
        Ok(turns)
    }

    /// Appends what is told of a run whose shelf fails at that call, and whether it did not end for that.
    fn is_last_read(&self, turns: &mut String, call: u64, words: &str) -> Result<bool, Fail> {
        let told = self.ended(
            words,
            Setting {
                failing_read: call,
                ..PLAIN
            },
        )?;
        let is_last = append_faulted(turns, told.as_str(), "8 ");
        drop(told);
        is_last
    }

    /// Runs whose output fails at its first write, at its second, and so on, up to one that does not come to that write.
    pub fn told_writes(&self, words: &str) -> Result<String, Fail> {
        let whole = self.ended(words, PLAIN)?;
        let (_, output) = first_word(whole.as_str());
        let told = self.told_fronts(output, words);
        drop(whole);
        told
    }

    /// The same, where the output of a run without faults is this one.
    fn told_fronts(&self, output: &str, words: &str) -> Result<String, Fail> {
        let mut turns = String::new(self.alloc);
        for call in 1..=MOST_CALLS {
            if self.is_last_write(&mut turns, call, output, words)? {
                break;
            }
        }
        Ok(turns)
    }

    /// Appends what is told of a run whose output fails at that write, and whether it did not end for that.
    fn is_last_write(
        &self,
        turns: &mut String,
        call: u64,
        output: &str,
        words: &str,
    ) -> Result<bool, Fail> {
        let told = self.ended(
            words,
            Setting {
                failing_write: call,
                ..PLAIN
            },
        )?;
        let is_last = append_faulted(turns, stopped(told.as_str(), output), "9 ");
        drop(told);
        is_last
    }
}

/// Appends what is told of a run, and whether the status before it is not that of the fault.
fn append_faulted(turns: &mut String, told: &str, status: &str) -> Result<bool, Fail> {
    append(turns, told)?;
    Ok(!told.starts_with(status))
}

/// Appends what is told of a run, unless the turns end with it.
fn append(turns: &mut String, told: &str) -> Result<(), Fail> {
    if turns.ends_with(told) {
        Ok(())
    } else {
        Ok(turns.push_str(told)?)
    }
}

/// What is told of a run that may have ended at a failed write: that a front of the output was written, where that is so.
fn stopped<'t>(told: &'t str, output: &str) -> &'t str {
    match told.strip_prefix(WRITE_FAULT) {
        Some(front) if output.starts_with(front) => FRONT,
        _ => told,
    }
}

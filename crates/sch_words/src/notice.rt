//! What the program says of itself.

ghost use Rattle.sch_io.specs.Wrote.{Wrote};
ghost use Rattle.sch_words.specs.Notices.{notice_text};

use sch_io::{Failed, Sink, write_pieces};

/// The version of the program.
const VERSION: &str = "1.0.0";

/// What the program says of itself.
#[derive(Clone, Copy)]
pub enum Notice {
    /// The accepted words, and what each status says.
    Help,
    /// The program's name and version.
    Version,
}

impl Notice {
    /// Writes its text.
    pub fn write<O: Sink>(self, out: &mut O) -> Result<(), Failed>
        ensures { Wrote (O.log out.old) (O.log out.new) (notice_text self) result }
    {
        match self {
            Notice::Help => write_pieces(
                out,
                &[
                    "sch validate SCHEMA DOCUMENT\n",
                    "sch validate --phase PHASE SCHEMA DOCUMENT\n",
                    "sch follow SCHEMA DOCUMENT SCRIPT\n",
                    "sch follow --phase PHASE SCHEMA DOCUMENT SCRIPT\n",
                    "sch follow --undo COUNT SCHEMA DOCUMENT SCRIPT\n",
                    "sch follow --phase PHASE --undo COUNT SCHEMA DOCUMENT SCRIPT\n",
                    "sch watch WATCHES DOCUMENT SCRIPT\n",
                    "sch expand SCHEMA\n",
                    "sch measure COUNT\n",
                    "sch summary REPORT\n",
                    "sch --help\n",
                    "sch --version\n",
                    "status 0: done; the report, of `follow` the last one, has no finding\n",
                    "status 1: the report, of `follow` the last one, has a finding\n",
                    "status 2: the words are not accepted\n",
                    "status 3: the schema is refused, or the watches are\n",
                    "status 4: the document is refused\n",
                    "status 5: the script is refused\n",
                    "status 6: an evaluation faults, of `follow` and `watch` at any state\n",
                    "status 7: a named or included file is not there\n",
                    "status 8: a read failed\n",
                    "status 9: a write failed\n",
                    "status 10: memory ran out\n",
                ],
            ),
            Notice::Version => write_pieces(out, &["sch ", VERSION, "\n"]),
        }
    }
}

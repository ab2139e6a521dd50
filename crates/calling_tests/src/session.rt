//! The reports of a document that is edited.

use anyhow::Error;
use edit_script::ScriptReader;
use edit_session::Session;
use sch_io::Sink;
use std::sync::ledger::Ledger;
use xp_eval::Steps;

/// Writes the report of a document, does the next command of a script, and writes the report again, for which only those units
/// are evaluated that read what the command touched.
pub fn report_twice<O: Sink, L: Ledger>(
    session: &mut Session,
    script: &mut ScriptReader<'_>,
    out: &mut O,
    steps: &mut Steps<L>,
) -> Result<(), Error> {
    session.report(out, steps)?;
    if let Some(command) = script.next()? {
        session.apply(&command)?;
    }
    session.report(out, steps)?;
    Ok(())
}

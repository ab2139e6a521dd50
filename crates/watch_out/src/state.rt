//! The states of watched expressions, written.

ghost use Rattle.std.specs.Prelude.{◌≡◌, ◌<◌, ◌+◌, length};
ghost use Rattle.svrl_out.specs.Report.{Reported};
ghost use Rattle.xp_watch.specs.Kept.{IsFresh};
ghost use Rattle.watch_out.specs.Lines.{shows_fault, watch_lines, watch_text};
ghost use Rattle.xp_watch.specs.Costs.{has_fault};

use crate::value::write_value;
use sch_io::Sink;
use svrl_out::OutError;
use xp_meaning_laws::values_have_types;
use xp_watch::Watch;

/// Writes what each watched expression gives, in their order, once all were evaluated.
///
/// After an error a front of the lines was written. The time grows with what is written; for a node-set as a `Locator` says.
pub fn write_watches<O: Sink>(watch: &Watch, sink: &mut O) -> Result<(), OutError>
    requires { IsFresh watch.now.tree.nodes watch.now.expressions watch.now.kept }
    ensures { Reported (O.log sink.old) (O.log sink.new) (watch_text watch.now.tree.nodes watch.now.expressions) result }
{
    for k in 0..watch.len() {
        write_watch(watch, k, k + 1, sink)?;
    }
    Ok(())
}

/// Writes what a watched expression gives, by its number from 0 and the one that is told, from 1.
fn write_watch<O: Sink>(
    watch: &Watch,
    k: usize,
    number: usize,
    sink: &mut O,
) -> Result<(), OutError>
    requires fresh { IsFresh watch.now.tree.nodes watch.now.expressions watch.now.kept }
    requires within { k < length watch.now.expressions }
    requires number { number ≡ k + 1 }
    ensures { Reported (O.log sink.old) (O.log sink.new) (watch_lines watch.now.tree.nodes watch.now.expressions k) result }
{
    watch.laws();
    let tree = watch.tree();
    values_have_types();
    match watch.value(k) {
        Some(given) => write_value(watch.alloc(), tree, number, given, sink),
        None => Ok(()),
    }
}

/// Whether a watched expression meets a fault, once all were evaluated. Looks at each.
pub fn shows_fault(watch: &Watch) -> bool
    requires { IsFresh watch.now.tree.nodes watch.now.expressions watch.now.kept }
    ensures { result ≡ shows_fault watch.now.tree.nodes watch.now.expressions }
{
    for k in 0..watch.len() {
        if has_fault(watch, k) {
            return true;
        }
    }
    false
}

/// Whether a watched expression meets a fault.
fn has_fault(watch: &Watch, k: usize) -> bool
    requires fresh { IsFresh watch.now.tree.nodes watch.now.expressions watch.now.kept }
    requires within { k < length watch.now.expressions }
    ensures { result ≡ has_fault watch.now.tree.nodes watch.now.expressions k }
{
    match watch.value(k) {
        Some(given) => given.is_err(),
        None => false,
    }
}

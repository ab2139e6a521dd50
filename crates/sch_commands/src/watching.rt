//! Watched expressions: the expressions, the document and the script read, then what they give, and the same behind each command.

ghost use Rattle.std.specs.Prelude.{◌≡◌, ◌≤◌, ◌+◌, false, [], ◌∷◌, Some, IfOk, OnOk, length};
ghost use Rattle.doc_tree.specs.limits.TheConstants.{MAX_LIVE_NODES};
ghost use Rattle.edit_script.specs.declared.limits.TheConstants.{MAX_SCRIPT_BYTES};
ghost use Rattle.sch_words.specs.Commands.{watch};
ghost use Rattle.sch_words.specs.declared.status.Status.TheVariants as statuses;
ghost use Rattle.sch_stops.specs.Stops.{ends_with};
ghost use Rattle.sch_loading.specs.Reads.{Reads, file};
ghost use Rattle.sch_loading.specs.Loading as loading;
ghost use Rattle.watch_out.specs.Lines.{shows_fault, watch_text};
ghost use Rattle.sch_commands.specs.Behaviours.{OpeningWatch, WatchingAll, WatchingOn, behaviour};
ghost use Rattle.sch_commands.specs.Telling.{shown_of};
ghost use Rattle.sch_commands.specs.Carried.{Carried};
ghost use Rattle.sch_commands.specs.inner.Counts.{RoseFor};
ghost use Rattle.sch_commands.specs.inner.Followers.{watched_by, watched_script};
ghost use Rattle.sch_commands.specs.inner.Sessions.{IsUnevaluated, IsWatched, document_watched, stale_cost};
ghost use Rattle.sch_commands.specs.inner.Writing.{WroteText, of_out};

use crate::following::{script_has_cost, write_states};
use sch_base::Text;
use sch_io::{Bytes, Shelf, Sink};
use sch_loading::{load_document, load_watches, read_script};
use sch_stops::Stop;
use sch_undo::Shown;
use sch_words::Watching;
use std::alloc::{AllocError, Global};
use std::sync::ledger::Ledger;
use watch_list::WatchList;
use watch_out::{OutError, shows_fault, write_watches};
use xp_outcome::Steps;
use xp_watch::Watch;

/// Watches the expressions that are asked for: writes what each gives over the document, and again behind each command; answers what the
/// states show.
pub(crate) fn watch<S: Shelf, O: Sink, L: Ledger>(
    alloc: Global,
    asked: Watching<'_>,
    shelf: &mut S,
    out: &mut O,
    steps: &mut Steps<L>,
) -> Result<Shown, Stop>
    ensures carried { Carried (behaviour (Some (watch asked.entry.watches.now asked.entry.document.now asked.entry.script.now)))
        (S.state shelf.old) (S.state shelf.new) (O.log out.old) (O.log out.new) steps.old steps.new result }
    ensures accepted { ends_with statuses.Usage result ≡ false }
{
    let Watched { watch, script } = load_watched(alloc, asked, shelf)?;
    let bytes = script.as_slice();
    watch.laws();
    script_has_cost(watch.tree(), bytes);
    let mut watch = watch;
    write_states(alloc, &mut watch, bytes, out, steps)
}

/// A document with watched expressions, and the bytes of a script for it.
#[derive(Drop)]
struct Watched {
    watch: Watch,
    script: Bytes,
}

/// The watched expressions, the document and the script that are asked for.
fn load_watched<S: Shelf>(
    alloc: Global,
    asked: Watching<'_>,
    shelf: &mut S,
) -> Result<Watched, Stop>
    ensures reads { Reads (S.state shelf.old) (S.state shelf.new)
        (file asked.entry.watches.now ∷ file asked.entry.document.now ∷ file asked.entry.script.now ∷ [])
        (λ files. WatchingAll files asked.entry.watches.now asked.entry.document.now asked.entry.script.now) watched_script result }
    ensures cap { IfOk result (λ watched. watched.watch.tree.pair_cap ≡ MAX_LIVE_NODES) }
    ensures unevaluated { IfOk result (λ watched. IsUnevaluated (document_watched watched.watch)) }
    ensures short { IfOk result (λ watched. length watched.script ≤ MAX_SCRIPT_BYTES) }
{
    let name = Text::copy(alloc, asked.script.as_str())?;
    let watch = load_opened(alloc, asked, shelf)?;
    match read_script(alloc, name, shelf) {
        Ok(script) => Ok(Watched { watch, script }),
        Err(stop) => {
            drop(watch);
            Err(stop)
        }
    }
}

/// The watched expressions and the document that are asked for.
fn load_opened<S: Shelf>(alloc: Global, asked: Watching<'_>, shelf: &mut S) -> Result<Watch, Stop>
    ensures reads { Reads (S.state shelf.old) (S.state shelf.new) (file asked.entry.watches.now ∷ file asked.entry.document.now ∷ [])
        (λ files. OpeningWatch files asked.entry.watches.now asked.entry.document.now) watched_by result }
    ensures cap { IfOk result (λ watch. watch.tree.pair_cap ≡ MAX_LIVE_NODES) }
    ensures unevaluated { IfOk result (λ watch. IsUnevaluated (document_watched watch)) }
{
    let document = Text::copy(alloc, asked.document.as_str())?;
    let list = load_list(alloc, asked.watches, shelf)?;
    load_with(alloc, list, document, shelf)
}

/// The watched expressions of the named file.
fn load_list<S: Shelf>(alloc: Global, name: &Text, shelf: &mut S) -> Result<WatchList, Stop>
    ensures { Reads (S.state shelf.old) (S.state shelf.new) (file name.now ∷ []) (λ files. loading.Watching files name.now) (λ list. list) result }
{
    let name = Text::copy(alloc, name.as_str())?;
    load_watches(alloc, name, shelf)
}

/// The named document, with watched expressions.
fn load_with<S: Shelf>(
    alloc: Global,
    list: WatchList,
    name: Text,
    shelf: &mut S,
) -> Result<Watch, Stop>
    ensures reads { Reads (S.state shelf.old) (S.state shelf.new) (file name ∷ []) (λ files. WatchingOn files list name) watched_by result }
    ensures cap { IfOk result (λ watch. watch.tree.pair_cap ≡ MAX_LIVE_NODES) }
    ensures unevaluated { IfOk result (λ watch. IsUnevaluated (document_watched watch)) }
{
    let tree = load_document(alloc, name, shelf)?;
    match Watch::open(alloc, tree, list) {
        Ok(watch) => Ok(watch),
        Err(AllocError) => Err(Stop::Memory),
    }
}

/// Writes what watched expressions give over the document as it stands, and keeps it; answers whether one of them meets a fault.
pub(crate) fn write_watch<O: Sink, L: Ledger>(
    watch: &mut Watch,
    out: &mut O,
    steps: &mut Steps<L>,
) -> Result<Shown, Stop>
    ensures wrote { WroteText (O.log out.old) (O.log out.new) (watch_text watch.old.tree.nodes watch.old.expressions) result }
    ensures shown { IfOk result (λ last. last ≡ shown_of (shows_fault watch.old.tree.nodes watch.old.expressions)) }
    ensures tree { watch.new.tree ≡ watch.old.tree }
    ensures expressions { watch.new.expressions ≡ watch.old.expressions }
    ensures fresh { OnOk result (IsWatched watch.new) }
    ensures rose { IfOk result (RoseFor (stale_cost watch.old) steps.old steps.new) }
    ensures at_most { steps.new ≤ steps.old + stale_cost watch.old }
    ensures steps { steps.old ≤ steps.new }
{
    watch.refresh(steps)?;
    write_given(watch, out)
}

/// Writes what watched expressions give that were evaluated.
fn write_given<O: Sink>(watch: &Watch, out: &mut O) -> Result<Shown, Stop>
    requires { IsWatched watch.now }
    ensures wrote { WroteText (O.log out.old) (O.log out.new) (watch_text watch.now.tree.nodes watch.now.expressions) result }
    ensures shown { IfOk result (λ last. last ≡ shown_of (shows_fault watch.now.tree.nodes watch.now.expressions)) }
{
    match write_watches(watch, out) {
        Ok(()) => Ok(shown_of(shows_fault(watch))),
        Err(error) => Err(stop_of(error)),
    }
}

/// What a state of watched expressions shows, by whether one of them meets a fault.
fn shown_of(faulted: bool) -> Shown
    ensures { result ≡ shown_of faulted }
{
    if faulted { Shown::Fault } else { Shown::Clean }
}

/// What stops a run whose watched expressions are not told whole.
fn stop_of(error: OutError) -> Stop
    ensures { result ≡ of_out error }
{
    match error {
        OutError::Failed => Stop::WriteFault,
        OutError::Memory => Stop::Memory,
    }
}

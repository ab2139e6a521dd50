//! What is kept of watched expressions.

ghost use Rattle.std.specs.Option.{option_copied};
ghost use Rattle.std.specs.Prelude.{◌≡◌, ◌+◌, ◌<◌, ◌≤◌, ℕ, count_by, true, length, Some, None, slice_get, IfOk, IfSome, OnErr, OnOk};
ghost use Rattle.std.specs.List.{range_with_len};
ghost use Rattle.edit_commands.specs.Touched.{holds_cell};
ghost use Rattle.kept_reads.specs.Reads.{reads_at};
ghost use Rattle.xp_watch.specs.Costs.{Raised, cost_of};
ghost use Rattle.xp_watch.specs.Kept.{GoesOn, IsFresh, Marks, is_stale, stale_watches, value_of};
ghost use Rattle.xp_watch.specs.Watched.{root_alone, watched};
ghost use Rattle.xp_watch.specs.inner.Held.{held_by};
ghost use Rattle.xp_watch.specs.inner.Refreshing.{Cuts, Gives, IsCut, IsGivenBy, Keeps, KeepsGiven, Puts, ReachedAt, Refreshes, Runs, Spent, Stops, Took, WatchesCut};

use cell_covers::without_covered;
use doc_tree::Tree;
use edit_commands::Touched;
use kept_reads::{KeptReads, Marking};
use std::alloc::{AllocError, Global};
use std::sync::ledger::Ledger;
use watch_list::WatchList;
use xp_eval::{Context, Lets, Recorder, Steps, eval};
use xp_typed_tree::Typed;
use xp_values::{EvalError, EvalFault, Value};

/// What watched expressions gave and read when each was last evaluated, by number.
pub(crate) struct KeptWatches {
    values: Vec<Option<Result<Value, EvalFault>>>,
    /// What each read; nothing of a stale one.
    reads: KeptReads,
}

impl KeptWatches {
    /// Of so many expressions nothing is kept.
    pub(crate) fn new(alloc: Global, count: usize) -> Result<KeptWatches, AllocError>
        ensures values { IfOk result (λ kept. length kept.values.items ≡ count) }
        ensures reads { IfOk result (λ kept. length kept.reads.entries ≡ count) }
        ensures stale { IfOk result (λ kept. (k : ℕ) → is_stale (held_by kept) k ≡ true) }
    {
        let values = no_values(alloc, count)?;
        match no_reads(alloc, count) {
            Ok(reads) => Ok(KeptWatches { values, reads }),
            Err(error) => {
                drop(values);
                Err(error)
            }
        }
    }

    /// What a watch gave, where it isn't stale.
    pub(crate) fn value(&self, k: usize) -> Option<&Result<Value, EvalFault>>
        ensures { option_copied result ≡ value_of (held_by self.now) k }
    {
        if self.reads.is_stale(k) {
            return None;
        }
        match self.values.get(k) {
            Some(Some(value)) => Some(value),
            _ => None,
        }
    }

    /// How many of the first watches are stale. Looks at each.
    pub(crate) fn stale_count(&self, count: usize) -> usize
        ensures { result ≡ count_by (is_stale (held_by self.now)) (range_with_len 0 count) }
    {
        let mut stale = 0;
        for k in 0..count {
            if self.reads.is_stale(k) {
                stale += 1;
            }
        }
        stale
    }

    /// Marks as stale the watches that read something that a command touched. The tree is the one that the command left.
    ///
    /// Takes no memory. Goes to the watches that have read each touched cell alone.
    pub(crate) fn mark(&mut self, tree: &Tree, touched: &Touched)
        ensures marks { Marks tree.now.nodes (holds_cell tree.now.nodes touched.now) (held_by self.old) (held_by self.new) }
        ensures reads { length self.new.reads.entries ≡ length self.old.reads.entries }
    {
        self.reads.mark(&Marking {
            tree,
            touched,
            width: 1,
        });
    }

    /// Evaluates the stale watches in order.
    ///
    /// Costs their visits, and a look at each watch. After want of memory those that were evaluated are kept.
    pub(crate) fn refresh<L: Ledger>(
        &mut self,
        alloc: Global,
        tree: &Tree,
        list: &WatchList,
        steps: &mut Steps<L>,
    ) -> Result<(), AllocError>
        requires { Keeps tree.now.nodes list.now (held_by self.old) }
        ensures keeps { Keeps tree.now.nodes list.now (held_by self.new) }
        ensures fresh { OnOk result (IsFresh tree.now.nodes list.now (held_by self.new)) }
        ensures raised { OnOk result (Raised tree.now.nodes list.now (stale_watches (held_by self.old) list.now) steps.old steps.new) }
        ensures goes_on { GoesOn tree.now.nodes list.now (held_by self.old) (held_by self.new) }
        ensures at_most { steps.new ≤ steps.old + cost_of tree.now.nodes list.now (stale_watches (held_by self.old) list.now) }
        ensures steps { steps.old ≤ steps.new }
    {
        self.refresh_watches(alloc, tree, list, steps)
    }

    /// Goes over the watches.
    fn refresh_watches<L: Ledger>(
        &mut self,
        alloc: Global,
        tree: &Tree,
        list: &WatchList,
        steps: &mut Steps<L>,
    ) -> Result<(), AllocError>
        requires { Keeps tree.now.nodes list.now (held_by self.old) }
        ensures reached { OnOk result (ReachedAt tree.now.nodes list.now (length list.now) (held_by self.old) (held_by self.new) steps.old steps.new) }
        ensures cut { OnErr result (WatchesCut tree.now.nodes list.now (held_by self.old) (held_by self.new) steps.old steps.new) }
    {
        for k in 0..list.len() {
            self.refresh_watch(alloc, tree, list, k, steps)?;
        }
        Ok(())
    }

    /// Evaluates a watch where it is stale.
    fn refresh_watch<L: Ledger>(
        &mut self,
        alloc: Global,
        tree: &Tree,
        list: &WatchList,
        k: usize,
        steps: &mut Steps<L>,
    ) -> Result<(), AllocError>
        requires value { k < length self.old.values.items }
        requires place { k < length self.old.reads.entries }
        requires within { k < length list.now }
        ensures refreshes { OnOk result (IfSome (slice_get list.now k) (λ expr.
            Refreshes tree.now.nodes expr k (held_by self.old) (held_by self.new) steps.old steps.new)) }
        ensures stops { OnErr result (IfSome (slice_get list.now k) (λ expr.
            Stops tree.now.nodes expr k (held_by self.old) (held_by self.new) steps.old steps.new)) }
    {
        match list.get(k) {
            Some(expr) if self.reads.is_stale(k) => self.evaluate(alloc, tree, k, expr, steps),
            _ => Ok(()),
        }
    }

    /// Evaluates a stale watch, and keeps what it gave and read.
    fn evaluate<L: Ledger>(
        &mut self,
        alloc: Global,
        tree: &Tree,
        k: usize,
        expr: &Typed,
        steps: &mut Steps<L>,
    ) -> Result<(), AllocError>
        requires value { k < length self.old.values.items }
        requires place { k < length self.old.reads.entries }
        requires stale { is_stale (held_by self.old) k ≡ true }
        ensures runs { OnOk result (Runs tree.now.nodes expr.now k (held_by self.old) (held_by self.new) steps.old steps.new) }
        ensures cuts { OnErr result (Cuts tree.now.nodes expr.now k (held_by self.old) (held_by self.new) steps.old steps.new) }
    {
        let given = evaluate(alloc, tree, expr, steps)?;
        self.keep(alloc, tree, k, given)
    }

    /// Keeps what a stale watch gave, and what it read but for covered cells. For want of memory it is still stale.
    fn keep(&mut self, alloc: Global, tree: &Tree, k: usize, given: Given) -> Result<(), AllocError>
        requires value { k < length self.old.values.items }
        requires place { k < length self.old.reads.entries }
        requires stale { is_stale (held_by self.old) k ≡ true }
        ensures keeps { OnOk result (KeepsGiven tree.now.nodes given.value given.reads k (held_by self.old) (held_by self.new)) }
        ensures cut { OnErr result (IsCut k (held_by self.old) (held_by self.new)) }
    {
        let Given { value, reads } = given;
        match without_covered(alloc, tree, reads) {
            Ok(held) => self.put(alloc, k, value, held),
            Err(error) => {
                drop(value);
                Err(error)
            }
        }
    }

    /// Puts what a watch gave, and what is kept of what it read.
    fn put(
        &mut self,
        alloc: Global,
        k: usize,
        value: Result<Value, EvalFault>,
        held: Recorder,
    ) -> Result<(), AllocError>
        requires value { k < length self.old.values.items }
        requires place { k < length self.old.reads.entries }
        ensures puts { OnOk result (Puts value k (Some held) (held_by self.old) (held_by self.new)) }
        ensures empties { OnErr result (Puts value k None (held_by self.old) (held_by self.new)) }
    {
        self.values[k] = Some(value);
        self.reads.put(alloc, k, held)
    }
}

/// What an expression gave, and what it read.
#[derive(Drop)]
struct Given {
    value: Result<Value, EvalFault>,
    reads: Recorder,
}

/// Evaluates an expression at the root, without lets. A fault is what it gives; the only error is want of memory.
fn evaluate<L: Ledger>(
    alloc: Global,
    tree: &Tree,
    expr: &Typed,
    steps: &mut Steps<L>,
) -> Result<Given, AllocError>
    ensures gives { IfOk result (λ given. Gives (watched tree.now.nodes expr.now) given.value given.reads) }
    ensures took { OnOk result (Took (watched tree.now.nodes expr.now) steps.old steps.new) }
    ensures spent { Spent (watched tree.now.nodes expr.now) steps.old steps.new }
{
    let lets = Lets::new(alloc);
    let mut reads = Recorder::new(alloc);
    let at = root_alone(tree);
    let value = eval(alloc, tree, expr, &at, &lets, &mut reads, steps);
    drop(lets);
    given_by(value, reads)
}

/// The root as the only context node.
fn root_alone(tree: &Tree) -> Context
    ensures { result ≡ root_alone }
{
    let root = tree.root();
    Context {
        node: root,
        position: 1,
        size: 1,
        current: root,
    }
}

/// What an expression gave whose evaluation ended so.
fn given_by(value: Result<Value, EvalError>, reads: Recorder) -> Result<Given, AllocError>
    ensures { IsGivenBy value reads result }
{
    match value {
        Ok(value) => Ok(Given {
            value: Ok(value),
            reads,
        }),
        Err(EvalError::Fault(fault)) => Ok(Given {
            value: Err(fault),
            reads,
        }),
        Err(EvalError::Memory) => Err(AllocError),
    }
}

/// No value for each of so many expressions.
fn no_values(
    alloc: Global,
    count: usize,
) -> Result<Vec<Option<Result<Value, EvalFault>>>, AllocError>
    ensures { IfOk result (λ values. length values.items ≡ count) }
{
    let mut values = Vec::new(alloc);
    values.resize_with(count, || None)?;
    Ok(values)
}

/// Places for what so many expressions read, all of them stale.
fn no_reads(alloc: Global, count: usize) -> Result<KeptReads, AllocError>
    ensures places { IfOk result (λ reads. length reads.entries ≡ count) }
    ensures stale { IfOk result (λ reads. (k : ℕ) → reads_at reads.entries k ≡ None) }
{
    let mut reads = KeptReads::new(alloc);
    match reads.prepare(count) {
        Ok(()) => Ok(reads),
        Err(error) => {
            drop(reads);
            Err(error)
        }
    }
}

impl Drop for KeptWatches {
    fn drop(self) {
        let KeptWatches { values, reads } = self;
        drop(values);
        drop(reads);
    }
}

//! The names that the tests of a pattern's steps look at (XSLT 1.0, section 5.2).

ghost use Rattle.std.specs.Prelude.{◌≡◌, ◌∷◌, [], ◌||◌, ℕ, true, false, map, if◌then◌else◌, option_and_then, Some, OnErr, OnOk, ◌+◌, ◌≤◌};
ghost use Rattle.doc_tree.specs.Table.{Table, kind_of, parent_of};
ghost use Rattle.doc_tree.specs.Walks.{above};
ghost use Rattle.doc_axes.specs.NodeTests.{is_principal};
ghost use Rattle.xp_outcome.specs.Cells.{names_on};
ghost use Rattle.xp_outcome.specs.Evaluation.{all_reading, cell, done};
ghost use Rattle.xp_outcome.specs.Recorded.{Recorded, note_all};
ghost use Rattle.xp_outcome.specs.Running.{Ran};
ghost use Rattle.xp_meaning.specs.Reads.{is_by_name};
ghost use Rattle.xp_meaning.specs.Results.{shown_alloc};
ghost use Rattle.xp_typed_tree.specs.TypedView.{pattern_step_seen};
ghost use Rattle.xslt_match.specs.inner.Named.{all_named, is_named};
ghost use Rattle.xslt_match.specs.Names.{HoldsNames, ancestor_at, pattern_names, place_names, places_from, step_names};
ghost use Rattle.xslt_match.specs.Refusing.{names_up, own_name};
ghost use Rattle.xslt_ways.specs.Ways.{is_anywhere};

use crate::matching::Matcher;
use crate::one_chain::is_anywhere;
use doc_axes::{is_principal, principal_kind};
use doc_tree::{Axis, Cell, Kind, NodeId, Tree};
use std::alloc::AllocError;
use xp_eval::is_by_name;
use xp_outcome::Recorder;
use xp_typed_tree::TypedPatternStep;

impl Matcher<'_> {
    /// Records the names that the tests of the pattern's steps look at: of each path, those of the nodes at which a step can
    /// stand in a chain to the node, by the steps behind it.
    ///
    /// Costs the number of the paths' steps, and for each step before `//` the depth.
    pub(crate) fn read_names(&self, reads: &mut Recorder) -> Result<(), AllocError>
        ensures { (count : ℕ) →
            Ran (all_reading (pattern_names self.now.evaluator.caller.tree.now.nodes self.now.node self.now.pattern.now) (done tt))
            (shown_alloc result) reads.old reads.new count count }
    {
        for path in self.pattern.paths() {
            read_step_names(self.evaluator.caller.tree, &path.steps, self.node, reads)?;
        }
        Ok(())
    }
}

/// Records the names that steps look at which lead to a node at last, those of the last step first.
///
/// Costs the number of steps, and for each one before `//` the depth.
pub(crate) fn read_step_names(
    tree: &Tree,
    path_steps: &[TypedPatternStep],
    n: NodeId,
    reads: &mut Recorder,
) -> Result<(), AllocError>
    ensures { (count : ℕ) → Ran (all_reading (step_names tree.now.nodes n (map pattern_step_seen path_steps.now)) (done tt))
        (shown_alloc result) reads.old reads.new count count }
{
    let mut at = Standing::at(n);
    let mut left = path_steps.len();
    while left > 0 {
        left -= 1;
        let step = &path_steps[left];
        at.read_names(tree, step, reads)?;
        at = at.before(tree, step);
    }
    Ok(())
}

/// A node that patterns are matched against one after another, and of how many nodes from it upwards the names are recorded, where they are elements: the
/// patterns look at the same names.
#[derive(Clone, Copy)]
pub struct NamesUp {
    pub(crate) node: NodeId,
    pub(crate) levels: usize,
}

impl NamesUp {
    /// No name is recorded yet.
    pub fn none(node: NodeId) -> NamesUp
        ensures node { result.node ≡ node }
        ensures none { (T : Table) (held : Recorded) → HoldsNames T result.node result.levels held }
    {
        NamesUp { node, levels: 0 }
    }

    /// Records the names of so many nodes from the node upwards, where they are elements: at most that of one more than are recorded already. Where memory is
    /// wanting, it records none.
    pub fn read_to(
        &mut self,
        tree: &Tree,
        levels: usize,
        reads: &mut Recorder,
    ) -> Result<(), AllocError>
        requires next { levels ≤ self.old.levels + 1 }
        requires held { HoldsNames tree.now.nodes self.old.node self.old.levels reads.old }
        ensures read { OnOk result (reads.new ≡ note_all reads.old (names_up tree.now.nodes self.old.node levels)) }
        ensures unchanged { OnErr result (reads.new ≡ reads.old) }
        ensures named { OnOk result (HoldsNames tree.now.nodes self.new.node self.new.levels reads.new) }
        ensures same { self.new.node ≡ self.old.node }
    {
        if self.levels < levels {
            read_above(tree, self.node, self.levels, reads)?;
            self.levels = levels;
        }
        Ok(())
    }

    /// Of how many nodes upwards they are recorded.
    pub fn levels(&self) -> usize
        ensures { result ≡ self.now.levels }
    {
        self.levels
    }
}

/// `read_step_names` of steps of which it is known whether each looks at the names of elements, and at one place. It records nothing where these do, and
/// the names of so many nodes from the one upwards are recorded that they look at no others.
pub(crate) fn read_names_up(
    tree: &Tree,
    path_steps: &[TypedPatternStep],
    named: bool,
    n: NodeId,
    levels: &mut usize,
    reads: &mut Recorder,
) -> Result<(), AllocError>
    requires held { HoldsNames tree.now.nodes n levels.old reads.old }
    requires named { named ≡ all_named (map pattern_step_seen path_steps.now) }
    ensures ran { (count : ℕ) → Ran (all_reading (step_names tree.now.nodes n (map pattern_step_seen path_steps.now)) (done tt))
        (shown_alloc result) reads.old reads.new count count }
    ensures named { OnOk result (HoldsNames tree.now.nodes n levels.new reads.new) }
{
    if !named {
        return read_step_names(tree, path_steps, n, reads);
    }
    if *levels < path_steps.len() {
        read_step_names(tree, path_steps, n, reads)?;
        *levels = path_steps.len();
    }
    Ok(())
}

/// Whether each step looks at the names of elements, and at one place.
pub(crate) fn all_named(path_steps: &[TypedPatternStep]) -> bool
    ensures { result ≡ all_named (map pattern_step_seen path_steps.now) }
{
    match path_steps.split_first() {
        Some((step, rest)) => is_named(step) && all_named(rest),
        None => true,
    }
}

/// Whether a step looks at the name of an element, and not after `//`.
fn is_named(step: &TypedPatternStep) -> bool
    ensures { result ≡ is_named (pattern_step_seen step.now) }
{
    is_by_name(&step.step.test)
        && !is_anywhere(step.join)
        && is_principal(step.step.axis, Kind::Element)
}

/// Where a step can stand in a chain to a node, by the steps behind it.
#[derive(Clone, Copy)]
pub(crate) struct Standing {
    /// The node that stands as many levels above as there are such steps.
    pub(crate) node: Option<NodeId>,
    /// Whether it can also stand at all nodes above that one: where one of the steps behind it stands after `//`.
    pub(crate) higher: bool,
}

impl Standing {
    /// The last step can stand at the node alone.
    fn at(n: NodeId) -> Standing
        ensures node { result.node ≡ Some n }
        ensures higher { result.higher ≡ false }
    {
        Standing {
            node: Some(n),
            higher: false,
        }
    }

    /// Where the step before this one can stand.
    fn before(&self, tree: &Tree, step: &TypedPatternStep) -> Standing
        ensures node { result.node ≡ option_and_then (parent_of tree.now.nodes) self.now.node }
        ensures higher { result.higher ≡ (is_anywhere (pattern_step_seen step.now).join || self.now.higher) }
    {
        Standing {
            node: parent_over(tree, self.node),
            higher: is_anywhere(step.join) || self.higher,
        }
    }

    /// Records the names that a step looks at which can stand there.
    fn read_names(
        &self,
        tree: &Tree,
        step: &TypedPatternStep,
        reads: &mut Recorder,
    ) -> Result<(), AllocError>
        ensures { (count : ℕ) →
            Ran (all_reading (place_names tree.now.nodes (pattern_step_seen step.now).axis (pattern_step_seen step.now).test
            (places_from tree.now.nodes self.now.higher self.now.node)) (done tt))
            (shown_alloc result) reads.old reads.new count count }
    {
        if is_by_name(&step.step.test) {
            self.read_places(tree, step.step.axis, reads)
        } else {
            Ok(())
        }
    }

    /// Records the names of the nodes there that are of an axis's principal kind.
    fn read_places(&self, tree: &Tree, axis: Axis, reads: &mut Recorder) -> Result<(), AllocError>
        ensures { (count : ℕ) →
            Ran (all_reading (map cell (names_on tree.now.nodes axis (places_from tree.now.nodes self.now.higher self.now.node))) (done tt))
            (shown_alloc result) reads.old reads.new count count }
    {
        match self.node {
            Some(m) => read_from(tree, axis, m, self.higher, reads),
            None => Ok(()),
        }
    }
}

/// The parent of a node that may be missing.
fn parent_over(tree: &Tree, n: Option<NodeId>) -> Option<NodeId>
    ensures { result ≡ option_and_then (parent_of tree.now.nodes) n }
{
    tree.parent(n?)
}

/// Records the name of a node, or also those of all above it, where they are of an axis's principal kind.
fn read_from(
    tree: &Tree,
    axis: Axis,
    m: NodeId,
    higher: bool,
    reads: &mut Recorder,
) -> Result<(), AllocError>
    ensures { (count : ℕ) →
        Ran (all_reading (map cell (names_on tree.now.nodes axis (if higher then above tree.now.nodes m else m ∷ []))) (done tt))
        (shown_alloc result) reads.old reads.new count count }
{
    if higher {
        read_upwards(tree, axis, m, reads)
    } else {
        read_name(tree, axis, m, reads)
    }
}

/// Records the names of a node and of all above it that are of an axis's principal kind.
fn read_upwards(tree: &Tree, axis: Axis, m: NodeId, reads: &mut Recorder) -> Result<(), AllocError>
    ensures { (count : ℕ) → Ran (all_reading (map cell (names_on tree.now.nodes axis (above tree.now.nodes m))) (done tt))
        (shown_alloc result) reads.old reads.new count count }
{
    tree.laws();
    read_name(tree, axis, m, reads)?;
    match tree.parent(m) {
        Some(parent) => read_upwards(tree, axis, parent, reads),
        None => Ok(()),
    }
}

/// Records the name of the node that stands so many levels above, where there is one and it is an element.
fn read_above(tree: &Tree, n: NodeId, levels: usize, reads: &mut Recorder) -> Result<(), AllocError>
    ensures read { OnOk result (reads.new ≡ note_all reads.old (own_name tree.now.nodes (ancestor_at tree.now.nodes levels n))) }
    ensures unchanged { OnErr result (reads.new ≡ reads.old) }
{
    match ancestor_at(tree, n, levels) {
        Some(m) => read_own(tree, m, reads),
        None => Ok(()),
    }
}

/// The node that stands so many levels above one.
pub(crate) fn ancestor_at(tree: &Tree, n: NodeId, levels: usize) -> Option<NodeId>
    ensures { result ≡ ancestor_at tree.now.nodes levels n }
{
    let mut m = n;
    let mut k = 0;
    while k < levels {
        match tree.parent(m) {
            Some(parent) => m = parent,
            None => return None,
        }
        k += 1;
    }
    Some(m)
}

/// Records the name of a node, where it is an element.
fn read_own(tree: &Tree, m: NodeId, reads: &mut Recorder) -> Result<(), AllocError>
    ensures read { OnOk result (reads.new ≡ note_all reads.old (own_name tree.now.nodes (Some m))) }
    ensures unchanged { OnErr result (reads.new ≡ reads.old) }
{
    if tree.is_element(m) {
        reads.add(Cell::Name(m))
    } else {
        Ok(())
    }
}

/// Records the name of a node, where it is of an axis's principal kind.
fn read_name(tree: &Tree, axis: Axis, m: NodeId, reads: &mut Recorder) -> Result<(), AllocError>
    ensures { (count : ℕ) → Ran (all_reading (map cell (names_on tree.now.nodes axis (m ∷ []))) (done tt))
        (shown_alloc result) reads.old reads.new count count }
{
    if !has_principal(tree, axis, m) {
        return Ok(());
    }
    reads.add(Cell::Name(m))
}

/// Whether the node is of the kind that names test on the axis.
fn has_principal(tree: &Tree, axis: Axis, m: NodeId) -> bool
    ensures { result ≡ is_principal axis (kind_of tree.now.nodes m) }
{
    tree.is_kind(m, principal_kind(axis))
}

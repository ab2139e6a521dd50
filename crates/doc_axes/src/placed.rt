//! The node at a place among those on an axis that pass a node test, found without a list of them (XPath 1.0, sections 2.3 and 2.4).

ghost use Rattle.std.specs.Prelude.{◌≡◌, ◌+◌, ◌<◌, ◌++◌, ◌∷◌, ◌≤◌, [], ℕ, List, true, drop, filter, length, max, nat_le, IfSome};
ghost use Rattle.doc_tree.specs.Lists.{mem};
ghost use Rattle.doc_tree.specs.Table.{is_live};
ghost use Rattle.doc_tree.specs.declared.axes.Axis.TheVariants.{PrecedingSibling};
ghost use Rattle.doc_axes.specs.Axes.{axis_nodes};
ghost use Rattle.doc_axes.specs.Judging.{IsJudged};
ghost use Rattle.doc_axes.specs.NodeTests.{passes};
ghost use Rattle.doc_axes.specs.Places.{IsPlaced};
ghost use Rattle.doc_axes.specs.inner.Lending.{AreFirstKids, lent_nodes};
ghost use Rattle.doc_axes.specs.inner.Seeing.{EndsPassing, Tells};

use crate::judged::{Judged, accepted_in_front, passes_by};
use crate::lent::{Lent, lent_nodes};
use doc_tree::{Axis, NodeId, NodeTest, Tree};

/// How many nodes an axis has, how many of them pass a node test, and the one of these at a place.
#[derive(Clone, Copy)]
pub struct Placed {
    pub on_axis: usize,
    pub passing: usize,
    pub node: Option<NodeId>,
}

/// What is seen of nodes that pass a test while they are gone over: how many they are, and the one at the place.
#[derive(Clone, Copy)]
pub(crate) struct Seen {
    pub(crate) place: usize,
    pub(crate) count: usize,
    pub(crate) node: Option<NodeId>,
}

/// Of the nodes on the axis from a live node that pass the test, the one at the place, counted from 1 in the axis's own order. None where the tree
/// keeps no list of the axis's nodes.
///
/// Costs a look at each node on the axis, but for those behind the place that the tree has counted, and no memory.
pub fn passing_at(
    tree: &Tree,
    axis: Axis,
    test: &NodeTest,
    n: NodeId,
    place: usize,
) -> Option<Placed>
    requires { is_live tree.now.nodes n ≡ true }
    ensures { IfSome result (IsPlaced place (axis_nodes tree.now.nodes axis n) (filter (passes tree.now.nodes axis test.now) (axis_nodes tree.now.nodes axis n))) }
{
    tree.laws();
    let lent = lent_nodes(tree, n, axis)?;
    Some(at_place(tree, axis, test, lent, place))
}

/// The node at the place among those of some live nodes that pass the test. Where it is found, those behind it are only counted.
fn at_place(tree: &Tree, axis: Axis, test: &NodeTest, lent: Lent<'_>, place: usize) -> Placed
    requires live { (m : ℕ) → mem m (lent_nodes lent) ≡ true → is_live tree.now.nodes m ≡ true }
    requires before { axis ≡ PrecedingSibling → AreFirstKids tree.now.nodes lent }
    ensures { IsPlaced place (lent_nodes lent.entry) (filter (passes tree.now.nodes axis test.now) (lent_nodes lent.entry)) result }
{
    let on_axis = lent.len();
    let mut judged = Judged::nothing();
    let mut seen = Seen::nothing(place);
    let mut next = 0;
    while !seen.is_done() && next < on_axis {
        let n = lent.at(next);
        if passes_by(tree, n, axis, test, &mut judged) {
            seen.see(n);
        }
        next += 1;
    }
    let mut passing = seen.count;
    if seen.is_done() {
        passing += count_behind(tree, axis, test, lent, next, &mut judged);
    }
    Placed {
        on_axis,
        passing,
        node: seen.node,
    }
}

/// How many of some live nodes pass the test behind one that passes.
fn count_behind(
    tree: &Tree,
    axis: Axis,
    test: &NodeTest,
    lent: Lent<'_>,
    next: usize,
    judged: &mut Judged,
) -> usize
    requires live { (m : ℕ) → mem m (lent_nodes lent) ≡ true → is_live tree.now.nodes m ≡ true }
    requires before { axis ≡ PrecedingSibling → AreFirstKids tree.now.nodes lent }
    requires within { next ≤ length (lent_nodes lent) }
    requires passing { EndsPassing (passes tree.now.nodes axis test.now) next (lent_nodes lent) }
    requires judged { IsJudged tree.now.names test.now judged.old }
    ensures { result ≡ length (filter (passes tree.now.nodes axis test.now) (drop next (lent_nodes lent.entry))) }
{
    if let Some(count) = counted_before(tree, axis, test, lent, next) {
        return count;
    }
    let rest = lent.behind(next);
    count_passing(tree, axis, test, rest.nodes, judged)
}

/// The same where the tree knows it: of elements of one expanded name that stand before one of them among its siblings.
fn counted_before(
    tree: &Tree,
    axis: Axis,
    test: &NodeTest,
    lent: Lent<'_>,
    next: usize,
) -> Option<usize>
    requires before { axis ≡ PrecedingSibling → AreFirstKids tree.now.nodes lent }
    requires within { next ≤ length (lent_nodes lent) }
    requires passing { EndsPassing (passes tree.now.nodes axis test.now) next (lent_nodes lent) }
    ensures { IfSome result (λ count. count ≡ length (filter (passes tree.now.nodes axis test.now) (drop next (lent_nodes lent.entry)))) }
{
    match (axis, test) {
        (Axis::PrecedingSibling, NodeTest::Named { .. }) => tree.alike_before(lent.at(next - 1)),
        _ => None,
    }
}

/// How many of some live nodes pass the test. Elements with the name that was accepted last cost a look each where one follows another.
fn count_passing(
    tree: &Tree,
    axis: Axis,
    test: &NodeTest,
    nodes: &[NodeId],
    judged: &mut Judged,
) -> usize
    requires live { (m : ℕ) → mem m nodes.now ≡ true → is_live tree.now.nodes m ≡ true }
    requires judged { IsJudged tree.now.names test.now judged.old }
    ensures counted { result ≡ length (filter (passes tree.now.nodes axis test.now) nodes.now) }
    ensures few { result ≤ length nodes.now }
{
    let mut count = 0;
    let mut place = 0;
    while place < nodes.len() {
        let passes = passes_by(tree, nodes[place], axis, test, judged);
        let more = accepted_in_front(tree, axis, nodes.split_at(place + 1).1, judged);
        count += usize::from(passes) + more;
        place += 1 + more;
    }
    count
}

impl Seen {
    /// Nothing is seen yet.
    fn nothing(place: usize) -> Seen
        ensures { Tells place [] result }
    {
        Seen {
            place,
            count: 0,
            node: None,
        }
    }

    /// Whether the node at the place is seen, or any where none is asked for.
    fn is_done(&self) -> bool
        ensures { result ≡ nat_le (max self.now.place 1) self.now.count }
    {
        self.count >= self.place.max(1)
    }

    /// One more node passes.
    fn see(&mut self, n: NodeId)
        requires room { self.old.count < 18446744073709551615 }
        ensures told { (place : ℕ) (found : List ℕ) → Tells place found self.old → Tells place (found ++ n ∷ []) self.new }
        ensures counted { self.new.count ≡ self.old.count + 1 }
    {
        self.count += 1;
        if self.count == self.place {
            self.node = Some(n);
        }
    }
}

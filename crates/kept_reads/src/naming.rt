//! Which units a rename touches: those that read the name, and those that read names along an axis on which the node stands.

ghost use Rattle.std.specs.Prelude.{◌≡◌, ◌⊎◌, ℕ, true, false, Some, length};
ghost use Rattle.doc_tree.specs.Kinds.{is_element};
ghost use Rattle.doc_tree.specs.Lists.{mem};
ghost use Rattle.doc_tree.specs.Table.{is_live, kids_of, kind_of, parent_of};
ghost use Rattle.doc_tree.specs.Walks.{ancestors};
ghost use Rattle.doc_tree.specs.declared.axes.Axis.TheVariants.{Following, Preceding};
ghost use Rattle.doc_axes.specs.Axes.{is_one, on_axis};
ghost use Rattle.doc_edit_laws.specs.Touching.{touched_name};
ghost use Rattle.xp_outcome.specs.Evaluation.{names_along};
ghost use Rattle.edit_commands.specs.Touched.{holds_cell};
ghost use Rattle.read_index.specs.Names.{is_far};
ghost use Rattle.kept_reads.specs.inner.Dropping.{DropsTouched, is_touched};
ghost use Rattle.kept_reads.specs.inner.Naming.{IsAlongAny, IsAlongBelow, IsAlongFrom, IsAlongSome, IsBelowAbove, IsBesideNames, IsNamedFrom, IsOwnNames, IsParentsNames, is_sibling_axis};

use crate::kept_reads::KeptReads;
use crate::marking::Marking;
use doc_tree::{Axis, Cell, Kind, NodeId, Tree};
use xp_outcome::NamesAlong;

impl KeptReads {
    /// Forgets what the readers of a node's name read.
    pub(crate) fn mark_named(&mut self, node: NodeId, at: &Marking<'_>)
        ensures { DropsTouched at.now.tree.now.nodes (holds_cell at.now.tree.now.nodes at.now.touched.now) at.now.width
            (λ r. is_touched at.now.tree.now.nodes (touched_name node) r ≡ true) self.old self.new }
    {
        at.tree.laws();
        self.mark_readers(&Cell::Name(node), at);
        if at.tree.is_element(node) {
            self.mark_element(node, at);
        } else {
            self.mark_attribute(node, at);
        }
    }

    /// Forgets what the readers of names along axes read on which an element stands.
    fn mark_element(&mut self, node: NodeId, at: &Marking<'_>)
        requires element { is_element (kind_of at.now.tree.now.nodes node) ≡ true }
        ensures { DropsTouched at.now.tree.now.nodes (holds_cell at.now.tree.now.nodes at.now.touched.now) at.now.width
            (IsNamedFrom at.now.tree.now.nodes node) self.old self.new }
    {
        self.mark_names(Axis::DescendantOrSelf, node, at);
        self.mark_names_above(node, at);
        self.mark_names_beside(node, at);
        self.mark_names_far(node, at);
    }

    /// Forgets what the readers of the names of an element's attributes read, where a node is one of them.
    fn mark_attribute(&mut self, node: NodeId, at: &Marking<'_>)
        ensures { DropsTouched at.now.tree.now.nodes (holds_cell at.now.tree.now.nodes at.now.touched.now) at.now.width
            (IsOwnNames at.now.tree.now.nodes node) self.old self.new }
    {
        if at.tree.is_kind(node, Kind::Attribute) {
            self.mark_own(node, at);
        }
    }

    /// Forgets what the readers of the names of the attributes of a node's parent read.
    fn mark_own(&mut self, node: NodeId, at: &Marking<'_>)
        ensures { DropsTouched at.now.tree.now.nodes (holds_cell at.now.tree.now.nodes at.now.touched.now) at.now.width
            (IsParentsNames at.now.tree.now.nodes node) self.old self.new }
    {
        if let Some(parent) = at.tree.parent(node) {
            self.mark_names(Axis::Attribute, parent, at);
        }
    }

    /// Forgets what the readers of the names of what stands below a node's ancestors read.
    fn mark_names_above(&mut self, node: NodeId, at: &Marking<'_>)
        ensures { DropsTouched at.now.tree.now.nodes (holds_cell at.now.tree.now.nodes at.now.touched.now) at.now.width
            (IsBelowAbove at.now.tree.now.nodes node) self.old self.new }
    {
        at.tree.laws();
        if let Some(parent) = at.tree.parent(node) {
            self.mark_names(Axis::Descendant, parent, at);
            self.mark_names(Axis::DescendantOrSelf, parent, at);
            self.mark_names_above(parent, at);
        }
    }

    /// Forgets what the readers of the names of an element's kids read, and of the siblings before or behind one of them, where a node
    /// is one of them.
    fn mark_names_beside(&mut self, node: NodeId, at: &Marking<'_>)
        requires element { is_element (kind_of at.now.tree.now.nodes node) ≡ true }
        ensures { DropsTouched at.now.tree.now.nodes (holds_cell at.now.tree.now.nodes at.now.touched.now) at.now.width
            (IsBesideNames at.now.tree.now.nodes node) self.old self.new }
    {
        if let Some(parent) = at.tree.parent(node) {
            self.mark_names(Axis::Child, parent, at);
            self.mark_siblings(node, parent, at);
        }
    }

    /// Forgets what the readers of the names of the siblings before or behind one of a node's kids read.
    fn mark_siblings(&mut self, node: NodeId, parent: NodeId, at: &Marking<'_>)
        requires element { is_element (kind_of at.now.tree.now.nodes node) ≡ true }
        requires up { parent_of at.now.tree.now.nodes node ≡ Some parent }
        ensures { DropsTouched at.now.tree.now.nodes (holds_cell at.now.tree.now.nodes at.now.touched.now) at.now.width
            (IsAlongAny at.now.tree.now.nodes node is_sibling_axis (kids_of at.now.tree.now.nodes parent)) self.old self.new }
    {
        at.tree.laws();
        for kid in at.tree.kids(parent) {
            self.mark_sibling(node, parent, *kid, at);
        }
    }

    /// Forgets what the readers of the names of the siblings before or behind a kid read.
    fn mark_sibling(&mut self, node: NodeId, parent: NodeId, kid: NodeId, at: &Marking<'_>)
        requires element { is_element (kind_of at.now.tree.now.nodes node) ≡ true }
        requires up { parent_of at.now.tree.now.nodes node ≡ Some parent }
        requires kid { mem kid (kids_of at.now.tree.now.nodes parent) ≡ true }
        ensures { DropsTouched at.now.tree.now.nodes (holds_cell at.now.tree.now.nodes at.now.touched.now) at.now.width
            (IsAlongSome at.now.tree.now.nodes node is_sibling_axis kid) self.old self.new }
    {
        at.tree.laws();
        let before = at.tree.is_before(kid, node);
        self.mark_if(before, Axis::FollowingSibling, kid, node, at);
        let behind = at.tree.is_before(node, kid);
        self.mark_if(behind, Axis::PrecedingSibling, kid, node, at);
    }

    /// Forgets what the readers of the names along an axis from a node read, where another stands on it.
    fn mark_if(&mut self, stands: bool, axis: Axis, n: NodeId, node: NodeId, at: &Marking<'_>)
        requires { stands ≡ on_axis at.now.tree.now.nodes axis n node }
        ensures { DropsTouched at.now.tree.now.nodes (holds_cell at.now.tree.now.nodes at.now.touched.now) at.now.width
            (IsAlongFrom at.now.tree.now.nodes node axis n) self.old self.new }
    {
        if stands {
            self.mark_names(axis, n, at);
        }
    }

    /// Forgets what the readers of the names along the far axes read on which an element stands.
    fn mark_names_far(&mut self, node: NodeId, at: &Marking<'_>)
        requires element { is_element (kind_of at.now.tree.now.nodes node) ≡ true }
        ensures { DropsTouched at.now.tree.now.nodes (holds_cell at.now.tree.now.nodes at.now.touched.now) at.now.width
            (IsAlongBelow at.now.tree.now.nodes node is_far (length at.now.tree.now.nodes)) self.old self.new }
    {
        let may = self.entries.may_have_far();
        if may {
            self.mark_each_far(node, at);
        }
    }

    /// Forgets what the readers of the names along the far axes read on which an element stands, from each node.
    fn mark_each_far(&mut self, node: NodeId, at: &Marking<'_>)
        requires element { is_element (kind_of at.now.tree.now.nodes node) ≡ true }
        ensures { DropsTouched at.now.tree.now.nodes (holds_cell at.now.tree.now.nodes at.now.touched.now) at.now.width
            (IsAlongBelow at.now.tree.now.nodes node is_far (length at.now.tree.now.nodes)) self.old self.new }
    {
        at.tree.laws();
        let numbers = at.tree.numbers_made();
        for number in 0..numbers {
            self.mark_far(node, NodeId::from_number(number), at);
        }
    }

    /// Forgets what the readers of the names along the far axes from a node read on which an element stands.
    fn mark_far(&mut self, node: NodeId, n: NodeId, at: &Marking<'_>)
        requires element { is_element (kind_of at.now.tree.now.nodes node) ≡ true }
        ensures { DropsTouched at.now.tree.now.nodes (holds_cell at.now.tree.now.nodes at.now.touched.now) at.now.width
            (IsAlongSome at.now.tree.now.nodes node is_far n) self.old self.new }
    {
        at.tree.laws();
        if at.tree.contains(n) {
            self.mark_far_from(node, n, at);
        }
    }

    /// Forgets what the readers of the names along the far axes from a live node read on which an element stands.
    fn mark_far_from(&mut self, node: NodeId, n: NodeId, at: &Marking<'_>)
        requires element { is_element (kind_of at.now.tree.now.nodes node) ≡ true }
        requires lives { is_live at.now.tree.now.nodes n ≡ true }
        ensures { DropsTouched at.now.tree.now.nodes (holds_cell at.now.tree.now.nodes at.now.touched.now) at.now.width
            (IsAlongSome at.now.tree.now.nodes node is_far n) self.old self.new }
    {
        self.mark_far_along(Axis::Ancestor, node, n, at);
        self.mark_far_along(Axis::AncestorOrSelf, node, n, at);
        self.mark_far_along(Axis::Following, node, n, at);
        self.mark_far_along(Axis::Parent, node, n, at);
        self.mark_far_along(Axis::Preceding, node, n, at);
        self.mark_far_along(Axis::SelfNode, node, n, at);
    }

    /// Forgets what the readers of the names along a far axis from a node read, where an element stands on it.
    fn mark_far_along(&mut self, axis: Axis, node: NodeId, n: NodeId, at: &Marking<'_>)
        requires element { is_element (kind_of at.now.tree.now.nodes node) ≡ true }
        requires lives { is_live at.now.tree.now.nodes n ≡ true }
        requires far { is_far axis ≡ true }
        ensures { DropsTouched at.now.tree.now.nodes (holds_cell at.now.tree.now.nodes at.now.touched.now) at.now.width
            (IsAlongFrom at.now.tree.now.nodes node axis n) self.old self.new }
    {
        let may = self.entries.may_have(&NamesAlong { axis, node: n });
        if may {
            let stands = is_along(at.tree, axis, n, node);
            self.mark_if(stands, axis, n, node, at);
        }
    }
}

/// Whether an element stands on a far axis from a node.
///
/// Costs the way up from one of them at most.
fn is_along(tree: &Tree, axis: Axis, n: NodeId, element: NodeId) -> bool
    requires element { is_element (kind_of tree.now.nodes element) ≡ true }
    requires lives { is_live tree.now.nodes n ≡ true }
    requires far { is_far axis ≡ true }
    ensures { result ≡ on_axis tree.now.nodes axis n element }
{
    match axis {
        Axis::Ancestor => is_ancestor(tree, element, n),
        Axis::AncestorOrSelf => is_ancestor(tree, element, n) || element == n,
        Axis::Following => is_behind(tree, n, element),
        Axis::Parent => is_parent(tree, element, n),
        Axis::Preceding => is_ahead(tree, n, element),
        Axis::SelfNode => element == n,
        Axis::Attribute => false,
        Axis::Child => false,
        Axis::Descendant => false,
        Axis::DescendantOrSelf => false,
        Axis::FollowingSibling => false,
        Axis::PrecedingSibling => false,
    }
}

/// Whether an element follows a node.
fn is_behind(tree: &Tree, n: NodeId, element: NodeId) -> bool
    requires element { is_element (kind_of tree.now.nodes element) ≡ true }
    requires lives { is_live tree.now.nodes n ≡ true }
    ensures { result ≡ on_axis tree.now.nodes Following n element }
{
    let after = tree.is_before(n, element);
    let below = is_ancestor(tree, n, element);
    after && !below
}

/// Whether an element precedes a node.
fn is_ahead(tree: &Tree, n: NodeId, element: NodeId) -> bool
    requires element { is_element (kind_of tree.now.nodes element) ≡ true }
    requires lives { is_live tree.now.nodes n ≡ true }
    ensures { result ≡ on_axis tree.now.nodes Preceding n element }
{
    let before = tree.is_before(element, n);
    let above = is_ancestor(tree, element, n);
    before && !above
}

/// Whether a number is that of an ancestor of a node.
fn is_ancestor(tree: &Tree, upper: NodeId, node: NodeId) -> bool
    ensures { result ≡ mem upper (ancestors tree.now.nodes node) }
{
    tree.laws();
    match tree.parent(node) {
        Some(parent) => upper == parent || is_ancestor(tree, upper, parent),
        None => false,
    }
}

/// Whether a number is that of a node's parent.
fn is_parent(tree: &Tree, upper: NodeId, node: NodeId) -> bool
    ensures { result ≡ is_one (parent_of tree.now.nodes node) upper }
{
    match tree.parent(node) {
        Some(parent) => upper == parent,
        None => false,
    }
}

//! The kids of a node before and after one of them.

ghost use Rattle.std.specs.Prelude.{◌≡◌, ◌==◌, position};
ghost use Rattle.doc_tree.specs.Lists.{Distinct};
ghost use Rattle.doc_axes.specs.Siblings.{kids_before, kids_behind};

use doc_tree::NodeId;

/// The kids after one of them; all of them after a node that is no kid, an attribute.
pub(crate) fn kids_behind(kids: &[NodeId], n: NodeId) -> &[NodeId]
    requires { Distinct kids.now }
    ensures { result.now ≡ kids_behind n kids.now }
{
    match place_among(kids, n) {
        Some(place) => kids.split_at(place + 1).1,
        None => kids,
    }
}

/// The kids before one of them; none before a node that is no kid, an attribute.
pub(crate) fn kids_before(kids: &[NodeId], n: NodeId) -> &[NodeId]
    requires { Distinct kids.now }
    ensures { result.now ≡ kids_before n kids.now }
{
    match place_among(kids, n) {
        Some(place) => kids.split_at(place).0,
        None => &[],
    }
}

/// The place of the node among the kids. Kids that stand in the order of their numbers, as those of a tree that was not edited do, cost a search by
/// halves.
fn place_among(kids: &[NodeId], n: NodeId) -> Option<usize>
    requires { Distinct kids.now }
    ensures { result ≡ position (λ kid. n == kid) kids.now }
{
    let likely = kids.partition_point(|kid| kid.index() < n.index());
    if likely < kids.len() && kids[likely] == n {
        return Some(likely);
    }
    kids.iter().position(|kid| n == *kid)
}

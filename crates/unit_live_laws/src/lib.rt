//! The cells that units read are of live nodes; so are the nodes that lets in force give, and those that findings are at.
#![tactic(auto)]

ghost use Rattle.unit_live_laws.specs.LiveReads.{LetsGiveLiveNodes, PairsFindAtLiveNodes, UnitsReadLiveCells};

/// Where the nodes of the lets' values live, a let in force reads cells of live nodes and names along axes from live nodes, and
/// so does a live node under a pattern. The nodes of a let's value are live nodes, and so are those that the findings at one are at.
pub fn units_read_live_cells()
    ensures reads { UnitsReadLiveCells }
    ensures answers { LetsGiveLiveNodes }
    ensures findings { PairsFindAtLiveNodes }
{}

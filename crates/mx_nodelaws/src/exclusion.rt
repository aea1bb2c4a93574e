ghost use Rattle.std.specs.Prelude.{◌≡◌, ◌<◌, ◌≤◌, ◌↔◌, [], IsTrue};

use crate::faults::{AskFault, CancelFault, EnterFault, LeaveFault};
use crate::phase::Phase;
use mx_letters::Outbox;
use mx_stamps::{NodeId, Stamp};

/// A node of a mutual exclusion algorithm. `core` is the algorithm's step table: for each call, it
/// gives the node's new state, the result, and the letters (messages) in order, and the call does
/// exactly this. A refused call changes nothing and sends nothing. A cluster relies on the proofs
/// `phases` and `laws`.
pub trait Exclusion: Drop {
    ghost use Rattle.mx_stamps.specs.declared.limits.TheConstants.{MAX_NODES, MAX_SECTIONS};
    ghost use Rattle.mx_nodelaws.specs.World.{World};
    ghost use Rattle.mx_nodelaws.specs.Core.{Core, KeepsPhases, BearsNumber};
    ghost use Rattle.mx_nodelaws.specs.Laws.{KeepsGood};
    ghost use Rattle.std.specs.Prelude.{◌≡◌, ◌<◌, ◌≤◌, ◌↔◌, [], IsTrue};

    /// The type of a letter (message).
    type Msg: Copy + Default;

    /// What all nodes of a cluster know of it: the number of nodes and, if the algorithm needs
    /// them, the arbiters of each node or the tree.
    type Shape: Copy;

    // the step table
    ghost core: { Core Self.Shape Self Self.Msg };

    // the valid shapes, for which the laws hold
    ghost IsShape: { Self.Shape → Type 0 };

    // an invariant of worlds (the states of all nodes, and all letters ever sent): it holds at the
    // start, and each step keeps it
    ghost Good: { World Self Self.Msg → Type 0 };

    /// Returns the number of nodes.
    fn nodes(shape: &Self::Shape) -> u8
        ensures value { result ≡ core.count shape.now }
        ensures valid { IsShape shape.now }
        ensures low { 0 < result }
        ensures high { result ≤ MAX_NODES };

    /// Returns whether both are known to be the same letter, so that a letter to many nodes can be
    /// stored once. By default, no two are.
    fn is_same(one: &Self::Msg, other: &Self::Msg) -> bool
        ensures { IsTrue result → one.now ≡ other.now }
    {
        false
    }

    /// Creates the node `me`, idle, at the start of a cluster. The algorithm may count its stamps
    /// and grants, or its hops, on from `origin`; `limit` is the greatest section number.
    fn start(shape: &Self::Shape, me: NodeId, origin: u64, limit: u64) -> Self
        requires node { me < core.count shape.now }
        requires low { 0 < limit }
        requires high { limit ≤ MAX_SECTIONS }
        ensures { result ≡ core.start shape.now me origin limit };

    /// Asks for the next section, and returns the stamp of the request.
    ///
    /// # Errors
    ///
    /// Returns `NotIdle` if the node waits already or is inside, and `StampsSpent` if no next stamp
    /// exists.
    fn ask(&mut self, out: &mut Outbox<Self::Msg>) -> Result<Stamp, AskFault>
        requires { out.old ≡ [] }
        ensures state { self.new ≡ (core.ask self.old).state }
        ensures answer { result ≡ (core.ask self.old).answer }
        ensures letters { out.new ≡ (core.ask self.old).letters };

    /// Delivers a letter from node `from`; `out` takes the letters that the node then sends. A
    /// letter that fits no row of the step table is ignored.
    fn deliver(&mut self, from: NodeId, letter: Self::Msg, out: &mut Outbox<Self::Msg>)
        requires { out.old ≡ [] }
        ensures state { self.new ≡ (core.deliver from letter self.old).state }
        ensures letters { out.new ≡ (core.deliver from letter self.old).letters };

    /// Returns whether the node waits and has every permission for its current request.
    fn can_enter(&self) -> bool
        ensures { result ≡ core.can_enter self.now };

    /// Enters the section, and returns its number.
    ///
    /// # Errors
    ///
    /// Returns `NotWaiting` if the node is idle or inside, `NotGranted` if a permission is missing,
    /// and `NumbersSpent` if the highest section number that the node knows is the limit.
    fn enter(&mut self) -> Result<u64, EnterFault>
        ensures state { self.new ≡ (core.enter self.old).state }
        ensures answer { result ≡ (core.enter self.old).answer };

    /// Leaves the section, and returns its number.
    ///
    /// # Errors
    ///
    /// Returns `NotInside` if the node is idle or still waits.
    fn leave(&mut self, out: &mut Outbox<Self::Msg>) -> Result<u64, LeaveFault>
        requires { out.old ≡ [] }
        ensures state { self.new ≡ (core.leave self.old).state }
        ensures answer { result ≡ (core.leave self.old).answer }
        ensures letters { out.new ≡ (core.leave self.old).letters };

    /// Withdraws the request: the node no longer waits, and enters no section for it.
    ///
    /// # Errors
    ///
    /// Returns `NotWaiting` if the node is idle or inside.
    fn cancel(&mut self, out: &mut Outbox<Self::Msg>) -> Result<(), CancelFault>
        requires { out.old ≡ [] }
        ensures state { self.new ≡ (core.cancel self.old).state }
        ensures answer { result ≡ (core.cancel self.old).answer }
        ensures letters { out.new ≡ (core.cancel self.old).letters };

    /// Sends all outstanding letters again, since any letter may be lost.
    fn tick(&mut self, out: &mut Outbox<Self::Msg>)
        requires { out.old ≡ [] }
        ensures state { self.new ≡ (core.tick self.old).state }
        ensures letters { out.new ≡ (core.tick self.old).letters };

    /// Returns the phase of the node.
    fn phase(&self) -> Phase
        ensures value { result ≡ core.phase self.now }
        ensures numbered { BearsNumber result };

    /// Returns the number of the last section that this node entered, or 0 before the first.
    fn mine(&self) -> u64
        ensures value { result ≡ core.mine self.now }
        ensures high { result ≤ MAX_SECTIONS };

    ghost phases: { KeepsPhases core };

    ghost laws: { KeepsGood core IsShape Good };
}

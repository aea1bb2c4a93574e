ghost use Rattle.mx_quorums.specs.Family.{IsMeeting};
ghost use Rattle.mx_trees.specs.Tree.{IsRooted};
ghost use Rattle.mx_ricart.specs.Step.{IsCount, ricart_core};
ghost use Rattle.mx_maekawa.specs.Step.{maekawa_core};
ghost use Rattle.mx_raymond.specs.Step.{raymond_core};
ghost use Rattle.mx_model_runs.specs.Runs.{Happens, maekawa_trace, raymond_trace, ricart_trace, two_nodes, two_sets};

/// Proves that this run of Ricart and Agrawala's algorithm can happen: two nodes ask with the same
/// number. The request of node 1 waits, since that of node 0 comes first.
pub fn ricart_runs()
    ensures { Happens ricart_core IsCount 2 ricart_trace }
{}

/// Proves that this run of Maekawa's algorithm can happen: node 0 is its own only arbiter, and one
/// of the two arbiters of node 1. Node 0 grants node 1's request once it has left its own section.
pub fn maekawa_runs()
    ensures { Happens maekawa_core IsMeeting two_sets maekawa_trace }
{}

/// Proves that this run of Raymond's algorithm can happen: node 0 has the privilege at first, and
/// passes it on once it has left its section.
pub fn raymond_runs()
    ensures { Happens raymond_core IsRooted two_nodes raymond_trace }
{}

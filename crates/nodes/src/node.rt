ghost use Rattle.std.specs.Prelude.{◌≡◌};
ghost use Rattle.model.specs.Nodes.{no_node};
ghost use Rattle.nodes.specs.View.{the_node};

use partial::partial::PartialSchedule;

// Whether a node waits to be expanded or was expanded.
#[derive(Clone, Copy, PartialEq, Eq, Debug)]
pub enum Status {
    Waiting,
    Expanded,
}

// A node of the search: a partial schedule, its lower bound and its status.
#[derive(Clone, Copy, PartialEq, Eq, Debug)]
pub struct Node {
    pub partial: PartialSchedule,
    pub bound: u64,
    pub status: Status,
}

impl Node {
    // What stands past the last node of a table.
    pub(crate) fn none() -> Node
        ensures { the_node result ≡ no_node }
    {
        Node {
            partial: PartialSchedule::empty(),
            bound: 0,
            status: Status::Expanded,
        }
    }
}

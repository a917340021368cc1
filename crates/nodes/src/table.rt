ghost use Rattle.std.specs.Prelude.{◌≡◌, map, max, None, IfOk, replicate};
ghost use Rattle.nodes.specs.View.{the_node};
ghost use Rattle.nodes.specs.Linked.{Linked};

use crate::node::{Node, Status};
use partial::partial::PartialSchedule;
use std::alloc::{AllocError, Global};

mod links;

// The nodes of the search, and behind them an index that finds duplicates: a chain of node numbers for each bucket of
// partial schedules. The first `linked` nodes are in the chains, but for node 0, which is never looked for and can so be
// written at no cost: `heads` has the first number of each chain, and `next` the number behind each node. That the
// chains are right is part of the type.
#[derive(Drop)]
pub struct Table {
    nodes: Vec<Node>,
    heads: Vec<Option<usize>>,
    next: Vec<Option<usize>>,
    linked: usize,
    ghost links: { Linked (map the_node nodes.items) heads.items next.items linked },
}

// An index of n nodes with no chains: the first numbers, of one chain at least, and the numbers behind the nodes.
fn blank_index(
    heap: Global,
    n: usize,
) -> Result<(Vec<Option<usize>>, Vec<Option<usize>>), AllocError>
    ensures { IfOk result (λ x. (x.0.items ≡ replicate (max n 1) None)
        × (x.1.items ≡ replicate n None)) }
{
    let heads = vec![in heap; None; n.max(1)]?;
    let next = vec![in heap; None; n]?;
    Ok((heads, next))
}

impl Table {
    ghost use Rattle.std.specs.Prelude.{length, MatchResult, slice_set};
    ghost use Rattle.model.specs.Nodes.{node_at, is_held};
    ghost use Rattle.partial.specs.Meaning.{the_partial};
    ghost use Rattle.nodes.specs.Meaning.{the_nodes, set_expanded};

    // A table of the caller's nodes, whatever they hold; where there is no memory for the index, the nodes are handed back
    // as they were. Nothing else allocates.
    pub fn new(heap: Global, nodes: Vec<Node>) -> Result<Table, (AllocError, Vec<Node>)>
        ensures { MatchResult result (λ t. the_nodes t ≡ map the_node nodes.items)
            (λ e. e.1 ≡ nodes) }
    {
        match blank_index(heap, nodes.len()) {
            Ok((heads, next)) => Ok(Table {
                nodes,
                heads,
                next,
                linked: 1,
            }),
            Err(fault) => Err((fault, nodes)),
        }
    }

    // How many nodes there are.
    pub fn len(&self) -> usize
        ensures { result ≡ length (the_nodes self.now) }
    {
        self.nodes.len()
    }

    // Node i; past the last, one that holds nothing and does not wait.
    pub fn node(&self, i: usize) -> Node
        ensures { the_node result ≡ node_at (the_nodes self.now) i }
    {
        self.nodes.get(i).copied().unwrap_or_else(Node::none)
    }

    // Puts a node in the place of node i; past the last, nothing is changed.
    pub fn write(&mut self, i: usize, node: Node)
        ensures { the_nodes self.new ≡ slice_set (the_nodes self.old) i (the_node node) }
    {
        if i < self.len() {
            self.unlink_from(i);
            self.nodes[i] = node;
        }
    }

    // Node i was expanded; past the last, nothing is changed.
    pub fn expand(&mut self, i: usize)
        ensures { the_nodes self.new ≡ set_expanded (the_nodes self.old) i }
    {
        if i < self.len() {
            self.nodes[i].status = Status::Expanded;
        }
    }

    // Whether one of the first `used` nodes, node 0 apart, holds a duplicate of q.
    pub fn find(&mut self, used: usize, q: &PartialSchedule) -> bool
        ensures is { result ≡ is_held (the_nodes self.old) used (the_partial q.now) }
        ensures kept { the_nodes self.new ≡ the_nodes self.old }
    {
        self.link_below(used);
        self.is_held(used, q)
    }

    // The nodes back.
    pub fn into_nodes(self) -> Vec<Node>
        ensures { map the_node result.items ≡ the_nodes self }
    {
        let Table { nodes, .. } = self;
        nodes
    }
}

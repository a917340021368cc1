ghost use Rattle.std.specs.Prelude.{◌≡◌, ℕ, [], length, None, Some, Contains, MatchResult, IsTrue, IfOk, ◌+◌, ◌<◌, ◌≤◌};
ghost use Rattle.model.specs.Children.{choices};
ghost use Rattle.model.specs.Nodes.{node_at};
ghost use Rattle.model.specs.Soundness.{Orderly};
ghost use Rattle.loader.specs.Meaning.{the_graph};
ghost use Rattle.partial.specs.Meaning.{the_partial, Appendable};
ghost use Rattle.children.specs.Meaning.{the_choices};
ghost use Rattle.nodes.specs.View.{the_node};
ghost use Rattle.nodes.specs.Meaning.{the_nodes};
ghost use Rattle.bag.specs.Bag.{first};
ghost use Rattle.astar.specs.Advance.{is_own, is_ripe, is_sound, early_word, late_word};
ghost use Rattle.search.specs.States.{the_state};

use crate::search::Search;
use astar::outcome::Outcome;
use children::choices::Choices;
use children::complete::is_complete;
use children::orderly::is_orderly;
use loader::graph::TaskGraph;
use nodes::node::{Node, Status};
use nodes::table::Table;
use queue::entry::Entry;
use queue::open_list::OpenList;

// Whether a node can be expanded: it waits with this bound, and its partial schedule lacks a task and is in order.
fn is_ripe(g: &TaskGraph, node: &Node, bound: u64) -> bool
    ensures is { result ≡ is_ripe (the_graph g.now) (the_node node.now) bound }
    ensures orderly { IsTrue result → Orderly (the_graph g.now) (the_partial node.now.partial) }
{
    node.status == Status::Waiting
        && node.bound == bound
        && !is_complete(g, &node.partial)
        && is_orderly(g, &node.partial)
}

impl Search {
    // Whether the memory is this search's: the counts are those at opening, as many entries wait as were counted, and
    // the list can hold an entry for each node.
    pub(crate) fn is_own<L: OpenList>(&self, g: &TaskGraph, table: &Table, list: &mut L) -> bool
        ensures is { result ≡ is_own (the_graph g.now) self.now.sizes
            (the_state self.now.tally table.now (L.bag list.old)) (L.limit list.old) }
        ensures same { list.new ≡ list.old }
    {
        let waiting = list.count();
        let capacity = list.capacity();
        g.tasks() == self.sizes.tasks
            && g.machines() == self.sizes.machines
            && table.len() == self.sizes.nodes
            && waiting as u64 == self.tally.waiting
            && table.len() <= capacity
    }

    // The first two tests of a turn: the entry that comes first, or the outcome.
    pub(crate) fn next_entry<L: OpenList>(
        &self,
        g: &TaskGraph,
        table: &Table,
        list: &mut L,
    ) -> Result<Entry, Outcome>
        ensures is { MatchResult result
            (λ e. (early_word (the_graph g.now) self.now.sizes
            (the_state self.now.tally table.now (L.bag list.old)) (L.limit list.old) ≡ None)
            × (first (L.bag list.old) ≡ Some e))
            (λ o. early_word (the_graph g.now) self.now.sizes
            (the_state self.now.tally table.now (L.bag list.old)) (L.limit list.old) ≡ Some o) }
        ensures own { IfOk result (λ _. (length (the_nodes table.now) ≡ self.now.sizes.nodes)
            × (length (L.bag list.old) ≡ self.now.tally.waiting)
            × (length (the_nodes table.now) ≤ L.limit list.old) × (0 < length (L.bag list.old))) }
        ensures same { list.new ≡ list.old }
    {
        if !self.is_own(g, table, list) {
            return Err(Outcome::Strange);
        }
        let entry = list.look().ok_or(Outcome::Met)?;
        if table.node(0).bound <= entry.bound {
            return Err(Outcome::Met);
        }
        Ok(entry)
    }

    // The last two tests: the children of the entry's node by their choices, or the outcome.
    pub(crate) fn next_choices(
        &self,
        g: &TaskGraph,
        table: &Table,
        entry: Entry,
    ) -> Result<Choices, Outcome>
        requires { self.now.sizes.nodes ≡ length (the_nodes table.now) }
        ensures is { MatchResult result
            (λ c. (late_word (the_graph g.now) (the_state self.now.tally table.now []) entry ≡ None)
            × (the_choices c ≡ choices (the_graph g.now)
            (node_at (the_nodes table.now) entry.node).partial))
            (λ o. late_word (the_graph g.now) (the_state self.now.tally table.now []) entry
            ≡ Some o) }
        ensures appendable { IfOk result
            (λ c. (t m : ℕ) → Contains (the_choices c) (t, m)
            → Appendable (the_graph g.now) (node_at (the_nodes table.now) entry.node).partial t m) }
        ensures room { IfOk result
            (λ c. (self.now.tally.stored + 2 + length (the_choices c) ≤ length
            (the_nodes table.now)) × (length (the_choices c) ≤ 256)) }
    {
        let used = self.tally.stored as usize + 2;
        let node = table.node(entry.node);
        if entry.node == 0 || entry.node >= used || !is_ripe(g, &node, entry.bound) {
            return Err(Outcome::Strange);
        }
        let choices = Choices::of(g, &node.partial);
        if table.len() - used < choices.len() {
            return Err(Outcome::Full);
        }
        Ok(choices)
    }
}

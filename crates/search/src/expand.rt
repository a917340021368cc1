ghost use Rattle.std.specs.Prelude.{◌≡◌, ℕ, ◌+◌, ◌^◌, ◌<◌, ◌≤◌, length, fold};
ghost use Rattle.std.specs.List.{Contains};
ghost use Rattle.model.specs.Children.{choices};
ghost use Rattle.model.specs.Nodes.{node_at};
ghost use Rattle.loader.specs.Meaning.{the_graph};
ghost use Rattle.partial.specs.Meaning.{the_partial, Appendable};
ghost use Rattle.children.specs.Choices.{pair_of, pairs_of};
ghost use Rattle.children.specs.Meaning.{the_choices};
ghost use Rattle.nodes.specs.View.{the_node};
ghost use Rattle.nodes.specs.Meaning.{the_nodes};
ghost use Rattle.astar.specs.Advance.{next_node};
ghost use Rattle.astar.specs.Expansion.{completed, kept_or_dropped, stored, visited, visited_by, expanded};
ghost use Rattle.search.specs.States.{the_state};
ghost use Rattle.search.specs.Counts.{Room};
ghost use Rattle.search.specs.Keeping.{KeptWhile};

use astar::tally::Tally;
use bounds::lower_bound::LowerBound;
use children::choice::Choice;
use children::choices::Choices;
use children::complete::{is_complete, makespan};
use loader::graph::TaskGraph;
use nodes::node::{Node, Status};
use nodes::table::Table;
use partial::partial::PartialSchedule;
use queue::entry::Entry;
use queue::open_list::OpenList;

// A complete child is counted, and it is the best schedule from then on if it is strictly shorter.
fn complete<L: OpenList>(
    g: &TaskGraph,
    table: &mut Table,
    list: &L,
    tally: &mut Tally,
    child: &PartialSchedule,
)
    requires { Room 1 (L.limit list.now) (the_state tally.old table.old (L.bag list.now)) }
    ensures { the_state tally.new table.new (L.bag list.now)
        ≡ completed (the_graph g.now) (the_state tally.old table.old (L.bag list.now))
        (the_partial child.now) }
{
    tally.generated += 1;
    tally.complete += 1;
    let length = makespan(g, child);
    if length < table.node(0).bound {
        table.write(
            0,
            Node {
                partial: *child,
                bound: length,
                status: Status::Expanded,
            },
        );
    }
}

// A child with this bound fills the next unused node, waiting, and its entry enters the list.
fn store<L: OpenList>(
    table: &mut Table,
    list: &mut L,
    tally: &mut Tally,
    child: &PartialSchedule,
    bound: u64,
)
    requires { Room 1 (L.limit list.old) (the_state tally.old table.old (L.bag list.old)) }
    ensures is { the_state tally.new table.new (L.bag list.new)
        ≡ stored (the_state tally.old table.old (L.bag list.old)) (the_partial child.now) bound }
    ensures limit { L.limit list.new ≡ L.limit list.old }
    ensures kept { L.kept list.old list.new }
{
    let node = tally.stored as usize + 2;
    table.write(
        node,
        Node {
            partial: *child,
            bound,
            status: Status::Waiting,
        },
    );
    list.put(Entry { bound, node });
    tally.generated += 1;
    tally.stored += 1;
    tally.waiting += 1;
}

// A child that is not complete is pruned, dropped as a duplicate, or stored.
#[tactic(auto, using(crate::proofs::Keeping::kept_still))]
fn keep_or_drop<L: OpenList>(
    table: &mut Table,
    list: &mut L,
    tally: &mut Tally,
    child: &PartialSchedule,
    bound: u64,
)
    requires { Room 1 (L.limit list.old) (the_state tally.old table.old (L.bag list.old)) }
    ensures is { the_state tally.new table.new (L.bag list.new)
        ≡ kept_or_dropped (the_state tally.old table.old (L.bag list.old))
        (the_partial child.now) bound }
    ensures limit { L.limit list.new ≡ L.limit list.old }
    ensures kept { KeptWhile L.bag L.kept tally.old.stored tally.new.stored list.old list.new }
{
    if table.node(0).bound <= bound {
        tally.generated += 1;
        tally.pruned += 1;
    } else if table.find(tally.stored as usize + 2, child) {
        tally.generated += 1;
        tally.duplicates += 1;
    } else {
        store(table, list, tally, child, bound);
    }
}

// One child of a node with bound up.
#[tactic(auto, using(crate::proofs::Keeping::kept_still), unfolding(astar::specs::Expansion::visited))]
fn visit<B: LowerBound, L: OpenList>(
    g: &TaskGraph,
    rule: &B,
    table: &mut Table,
    list: &mut L,
    tally: &mut Tally,
    up: u64,
    child: &PartialSchedule,
)
    requires { Room 1 (L.limit list.old) (the_state tally.old table.old (L.bag list.old)) }
    ensures is { the_state tally.new table.new (L.bag list.new)
        ≡ visited (the_graph g.now) (B.number rule.now) up
        (the_state tally.old table.old (L.bag list.old)) (the_partial child.now) }
    ensures limit { L.limit list.new ≡ L.limit list.old }
    ensures kept { KeptWhile L.bag L.kept tally.old.stored tally.new.stored list.old list.new }
{
    if is_complete(g, child) {
        complete(g, table, list, tally, child);
    } else {
        let bound = up.max(rule.bound(g, child));
        keep_or_drop(table, list, tally, child, bound);
    }
}

// The child of a node by a choice.
#[tactic(auto, using(crate::proofs::Folding::answered))]
fn visit_choice<B: LowerBound, L: OpenList>(
    g: &TaskGraph,
    rule: &B,
    table: &mut Table,
    list: &mut L,
    tally: &mut Tally,
    parent: &Node,
    choice: &Choice,
)
    requires room { Room 1 (L.limit list.old) (the_state tally.old table.old (L.bag list.old)) }
    requires appendable { Appendable (the_graph g.now)
        (the_partial parent.now.partial) choice.now.task choice.now.machine }
    ensures is { the_state tally.new table.new (L.bag list.new)
        ≡ visited_by (the_graph g.now) (B.number rule.now) (the_node parent.now)
        (the_state tally.old table.old (L.bag list.old)) (pair_of choice.now) }
    ensures limit { L.limit list.new ≡ L.limit list.old }
    ensures kept { KeptWhile L.bag L.kept tally.old.stored tally.new.stored list.old list.new }
    ensures room { (n : ℕ) → Room (n + 1) (L.limit list.old)
        (the_state tally.old table.old (L.bag list.old))
        → Room n (L.limit list.new) (the_state tally.new table.new (L.bag list.new)) }
{
    let child = parent
        .partial
        .child(g, choice.task, choice.machine)
        .unwrap();
    visit(g, rule, table, list, tally, parent.bound, &child);
}

// The children of a node by these choices, one after the other.
fn visit_all<B: LowerBound, L: OpenList>(
    g: &TaskGraph,
    rule: &B,
    table: &mut Table,
    list: &mut L,
    tally: &mut Tally,
    parent: &Node,
    choices: &[Choice],
)
    requires room { Room (length choices.now) (L.limit list.old)
        (the_state tally.old table.old (L.bag list.old)) }
    requires appendable { (t m : ℕ) → Contains (pairs_of choices.now) (t, m)
        → Appendable (the_graph g.now) (the_partial parent.now.partial) t m }
    ensures is { the_state tally.new table.new (L.bag list.new)
        ≡ fold (visited_by (the_graph g.now) (B.number rule.now) (the_node parent.now))
        (the_state tally.old table.old (L.bag list.old)) (pairs_of choices.now) }
    ensures limit { L.limit list.new ≡ L.limit list.old }
    ensures grows { tally.old.stored ≤ tally.new.stored }
    ensures kept { KeptWhile L.bag L.kept tally.old.stored tally.new.stored list.old list.new }
{
    for choice in choices {
        visit_choice(g, rule, table, list, tally, parent, choice);
    }
}

// The node whose entry comes first is expanded: its entry is taken, and its children are visited.
#[tactic(auto, using(crate::proofs::Taking::taken_some), unfolding(astar::specs::Expansion::expanded))]
pub(crate) fn expand<B: LowerBound, L: OpenList>(
    g: &TaskGraph,
    rule: &B,
    table: &mut Table,
    list: &mut L,
    tally: &mut Tally,
    pairs: &Choices,
)
    requires waits { 0 < length (L.bag list.old) }
    requires pairs { let i = next_node (L.bag list.old) in
        the_choices pairs.now ≡ choices (the_graph g.now) (node_at (the_nodes table.old) i).partial }
    requires appendable { let i = next_node (L.bag list.old) in
        (t m : ℕ) → Contains (the_choices pairs.now) (t, m)
        → Appendable (the_graph g.now) (node_at (the_nodes table.old) i).partial t m }
    requires room { Room (length (the_choices pairs.now)) (L.limit list.old)
        (the_state tally.old table.old (L.bag list.old)) }
    requires counts { (1 ≤ tally.old.waiting) × (tally.old.expanded + 1 < 2 ^ 64) }
    ensures is { the_state tally.new table.new (L.bag list.new)
        ≡ expanded (the_graph g.now) (B.number rule.now)
        (the_state tally.old table.old (L.bag list.old)) (next_node (L.bag list.old)) }
    ensures limit { L.limit list.new ≡ L.limit list.old }
    ensures kept { KeptWhile L.bag L.kept tally.old.stored tally.new.stored list.old list.new }
{
    let Some(entry) = list.take() else {
        return;
    };
    let parent = table.node(entry.node);
    table.expand(entry.node);
    tally.expanded += 1;
    tally.waiting -= 1;
    visit_all(g, rule, table, list, tally, &parent, pairs.as_slice());
}

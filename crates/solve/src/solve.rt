ghost use Rattle.std.specs.Prelude.{◌≡◌, None, Some, MatchResult, IfOk};
ghost use Rattle.loader.specs.Meaning.{the_graph};
ghost use Rattle.nodes.specs.Meaning.{the_nodes};
ghost use Rattle.search.specs.Calls.{open_fault};
ghost use Rattle.solve.specs.Solving.{end_of, ended, is_shortest, would_settle, Solves};

use bounds::lower_bound::LowerBound;
use loader::graph::TaskGraph;
use nodes::table::Table;
use queue::open_list::OpenList;
use search::fault::SearchFault;
use search::search::{Search, Settled};

// What a search came to: a shortest schedule is known, or the search may go on.
#[derive(Drop)]
pub enum Solved {
    Shortest(Settled),
    Open(Search),
}

// Opens a search, advances it `rounds` times with the same budget, and settles it if it can. What it promises rests on
// what these calls promise, and on nothing else.
pub fn solve<B: LowerBound, L: OpenList>(
    g: &TaskGraph,
    rule: &B,
    table: &mut Table,
    list: &mut L,
    rounds: u64,
    budget: u64,
) -> Result<Solved, SearchFault>
    ensures is { MatchResult result
        (λ s. (open_fault (the_nodes table.old) (L.bag list.old) (L.limit list.old) ≡ None)
        × (end_of table.new (L.bag list.new) (L.limit list.new) s
        ≡ ended (the_graph g.now) (B.number rule.now) (the_nodes table.old)
        (L.limit list.old) budget rounds)
        × (is_shortest s ≡ would_settle (the_graph g.now)
        (ended (the_graph g.now) (B.number rule.now) (the_nodes table.old)
        (L.limit list.old) budget rounds)))
        (λ e. (open_fault (the_nodes table.old) (L.bag list.old) (L.limit list.old) ≡ Some e)
        × (the_nodes table.new ≡ the_nodes table.old) × (list.new ≡ list.old)) }
    ensures solves { IfOk result (λ s. Solves (the_graph g.now) (B.number rule.now) table.new
        (L.bag list.new) (L.limit list.new) s) }
    ensures limit { L.limit list.new ≡ L.limit list.old }
{
    let mut search = Search::open(g, rule, table, list)?;
    for _ in 0..rounds {
        search.advance(g, rule, table, list, budget);
    }
    match search.settle(g, table, list) {
        Ok(settled) => Ok(Solved::Shortest(settled)),
        Err((_, search)) => Ok(Solved::Open(search)),
    }
}

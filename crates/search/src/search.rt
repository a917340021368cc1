ghost use Rattle.search.specs.Counts.{Sensible};

use astar::sizes::Sizes;
use astar::tally::Tally;

mod advance;
mod ask;
mod best;
mod calls;
mod open;
mod settle;
mod settled_calls;
mod tests;

// A search, by counts alone: how many tasks, machines and nodes there were when it was opened, and what it has done.
// Graph, lower bound, table and open list are lent to each call. It is moved, never copied.
#[derive(Drop)]
pub struct Search {
    sizes: Sizes,
    tally: Tally,
    ghost counts: { Sensible sizes tally },
}

// A search that has found a shortest schedule. It cannot be advanced.
#[derive(Drop)]
pub struct Settled {
    search: Search,
}

ghost use Rattle.std.specs.Prelude.{◌≡◌, ◌+◌, None, Some, MatchResult};
ghost use Rattle.loader.specs.Meaning.{the_graph};
ghost use Rattle.astar.specs.Expansion.{expanded};
ghost use Rattle.astar.specs.Advance.{early_word, turn_word, last_word, next_node, advanced};
ghost use Rattle.search.specs.Keeping.{KeptWhile};
ghost use Rattle.search.specs.States.{the_state};

use crate::expand::expand;
use crate::search::Search;
use astar::outcome::Outcome;
use bounds::lower_bound::LowerBound;
use loader::graph::TaskGraph;
use nodes::table::Table;
use queue::open_list::OpenList;

impl Search {
    // The node whose entry comes first is expanded, or the outcome that ends the call.
    #[tactic(auto, using(crate::proofs::Keeping::kept_still))]
    fn turn<B: LowerBound, L: OpenList>(
        &mut self,
        g: &TaskGraph,
        rule: &B,
        table: &mut Table,
        list: &mut L,
    ) -> Result<(), Outcome>
        ensures is { MatchResult result
            (λ _. (turn_word (the_graph g.now) self.old.sizes
            (the_state self.old.tally table.old (L.bag list.old)) (L.limit list.old) ≡ None)
            × (the_state self.new.tally table.new (L.bag list.new)
            ≡ expanded (the_graph g.now) (B.number rule.now)
            (the_state self.old.tally table.old (L.bag list.old)) (next_node (L.bag list.old))))
            (λ o. (turn_word (the_graph g.now) self.old.sizes
            (the_state self.old.tally table.old (L.bag list.old)) (L.limit list.old) ≡ Some o)
            × (the_state self.new.tally table.new (L.bag list.new)
            ≡ the_state self.old.tally table.old (L.bag list.old))) }
        ensures still { MatchResult result
            (λ _. self.new.tally.expanded ≡ self.old.tally.expanded + 1)
            (λ _. (self.new.tally ≡ self.old.tally) × (list.new ≡ list.old)) }
        ensures kept { KeptWhile L.bag L.kept self.old.tally.stored self.new.tally.stored list.old list.new }
        ensures sizes { self.new.sizes ≡ self.old.sizes }
        ensures limit { L.limit list.new ≡ L.limit list.old }
    {
        let entry = self.next_entry(g, table, list)?;
        let choices = self.next_choices(g, table, entry)?;
        expand(g, rule, table, list, &mut self.tally, &choices);
        Ok(())
    }
}

impl Search {
    // Where the budget is spent the first two tests are made once more.
    fn last_outcome<L: OpenList>(&self, g: &TaskGraph, table: &Table, list: &mut L) -> Outcome
        ensures is { result ≡ last_word
            (early_word (the_graph g.now) self.now.sizes
            (the_state self.now.tally table.now (L.bag list.old)) (L.limit list.old)) }
        ensures same { list.new ≡ list.old }
    {
        self.next_entry(g, table, list)
            .err()
            .unwrap_or(Outcome::Paused)
    }

    // Turn by turn, until an outcome or the budget ends the call.
    pub(crate) fn spend<B: LowerBound, L: OpenList>(
        &mut self,
        g: &TaskGraph,
        rule: &B,
        table: &mut Table,
        list: &mut L,
        budget: u64,
    ) -> Outcome
        ensures is { (the_state self.new.tally table.new (L.bag list.new), result)
            ≡ advanced (the_graph g.now) (B.number rule.now) self.old.sizes
            (L.limit list.old) budget (the_state self.old.tally table.old (L.bag list.old)) }
        ensures still { self.new.tally.expanded ≡ self.old.tally.expanded → list.new ≡ list.old }
        ensures kept { KeptWhile L.bag L.kept self.old.tally.stored self.new.tally.stored list.old list.new }
        ensures sizes { self.new.sizes ≡ self.old.sizes }
        ensures limit { L.limit list.new ≡ L.limit list.old }
    {
        for _ in 0..budget {
            if let Err(outcome) = self.turn(g, rule, table, list) {
                return outcome;
            }
        }
        self.last_outcome(g, table, list)
    }
}

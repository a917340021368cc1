ghost use Rattle.std.specs.Prelude.{◌≡◌, [], length};
ghost use Rattle.bag.specs.Bag.{InOrder};
ghost use Rattle.bag.proofs.Bags.{in-order-prop};
ghost use Rattle.queue.specs.Entries.{entry_before};
ghost use Rattle.chain.specs.Cells.{StrungUp};
ghost use Rattle.chain.specs.Chains.{cells_of, chain_of, CellsKept};
ghost use Rattle.chain.specs.ChainBags.{chain-bounded};

use crate::cell::Cell;
use crate::links::Links;
use queue::entry::Entry;
use queue::open_list::OpenList;

// An open list as an ordered chain in lent cells. That the chain is in order is part of the type.
#[derive(Drop)]
pub struct EntryChain<'a> {
    links: Links<'a>,
    ghost order: { InOrder entry_before (chain_of links) } by { in-order-prop entry_before _ },
}

impl EntryChain<'_> {
    // An empty list in cells that hold anything.
    pub fn start(cells: &mut [Cell]) -> EntryChain<'_>
        ensures bag { chain_of result.links ≡ [] }
        ensures room { length (cells_of result.links) ≡ length cells.old }
        ensures cells { StrungUp cells.old (cells_of result.links) }
        ensures lender { result.links.cells.ghost_name ≡ cells.entry.ghost_name }
    {
        let links = Links::start(cells);
        EntryChain { links }
    }
}

impl OpenList for EntryChain<'_> {
    ghost bag = { λ s. chain_of s.links };

    ghost limit = { λ s. length (cells_of s.links) };

    ghost kept = { λ a b. CellsKept a.links b.links };

    ghost ordered = { λ s. s.order };

    ghost bounded = { λ s. chain-bounded (cells_of s.links) _ _ s.links.linked.within };

    fn put(&mut self, e: Entry) -> bool {
        self.links.put(e)
    }

    fn look(&mut self) -> Option<Entry> {
        self.links.look()
    }

    fn take(&mut self) -> Option<Entry> {
        self.links.take()
    }

    fn count(&mut self) -> usize {
        self.links.count
    }

    fn capacity(&mut self) -> usize {
        self.links.cells.len()
    }
}

ghost use Rattle.std.specs.Prelude.{◌≡◌, ◌≤◌, ◌++◌, Bool, length, drop, codes, Ok};
ghost use Rattle.loader.specs.Meaning.{the_graph};
ghost use Rattle.search.specs.declared.search.Search.{Search};
ghost use Rattle.search.specs.Calls.{answer_or, left_or};
ghost use Rattle.search.specs.States.{moment};
ghost use Rattle.refusal.specs.Refusing.{Refuses};
ghost use Rattle.search.specs.Refusals.{page_refusal};
ghost use Rattle.search.specs.Refused.{WriteRefused};
ghost use Rattle.search.specs.Promise.{best, IsShortest, Promised, InRun};
ghost use Rattle.page.specs.Pages.{page_of, text_of, page_fault, Truthful, LastWord, EndsAs};

use loader::graph::TaskGraph;
use nodes::table::Table;
use partial::placement::Placement;
use queue::open_list::OpenList;
use search::fault::PageFault;

// A row for each task that a graph can have, before a schedule is written.
pub(crate) const BLANK: [Placement; 32] = [Placement {
    machine: 0,
    start: 0,
}; 32];

// A search that can be told as a page.
pub trait Page {
    // The search whose counts it has.
    ghost counts: { Self → Search };

    // Whether a search of this type was settled.
    ghost settled: { Bool };

    // Writes the page to the front of the buffer and answers its length; what lies behind it stays. In a run it is
    // written, given room, and what it tells is so; 4,400 bytes are room enough.
    fn page<L: OpenList>(
        &self,
        g: &TaskGraph,
        table: &Table,
        list: &mut L,
        buffer: &mut [u8],
    ) -> Result<usize, PageFault>
        ensures is { let m = moment (counts self.now) table.now (L.bag list.old)
            (L.limit list.old) in
            result ≡ answer_or (length (text_of (the_graph g.now) settled m))
            (page_fault (the_graph g.now) settled m (length buffer.old)) }
        ensures refused { let m = moment (counts self.now) table.now (L.bag list.old)
            (L.limit list.old) in
            Refuses (WriteRefused (the_graph g.now) m.sizes m.limit m.state
            (length (text_of (the_graph g.now) settled m)) (length buffer.old)) page_refusal result }
        ensures buffer { let m = moment (counts self.now) table.now (L.bag list.old)
            (L.limit list.old) in
            buffer.new ≡ left_or (text_of (the_graph g.now) settled m
            ++ drop (length (text_of (the_graph g.now) settled m)) buffer.old) buffer.old
            (page_fault (the_graph g.now) settled m (length buffer.old)) }
        ensures same { list.new ≡ list.old }
        ensures run { let m = moment (counts self.now) table.now (L.bag list.old)
            (L.limit list.old) in
            (done : Bool) → InRun (the_graph g.now) done m
            → length (text_of (the_graph g.now) settled m) ≤ length buffer.old
            → (result ≡ Ok (length (text_of (the_graph g.now) settled m)))
            × Truthful done (page_of (the_graph g.now) settled m) }
        ensures ending { let m = moment (counts self.now) table.now (L.bag list.old)
            (L.limit list.old) in
            EndsAs settled (text_of (the_graph g.now) settled m) }
        ensures shortest { let m = moment (counts self.now) table.now (L.bag list.old)
            (L.limit list.old) in
            InRun (the_graph g.now) settled m
            → LastWord (text_of (the_graph g.now) settled m) (codes "shortest")
            → IsShortest (the_graph g.now) (best m) }
        ensures room { let m = moment (counts self.now) table.now (L.bag list.old)
            (L.limit list.old) in
            (done : Bool) → InRun (the_graph g.now) done m
            → length (text_of (the_graph g.now) settled m) ≤ 4400 }
        ensures promise { Promised (the_graph g.now) };
}

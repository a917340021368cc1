ghost use Rattle.std.specs.Prelude.{◌≡◌, ◌++◌, true, false, length, take, drop, codes, IfOk};
ghost use Rattle.loader.specs.Meaning.{the_graph};
ghost use Rattle.search.specs.Calls.{answer_or, left_or};
ghost use Rattle.search.specs.States.{moment, search_of};
ghost use Rattle.page.specs.Pages.{text_of, page_fault, LastWord};

use crate::page::Page;
use loader::graph::TaskGraph;
use nodes::table::Table;
use queue::open_list::OpenList;
use search::fault::PageFault;
use search::search::{Search, Settled};

// The page of either search by its own type: the last line that a reader sees is the word of the type, whatever memory
// the search is lent.

// Of a search that goes on: open.
pub fn open_page<L: OpenList>(
    search: &Search,
    g: &TaskGraph,
    table: &Table,
    list: &mut L,
    buffer: &mut [u8],
) -> Result<usize, PageFault>
    ensures is { let m = moment search.now table.now (L.bag list.old) (L.limit list.old) in
        result ≡ answer_or (length (text_of (the_graph g.now) false m))
        (page_fault (the_graph g.now) false m (length buffer.old)) }
    ensures buffer { let m = moment search.now table.now (L.bag list.old) (L.limit list.old) in
        buffer.new ≡ left_or (text_of (the_graph g.now) false m
        ++ drop (length (text_of (the_graph g.now) false m)) buffer.old) buffer.old
        (page_fault (the_graph g.now) false m (length buffer.old)) }
    ensures same { list.new ≡ list.old }
    ensures ending { IfOk result (λ n. LastWord (take n buffer.new) (codes "open")) }
{
    search.page(g, table, list, buffer)
}

// Of a settled search: shortest.
pub fn shortest_page<L: OpenList>(
    settled: &Settled,
    g: &TaskGraph,
    table: &Table,
    list: &mut L,
    buffer: &mut [u8],
) -> Result<usize, PageFault>
    ensures is { let m = moment (search_of settled.now) table.now (L.bag list.old) (L.limit list.old) in
        result ≡ answer_or (length (text_of (the_graph g.now) true m))
        (page_fault (the_graph g.now) true m (length buffer.old)) }
    ensures buffer { let m = moment (search_of settled.now) table.now (L.bag list.old) (L.limit list.old) in
        buffer.new ≡ left_or (text_of (the_graph g.now) true m
        ++ drop (length (text_of (the_graph g.now) true m)) buffer.old) buffer.old
        (page_fault (the_graph g.now) true m (length buffer.old)) }
    ensures same { list.new ≡ list.old }
    ensures ending { IfOk result (λ n. LastWord (take n buffer.new) (codes "shortest")) }
{
    settled.page(g, table, list, buffer)
}

use crate::advanced::{Advanced, Done};
use crate::answers::Answers;
use crate::blank::{ROW, first, table};
use crate::graphs::Draft;
use crate::told::{Told, refused, word};
use bounds::path_bound::PathBound;
use loader::graph::TaskGraph;
use nodes::table::Table;
use queue::entry::Entry;
use queue::entry_heap::EntryHeap;
use refusal::refusal::Refusal;
use search::search::Search;
use std::alloc::Global;

// Where a scene comes from: a search of this graph in a table of so many nodes, so many steps on.
#[derive(Drop)]
pub(crate) struct Origin(pub(crate) Draft, pub(crate) usize, pub(crate) u64);

// The scene that others change: the example's search in 11 nodes, two steps on. Of the 11 nodes, 0 holds the list
// schedule of length 9; 1 and 2, which are expanded, place nothing and task 0; 3 and 4 place task 1 too, on machine 0
// and 1, 5 and 6 task 2. These four wait, 3 and 5 with bound 7, 4 and 6 with bound 8; the entry of 5 comes first.
pub(crate) const TWO_STEPS: Origin = Origin(Draft::Example, 11, 2);

// A search with what is lent to it. Its rule is the path bound.
#[derive(Drop)]
pub(crate) struct Scene<'a> {
    pub(crate) graph: TaskGraph,
    pub(crate) search: Search,
    pub(crate) table: Table,
    pub(crate) list: EntryHeap<'a>,
}

impl Scene<'_> {
    // A search whose list has the first of these slots, one for each node.
    pub(crate) fn new<'a>(
        heap: Global,
        origin: &Origin,
        slots: &'a mut [Entry; 12],
    ) -> anyhow::Result<Scene<'a>> {
        let list = EntryHeap::start(first(slots, origin.1));
        match Scene::open(heap, origin, list)? {
            Ok(scene) => Ok(scene),
            Err(refusal) => Err(refused(refusal)),
        }
    }

    // A search with this list, or why it is refused.
    pub(crate) fn open<'a>(
        heap: Global,
        origin: &Origin,
        mut list: EntryHeap<'a>,
    ) -> anyhow::Result<Result<Scene<'a>, Refusal>> {
        let Origin(draft, nodes, steps) = origin;
        let graph = draft.graph()?;
        let mut table = table(heap, *nodes)?;
        match Search::open(&graph, &PathBound, &mut table, &mut list) {
            Ok(mut search) => {
                let _ = search.advance(&graph, &PathBound, &mut table, &mut list, *steps);
                Ok(Ok(Scene {
                    graph,
                    search,
                    table,
                    list,
                }))
            }
            Err(fault) => Ok(Err(Refusal::from(fault))),
        }
    }

    // How advance by so many steps ends, and what the search has then.
    pub(crate) fn advance(&mut self, steps: u64) -> Advanced {
        let Scene {
            graph,
            search,
            table,
            list,
        } = self;
        let mut rows = [ROW; 4];
        let outcome = word(search.advance(graph, &PathBound, table, list, steps));
        Advanced {
            steps,
            outcome,
            done: Done(search.tally()),
            floor: Told::number(search.floor(graph, table, list)),
            best: Told::number(search.best(graph, table, list, &mut rows)),
        }
    }

    // What floor, best, advance by one step, and settle answer.
    pub(crate) fn answers(self, name: &'static str) -> Answers {
        let Scene {
            graph,
            mut search,
            mut table,
            mut list,
        } = self;
        let mut rows = [ROW; 4];
        let floor = Told::number(search.floor(&graph, &table, &mut list));
        let best = Told::number(search.best(&graph, &table, &mut list, &mut rows));
        let outcome = word(search.advance(&graph, &PathBound, &mut table, &mut list, 1));
        let settled = match search.settle(&graph, &table, &mut list) {
            Ok(_) => Told::Word("settled"),
            Err((fault, _)) => Told::Refused(Refusal::from(fault)),
        };
        Answers {
            name,
            floor,
            best,
            outcome,
            settled,
        }
    }
}

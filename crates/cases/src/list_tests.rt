use crate::same::same;
use chain::cell::Cell;
use chain::entry_chain::EntryChain;
use queue::entry::Entry;
use queue::entry_heap::EntryHeap;
use queue::open_list::OpenList;

const ANY: Entry = Entry {
    bound: 18446744073709551615,
    node: 4,
};

const ANY_CELL: Cell = Cell {
    entry: ANY,
    next: 18446744073709551615,
};

// A request to an open list, and the answer that is wanted.
#[derive(Clone, Copy)]
enum Step {
    Put(Entry, bool),
    Look(Option<Entry>),
    Take(Option<Entry>),
    Count(usize),
    Capacity(usize),
}

const WITHOUT_MEMORY: &[Step] = &[
    Step::Capacity(0),
    Step::Put(ANY, false),
    Step::Count(0),
    Step::Look(None),
    Step::Take(None),
];

// A place that is given up is used again.
const ONE_AFTER_ANOTHER: &[Step] = &[
    Step::Put(Entry { bound: 9, node: 0 }, true),
    Step::Put(ANY, false),
    Step::Look(Some(Entry { bound: 9, node: 0 })),
    Step::Take(Some(Entry { bound: 9, node: 0 })),
    Step::Take(None),
    Step::Put(Entry { bound: 9, node: 1 }, true),
    Step::Put(ANY, false),
    Step::Look(Some(Entry { bound: 9, node: 1 })),
    Step::Take(Some(Entry { bound: 9, node: 1 })),
    Step::Take(None),
    Step::Put(Entry { bound: 9, node: 2 }, true),
    Step::Put(ANY, false),
    Step::Look(Some(Entry { bound: 9, node: 2 })),
    Step::Take(Some(Entry { bound: 9, node: 2 })),
    Step::Take(None),
];

// Among equal bounds the greatest node comes first.
const WITH_TIES: &[Step] = &[
    Step::Capacity(5),
    Step::Put(Entry { bound: 7, node: 1 }, true),
    Step::Put(Entry { bound: 3, node: 2 }, true),
    Step::Put(Entry { bound: 3, node: 9 }, true),
    Step::Put(Entry { bound: 3, node: 9 }, true),
    Step::Put(ANY, true),
    Step::Put(Entry { bound: 0, node: 0 }, false),
    Step::Count(5),
    Step::Take(Some(Entry { bound: 3, node: 9 })),
    Step::Take(Some(Entry { bound: 3, node: 9 })),
    Step::Look(Some(Entry { bound: 3, node: 2 })),
    Step::Count(3),
];

fn answers(list: &mut impl OpenList, step: Step) -> bool {
    match step {
        Step::Put(entry, wanted) => list.put(entry) == wanted,
        Step::Look(wanted) => list.look() == wanted,
        Step::Take(wanted) => list.take() == wanted,
        Step::Count(wanted) => list.count() == wanted,
        Step::Capacity(wanted) => list.capacity() == wanted,
    }
}

// How many steps come before the first that is not answered as it is wanted.
fn answered(list: &mut impl OpenList, steps: &[Step]) -> usize {
    for (i, step) in steps.iter().enumerate() {
        if !answers(list, *step) {
            return i;
        }
    }
    steps.len()
}

// How many places the lists have, and what is asked of them.
const SCRIPTS: &[(usize, &[Step])] = &[(0, WITHOUT_MEMORY), (1, ONE_AFTER_ANOTHER), (5, WITH_TIES)];

#[test]
fn both_lists_answer_alike(rt: HostRuntime) {
    for (places, steps) in SCRIPTS {
        let room = (*places).min(5);
        let mut slots = [ANY; 5];
        let mut cells = [ANY_CELL; 5];
        let told = [
            answered(&mut EntryHeap::start(&mut slots[..room]), steps),
            answered(&mut EntryChain::start(&mut cells[..room]), steps),
        ];
        same(&rt, &told, &[steps.len(); 2]);
    }
}

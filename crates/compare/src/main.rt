#![tactic(auto)]

// Tries all schedules of many small graphs and compares the shortest with what a search settles on, by each rule, on both
// open lists, in one call and step by step. Prints each graph in which something differs, and what was done.
use crate::counts::Counts;
use crate::course::Case;
use crate::difference::Difference;
use crate::every_start::shortest_of_all;
use crate::left_shifted::shortest_left_shifted;
use crate::memory::Memory;
use crate::picked::PICKED;
use crate::random::Random;
use crate::run_file::run_file;
use crate::shortest::Shortest;
use crate::sketch::{MOST, Sketch, TINY};
use crate::zero_bound::ZeroBound;
use bounds::arrival_bound::ArrivalBound;
use bounds::larger_of::LargerOf;
use bounds::load_bound::LoadBound;
use bounds::lower_bound::LowerBound;
use bounds::path_bound::PathBound;
use chain::entry_chain::EntryChain;
use children::complete::makespan;
use loader::graph::TaskGraph;
use loader::load::load;
use queue::entry_heap::EntryHeap;
use schedule::list::list_schedule;
use std::io;

mod counts;
mod course;
mod difference;
mod every_start;
mod left_shifted;
mod memory;
mod picked;
mod random;
mod rules;
mod run_file;
mod shortest;
mod sketch;
mod zero_bound;

// A budget that no search here spends.
const ENOUGH: u64 = 1_000_000;

// How many sketches are drawn for each number of tasks and machines.
const SAMPLES: usize = 250;

// The three rules joined.
const JOINED: LargerOf<LargerOf<PathBound, LoadBound>, ArrivalBound> = LargerOf {
    first: LargerOf {
        first: PathBound,
        second: LoadBound,
    },
    second: ArrivalBound,
};

// What is compared with: the memory of the searches, and what was done so far.
#[derive(Drop)]
struct Comparison {
    memory: Memory,
    counts: Counts,
}

impl Comparison {
    // The searches of a case by one rule: step by step and in one call, on both lists.
    fn compare_rule<B: LowerBound>(&mut self, case: &Case, rule: &B) -> Result<(), Difference> {
        let Memory {
            table,
            slots,
            cells,
        } = &mut self.memory;
        for budget in [1, ENOUGH] {
            let mut heap = EntryHeap::start(slots.as_mut_slice());
            self.counts
                .add_search(case.search(rule, table, &mut heap, budget)?);
            let mut chain = EntryChain::start(cells.as_mut_slice());
            self.counts
                .add_search(case.search(rule, table, &mut chain, budget)?);
        }
        Ok(())
    }

    // The searches of a case by each rule alone, by the rules joined, and by none.
    fn compare_case(&mut self, case: &Case) -> Result<(), Difference> {
        self.compare_rule(case, &PathBound)?;
        self.compare_rule(case, &LoadBound)?;
        self.compare_rule(case, &ArrivalBound)?;
        self.compare_rule(case, &JOINED)?;
        self.compare_rule(case, &ZeroBound)
    }

    // The shortest length of all schedules of a sketch. Of the tiniest ones every start is tried too: none is shorter.
    fn try_schedules(&mut self, sketch: &Sketch) -> Result<u64, Difference> {
        let left_shifted = shortest_left_shifted(sketch);
        let is_tiny = sketch.tasks <= TINY;
        let any_start = if is_tiny {
            shortest_of_all(sketch)
        } else {
            Shortest::NONE
        };
        self.counts.add_graph(left_shifted, any_start);
        if is_tiny && any_start.length != left_shifted.length {
            return Err(Difference::Shorter);
        }
        Ok(left_shifted.length)
    }

    // Tries all schedules of a sketch, reads its run file and compares all searches.
    fn compare_sketch(&mut self, sketch: &Sketch, file: &[u8]) -> Result<(), Difference> {
        let shortest = self.try_schedules(sketch)?;
        let mut graph = TaskGraph::new();
        load(&mut graph, file).or(Err(Difference::Refused))?;
        let listed = makespan(&graph, &list_schedule(&graph));
        self.counts.add_list_schedule(shortest < listed);
        self.compare_case(&Case {
            sketch: *sketch,
            graph,
            shortest,
        })
    }

    // Prints what differs in a sketch, if anything does, and behind how many graphs and searches.
    fn compare(&mut self, rt: &(impl Print + AllocGlobal), sketch: &Sketch) -> io::Result<()> {
        let file = run_file(rt.alloc(), sketch)?;
        if let Err(difference) = self.compare_sketch(sketch, file.as_slice()) {
            self.counts.add_difference();
            let Counts {
                graphs,
                searches,
                ..
            } = self.counts;
            println!(rt; "graph {graphs} after search {searches}: {difference:?}")?;
        }
        Ok(())
    }
}

fn main(rt: HostRuntime) -> io::Result<()> {
    let mut comparison = Comparison {
        memory: Memory::new(rt.alloc())?,
        counts: Counts::NONE,
    };
    for told in PICKED {
        comparison.compare(&rt, &picked::sketch(told))?;
    }
    let mut random = Random { state: 1 };
    for tasks in 1..=MOST {
        for machines in 1..=3 {
            for _ in 0..SAMPLES {
                comparison.compare(&rt, &random.sketch(tasks, machines))?;
            }
        }
    }
    comparison.counts.print(&rt)
}

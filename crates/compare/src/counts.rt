use crate::shortest::Shortest;
use astar::tally::Tally;
use std::io;

// What was done, and how many differences there were.
#[derive(Clone, Copy)]
pub(crate) struct Counts {
    pub(crate) graphs: u64,
    // Graphs whose list schedule is longer than the shortest schedule.
    longer: u64,
    left_shifted: u64,
    any_start: u64,
    pub(crate) searches: u64,
    // The sums over all searches.
    tally: Tally,
    differences: u64,
}

impl Counts {
    pub(crate) const NONE: Counts = Counts {
        graphs: 0,
        longer: 0,
        left_shifted: 0,
        any_start: 0,
        searches: 0,
        tally: Tally {
            expanded: 0,
            generated: 0,
            stored: 0,
            duplicates: 0,
            pruned: 0,
            complete: 0,
            waiting: 0,
        },
        differences: 0,
    };

    // A graph's schedules were tried: all that are left-shifted, and those with any start.
    pub(crate) fn add_graph(&mut self, left_shifted: Shortest, any_start: Shortest) {
        self.graphs = self.graphs.saturating_add(1);
        self.left_shifted = self.left_shifted.saturating_add(left_shifted.tried);
        self.any_start = self.any_start.saturating_add(any_start.tried);
    }

    // Whether the graph's list schedule is longer than the shortest.
    pub(crate) fn add_list_schedule(&mut self, is_longer: bool) {
        self.longer = self.longer.saturating_add(u64::from(is_longer));
    }

    // A search was settled, and this is what it had done.
    pub(crate) fn add_search(&mut self, done: Tally) {
        let sums = self.tally;
        self.searches = self.searches.saturating_add(1);
        self.tally = Tally {
            expanded: sums.expanded.saturating_add(done.expanded),
            generated: sums.generated.saturating_add(done.generated),
            stored: sums.stored.saturating_add(done.stored),
            duplicates: sums.duplicates.saturating_add(done.duplicates),
            pruned: sums.pruned.saturating_add(done.pruned),
            complete: sums.complete.saturating_add(done.complete),
            waiting: sums.waiting.saturating_add(done.waiting),
        };
    }

    // A difference was found.
    pub(crate) fn add_difference(&mut self) {
        self.differences = self.differences.saturating_add(1);
    }

    // Each number behind the words that tell what it counts.
    pub(crate) fn print(&self, rt: &impl Print) -> io::Result<()> {
        for (words, number) in [
            ("graphs ", self.graphs),
            (", list schedule longer in ", self.longer),
            ("\nschedules left-shifted ", self.left_shifted),
            (", with any start ", self.any_start),
            ("\nsearches ", self.searches),
            (", steps ", self.tally.expanded),
            (", children ", self.tally.generated),
            ("\nstored ", self.tally.stored),
            (", duplicates ", self.tally.duplicates),
            (", pruned ", self.tally.pruned),
            (", complete ", self.tally.complete),
            (", waiting ", self.tally.waiting),
            ("\ndifferences ", self.differences),
        ] {
            print!(rt; "{words}{number}")?;
        }
        println!(rt; "")
    }
}

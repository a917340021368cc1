use crate::closing::Closing;
use crate::sheet::{Field, Sheet};
use crate::short_buffer::ShortBuffer;
use crate::word::Word;
use astar::tally::Tally;
use loader::graph::TaskGraph;
use partial::placement::Placement;

// What stands past the last row.
const BLANK: Placement = Placement {
    machine: 0,
    start: 0,
};

// What a page tells of a search: the graph, the rows of a schedule for its tasks (a missing row counts as machine 0,
// start 0), its length, the floor, what the search has done, and how the page ends.
#[derive(Clone, Copy)]
pub(crate) struct Report<'a> {
    pub(crate) graph: &'a TaskGraph,
    pub(crate) rows: &'a [Placement],
    pub(crate) length: u64,
    pub(crate) floor: u64,
    pub(crate) tally: Tally,
    pub(crate) closing: Closing,
}

impl Report<'_> {
    ghost use Rattle.std.specs.Prelude.{◌≡◌, ◌≤◌, ◌↔◌, ◌++◌, length, drop, slice_index_or, IsOk, MatchResult};
    ghost use Rattle.schedule.specs.Rows.{blank};
    ghost use Rattle.page.specs.Texts.{head_fields, task_fields, length_fields, tally_fields, report_text};
    ghost use Rattle.page.specs.Reports.{page_of};

    // The row of task t, blank past the last one.
    fn row(&self, t: usize) -> Placement
        ensures { result ≡ slice_index_or self.now.rows.now t blank }
    {
        self.rows.get(t).copied().unwrap_or(BLANK)
    }

    // How many tasks and machines there are.
    fn head_fields(&self) -> [Field; 2]
        ensures { result ≡ head_fields (page_of self.now) }
    {
        [
            (Word::Tasks, self.graph.tasks() as u64),
            (Word::Machines, self.graph.machines() as u64),
        ]
    }

    // Where task t is placed.
    fn task_fields(&self, t: usize) -> [Field; 4]
        ensures { result ≡ task_fields (page_of self.now) t }
    {
        let Placement { machine, start } = self.row(t);
        let finish = u64::from(start) + u64::from(self.graph.work(t));
        [
            (Word::Task, t as u64),
            (Word::Machine, u64::from(machine)),
            (Word::Start, u64::from(start)),
            (Word::Finish, finish),
        ]
    }

    // The schedule's length and the floor.
    fn length_fields(&self) -> [Field; 2]
        ensures { result ≡ length_fields (page_of self.now) }
    {
        [(Word::Length, self.length), (Word::Floor, self.floor)]
    }

    // What the search has done.
    fn tally_fields(&self) -> [Field; 7]
        ensures { result ≡ tally_fields self.now.tally }
    {
        let tally = self.tally;
        [
            (Word::Taken, tally.expanded),
            (Word::Made, tally.generated),
            (Word::Put, tally.stored),
            (Word::Twins, tally.duplicates),
            (Word::Cut, tally.pruned),
            (Word::Complete, tally.complete),
            (Word::Waiting, tally.waiting),
        ]
    }

    // The whole page.
    #[tactic(auto, using(std::proofs::lemmas::Grind::common_steps), unfolding(crate::specs::Texts::report_text))]
    fn page(&self) -> Sheet
        ensures { result ≡ report_text (page_of self.now) }
    {
        let mut page = Sheet::new();
        page.line(&self.head_fields());
        for t in 0..self.graph.tasks() {
            page.line(&self.task_fields(t));
        }
        page.line(&self.length_fields());
        page.line(&self.tally_fields());
        page.word(self.closing.word());
        page.end_line();
        page
    }

    // Writes the page to the front of the buffer and answers its length; what lies behind it stays. A buffer that is
    // too short is left as it was; 4,400 bytes are always enough.
    pub(crate) fn write(&self, buffer: &mut [u8]) -> Result<usize, ShortBuffer>
        ensures fits { IsOk result ↔ (length (report_text (page_of self.now)) ≤ length buffer.old) }
        ensures is { MatchResult result
            (λ n. (n ≡ length (report_text (page_of self.now)))
            × (buffer.new ≡ report_text (page_of self.now) ++ drop n buffer.old))
            (λ _. buffer.new ≡ buffer.old) }
        ensures room { length (report_text (page_of self.now)) ≤ 4400 }
    {
        self.page().copy_to(buffer)
    }
}

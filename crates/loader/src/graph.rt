ghost use Rattle.std.specs.Prelude.{◌≡◌, ℕ, ◌<◌, slice_index};
ghost use Rattle.model.specs.Graph.{Lawful, level};
ghost use Rattle.loader.specs.View.{front_graph};

use crate::levels::bottom_levels;
use crate::sizes::Sizes;
use crate::transfer::Transfer;
use crate::transfer_list::TransferList;

// A task graph. Its law is part of its type: no value breaks it. The first `tasks` works and levels
// and the first `count` transfers are the graph's.
// It lies in fixed memory, so that loading cannot run out of it. It is copied whole, which a `TransferList`, seen as a
// list, is not.
#[derive(Clone, Copy)]
pub struct TaskGraph {
    tasks: usize,
    machines: usize,
    count: usize,
    works: [u16; 32],
    transfers: [Transfer; 128],
    levels: [u32; 32],
    ghost lawful: { Lawful (front_graph tasks machines works count transfers) },
    ghost bottom: { (t : ℕ) → t < tasks → slice_index levels t
        ≡ level (front_graph tasks machines works count transfers) t },
}

impl TaskGraph {
    ghost use Rattle.std.specs.Prelude.{length};
    ghost use Rattle.model.specs.Graph.{BottomLevel};
    ghost use Rattle.loader.specs.Meaning.{the_graph, works_of, transfers_of, levels_of, description, description_of, smallest};
    ghost use Rattle.loader.specs.Description.{described};

    // The smallest graph: one task of work 1, one machine, no transfers.
    pub fn new() -> TaskGraph
        ensures is { description result ≡ smallest }
        ensures words { let g = the_graph result in
            (g.tasks ≡ 1) × (g.work 0 ≡ 1) × (g.machines ≡ 1) × (g.count ≡ 0) }
    {
        TaskGraph {
            tasks: 1,
            machines: 1,
            count: 0,
            works: [1; 32],
            transfers: [Transfer::BLANK; 128],
            levels: [1; 32],
        }
    }

    // The graph of lawful parts, with its bottom levels.
    pub(crate) fn build(sizes: Sizes, works: [u16; 32], transfers: TransferList) -> TaskGraph
        requires { Lawful (described (description_of sizes works transfers)) }
        ensures { description result ≡ description_of sizes works transfers }
    {
        let Sizes { tasks, machines } = sizes;
        TaskGraph {
            tasks,
            machines,
            count: transfers.count,
            works,
            transfers: transfers.list,
            levels: bottom_levels(&works[..tasks], transfers.as_slice()),
        }
    }

    // How many tasks the graph has.
    pub fn tasks(&self) -> usize
        ensures is { result ≡ (the_graph self.now).tasks }
        ensures lawful { Lawful (the_graph self.now) }
    {
        self.tasks
    }

    // How many machines there are.
    pub fn machines(&self) -> usize
        ensures { result ≡ (the_graph self.now).machines }
    {
        self.machines
    }

    // The work of each task.
    pub fn works(&self) -> &[u16]
        ensures is { result.now ≡ works_of self.now }
        ensures len { length result.now ≡ (the_graph self.now).tasks }
    {
        &self.works[..self.tasks]
    }

    // The work of task t, 0 for a task that the graph lacks.
    pub fn work(&self, t: usize) -> u16
        ensures { result ≡ (the_graph self.now).work t }
    {
        self.works().get(t).copied().unwrap_or(0)
    }

    // The transfers, in the order in which they were given.
    pub fn transfers(&self) -> &[Transfer]
        ensures is { result.now ≡ transfers_of self.now }
        ensures len { length result.now ≡ (the_graph self.now).count }
    {
        &self.transfers[..self.count]
    }

    // The bottom level of each task: the greatest sum of work along a chain of transfers that begins
    // with it.
    pub fn bottom_levels(&self) -> &[u32]
        ensures is { result.now ≡ levels_of self.now }
        ensures len { length result.now ≡ (the_graph self.now).tasks }
        ensures each { (t : ℕ) → t < (the_graph self.now).tasks
            → slice_index result.now t ≡ level (the_graph self.now) t }
        ensures law { (t : ℕ) → t < (the_graph self.now).tasks
            → BottomLevel (the_graph self.now) t (slice_index result.now t) }
    {
        &self.levels[..self.tasks]
    }
}

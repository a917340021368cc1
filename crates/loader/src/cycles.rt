ghost use Rattle.std.specs.Prelude.{◌≡◌, ℕ, ◌<◌, ◌≤◌, ◌&&◌, ◌||◌, List, length, false, slice_index_or};
ghost use Rattle.model.specs.Range.{lowest};
ghost use Rattle.model.specs.Cycles.{reach};
ghost use Rattle.loader.specs.Tables.{each_task, entry, table_of};
ghost use Rattle.loader.specs.View.{leads, graph_of};

use crate::pairs::joined;
use crate::transfer::Transfer;
use std::array;

// Place `[a][b]` tells of tasks a and b.
type Table = [[bool; 32]; 32];

// The row of task `a`: where its own transfers lead.
fn direct_row(transfers: &[Transfer], a: usize) -> [bool; 32]
    ensures { result ≡ each_task (leads transfers.now a) }
{
    array::from_fn(|b| joined(transfers, a, b))
}

// The table of direct transfers. By `array::from_fn` its proof did not close: nothing is told of a closure that answers
// an array.
fn direct(transfers: &[Transfer]) -> Table
    ensures { result ≡ table_of (leads transfers.now) }
{
    let mut table = [[false; 32]; 32];
    for (a, row) in table.iter_mut().enumerate() {
        *row = direct_row(transfers, a);
    }
    table
}

// The row of a task with chains through `mid` too, whose row is `onward`.
fn row_through(row: &[bool; 32], mid: usize, onward: &[bool; 32]) -> [bool; 32]
    requires { mid < 32 }
    ensures { result ≡ each_task (λ b. slice_index_or row.now b false
        || (slice_index_or row.now mid false && slice_index_or onward.now b false)) }
{
    array::from_fn(|b| row[b] || (row[mid] && onward[b]))
}

// The table with chains through `mid` too. Row by row, for the same reason.
fn through(old: &Table, mid: usize) -> Table
    requires { mid < 32 }
    ensures { result ≡ table_of (λ a b.
        entry old.now a b || (entry old.now a mid && entry old.now mid b)) }
{
    let mut table = *old;
    for row in table.iter_mut() {
        *row = row_through(row, mid, &old[mid]);
    }
    table
}

// The table of all chains between tasks. Machines and works do not matter.
fn closed(tasks: usize, transfers: &[Transfer]) -> Table
    requires { tasks ≤ 32 }
    ensures { (p : ℕ) (ws : List ℕ) → result
        ≡ table_of (reach (graph_of tasks p ws (length transfers.now) transfers.now) tasks) }
{
    let mut table = direct(transfers);
    for mid in 0..tasks {
        table = through(&table, mid);
    }
    table
}

// The lowest task on a cycle, if there is one. Machines and works do not matter.
pub(crate) fn lowest_on_cycle(tasks: usize, transfers: &[Transfer]) -> Option<usize>
    requires { tasks ≤ 32 }
    ensures { (p : ℕ) (ws : List ℕ) → result ≡ lowest tasks
        (λ t. reach (graph_of tasks p ws (length transfers.now) transfers.now) tasks t t) }
{
    let table = closed(tasks, transfers);
    (0..tasks).find(|&t| table[t][t])
}

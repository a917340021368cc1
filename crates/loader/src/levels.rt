ghost use Rattle.std.specs.Prelude.{◌≡◌, ℕ, ◌+◌, ◌<◌, ◌≤◌, length, slice_index};
ghost use Rattle.std.specs.List.{All};
ghost use Rattle.loader.specs.declared.transfer.Transfer.{Transfer};
ghost use Rattle.model.specs.Graph.{Ends, level};
ghost use Rattle.loader.specs.View.{graph_of};
ghost use Rattle.loader.specs.Levels.{greatest_after};
ghost use Rattle.loader.specs.Tables.{each_task};

use crate::transfer::Transfer;
use std::array;

// The works of the tasks, and the transfers between them.
#[derive(Clone, Copy)]
struct Tasks<'a> {
    works: &'a [u16],
    transfers: &'a [Transfer],
    ghost few: { length works.now ≤ 32 },
    ghost inside: { All (λ (e : Transfer). e.to < 32) transfers.now },
    ghost small: { (t : ℕ) → t < length works.now → slice_index works.now t ≤ 1000 },
    ghost ends: { Ends
        (graph_of (length works.now) 0 works.now (length transfers.now) transfers.now) },
}

impl<'a> Tasks<'a> {
    // The greatest level after task `t`, or 0.
    fn greatest_after(&self, low: &[u32; 32], t: usize) -> u32
        ensures { result ≡ greatest_after self.now.transfers.now low.now t }
    {
        self.transfers
            .iter()
            .map(|e| {
                if usize::from(e.from) == t {
                    low[usize::from(e.to)]
                } else {
                    0
                }
            })
            .max()
            .unwrap_or(0)
    }

    // One round: each task's work with the greatest level after it. By `array::from_fn` its proof did not close: that
    // the sum fits stayed open inside the closure.
    fn raised(&self, low: &[u32; 32]) -> [u32; 32]
        requires { (t : ℕ) → t < length self.now.works.now → slice_index low.now t ≤ 64000 }
        ensures { (t : ℕ) → t < length self.now.works.now → slice_index result t
            ≡ slice_index self.now.works.now t + greatest_after self.now.transfers.now low.now t }
    {
        let mut next = [0; 32];
        for (t, work) in self.works.iter().enumerate() {
            next[t] = u32::from(*work) + self.greatest_after(low, t);
        }
        next
    }

    // The works, as levels of chains without transfers.
    fn widened(&self) -> [u32; 32]
        ensures { result ≡ each_task (slice_index self.now.works.now) }
    {
        array::from_fn(|t| self.works.get(t).map_or(0, |w| u32::from(*w)))
    }
}

// The bottom level of each task. Machines do not matter.
pub(crate) fn bottom_levels(works: &[u16], transfers: &[Transfer]) -> [u32; 32]
    requires sizes { length works.now ≤ 32 }
    requires small { (t : ℕ) → t < length works.now → slice_index works.now t ≤ 1000 }
    requires ends { Ends
        (graph_of (length works.now) 0 works.now (length transfers.now) transfers.now) }
    ensures { (p t : ℕ) → t < length works.now → slice_index result t
        ≡ level (graph_of (length works.now) p works.now (length transfers.now) transfers.now) t }
{
    let tasks = Tasks { works, transfers };
    let mut low = tasks.widened();
    for _round in 0..works.len() {
        low = tasks.raised(&low);
    }
    low
}

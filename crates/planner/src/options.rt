ghost use Rattle.std.specs.Prelude.{◌≤◌};

use crate::setting::Setting;

/// What a call of the program may set.
#[derive(Clone, Copy, PartialEq, Eq, Debug)]
pub struct Options {
    /// How many nodes the search has, and as many places in its open list: 2 to 1,048,576.
    pub nodes: usize,
    /// How many nodes it may expand.
    pub budget: u64,
    ghost two: { 2 ≤ nodes },
    ghost few: { nodes ≤ 1048576 },
}

impl Options {
    ghost use Rattle.std.specs.Prelude.{◌≡◌, ℕ, MatchOption};
    ghost use Rattle.planner.specs.Options.{settings, usual, set, Takes};

    /// Without options: 256 nodes, and a budget of 10,000.
    pub fn usual() -> Options
        ensures { settings result ≡ usual }
    {
        Options {
            nodes: 256,
            budget: 10_000,
        }
    }

    /// The same with one of them set to what the text says; `None` where it says no number that is allowed there.
    pub fn with(self, setting: Setting, text: &str) -> Option<Options>
        ensures { MatchOption result
            ((n : ℕ) → Takes setting text.now n → ⊥)
            (λ o. (n : ℕ) × Takes setting text.now n × (settings o ≡ set setting n (settings self))) }
    {
        match setting {
            Setting::Nodes => self.with_nodes(text.parse().ok()?),
            Setting::Budget => Some(Options {
                nodes: self.nodes,
                budget: text.parse().ok()?,
            }),
        }
    }

    // The same with this many nodes, where a search can have so many.
    fn with_nodes(self, nodes: usize) -> Option<Options>
        ensures { MatchOption result
            (2 ≤ nodes → nodes ≤ 1048576 → ⊥)
            (λ o. (2 ≤ nodes) × (nodes ≤ 1048576) × (settings o ≡ (nodes, self.budget))) }
    {
        if nodes < 2 || nodes > 1_048_576 {
            return None;
        }
        Some(Options {
            nodes,
            budget: self.budget,
        })
    }
}

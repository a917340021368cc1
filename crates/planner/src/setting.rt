ghost use Rattle.std.specs.Prelude.{◌≡◌, MatchOption};
ghost use Rattle.planner.specs.declared.setting.Setting.{Setting};
ghost use Rattle.planner.specs.Options.{name_of, range_of};

/// What an option sets.
#[derive(Clone, Copy, PartialEq, Eq, Debug)]
pub enum Setting {
    /// How many nodes the search has.
    Nodes,
    /// How many nodes it may expand.
    Budget,
}

impl Setting {
    /// The option that sets it, as it is written.
    pub fn name(self) -> &'static str
        ensures { result.now ≡ name_of self }
    {
        match self {
            Setting::Nodes => "--nodes",
            Setting::Budget => "--budget",
        }
    }

    /// The numbers that it takes, as text.
    pub fn range(self) -> &'static str
        ensures { result.now ≡ range_of self }
    {
        match self {
            Setting::Nodes => "2 to 1048576",
            Setting::Budget => "0 to 18446744073709551615",
        }
    }

    /// What the option that is written so sets; `None` for any other word.
    pub fn named(word: &str) -> Option<Setting>
        ensures { MatchOption result
            ((s : Setting) → word.now ≡ name_of s → ⊥)
            (λ s. word.now ≡ name_of s) }
    {
        match word {
            "--nodes" => Some(Setting::Nodes),
            "--budget" => Some(Setting::Budget),
            _ => None,
        }
    }
}

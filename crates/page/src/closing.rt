use crate::word::Word;

// How a page ends: the search goes on, or the schedule is proved to be shortest.
#[derive(Clone, Copy, PartialEq, Eq, Debug)]
pub(crate) enum Closing {
    Open,
    Shortest,
}

impl Closing {
    ghost use Rattle.std.specs.Prelude.{◌≡◌};
    ghost use Rattle.page.specs.Words.{closing_word};

    // The word that ends the page.
    pub(crate) fn word(self) -> Word
        ensures { result ≡ closing_word self }
    {
        match self {
            Closing::Open => Word::Open,
            Closing::Shortest => Word::Shortest,
        }
    }
}

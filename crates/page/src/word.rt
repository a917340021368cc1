// The words of a page.
#[derive(Clone, Copy, PartialEq, Eq, Debug)]
pub(crate) enum Word {
    Tasks,
    Machines,
    Task,
    Machine,
    Start,
    Finish,
    Length,
    Floor,
    Taken,
    Made,
    Put,
    Twins,
    Cut,
    Complete,
    Waiting,
    Open,
    Shortest,
}

// The bytes of each word, in the order of the words.
const WORDS: [&[u8]; 17] = [
    b"tasks",
    b"machines",
    b"task",
    b"machine",
    b"start",
    b"finish",
    b"length",
    b"floor",
    b"taken",
    b"made",
    b"put",
    b"twins",
    b"cut",
    b"complete",
    b"waiting",
    b"open",
    b"shortest",
];

impl Word {
    ghost use Rattle.std.specs.Prelude.{◌≡◌, ◌≤◌, length};
    ghost use Rattle.page.specs.Words.{word_text};

    // The bytes of the word.
    pub(crate) fn text(self) -> &'static [u8]
        ensures is { result.now ≡ word_text self }
        ensures short { length result.now ≤ 8 }
    {
        WORDS[self as usize]
    }
}

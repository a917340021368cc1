use Call::{Changed, Front, Words};
use std::alloc::{AllocError, Global};

// A call of the program.
pub enum Call {
    // With these words, on the example file.
    Words(&'static [&'static str]),
    // Without options, on the front of the example of this length; zeros follow its end.
    Front(usize),
    // Without options, on the example with the byte at a place replaced.
    Changed(usize, u8),
}

impl Call {
    pub fn words(&self, heap: Global) -> Result<Vec<String>, AllocError> {
        let words: &[&str] = match self {
            Words(words) => words,
            Front(_) | Changed(_, _) => &["planrun"],
        };
        let mut texts = Vec::new(heap);
        for word in words {
            texts.push(String::from_str(heap, word)?)?;
        }
        Ok(texts)
    }

    pub fn input(&self, heap: Global, example: &[u8]) -> Result<Vec<u8>, AllocError> {
        let mut input = Vec::from_slice(heap, example)?;
        match self {
            Words(_) => {}
            Front(length) => input.resize(*length, 0)?,
            Changed(place, byte) => {
                if let Some(old) = input.get_mut(*place) {
                    *old = *byte;
                }
            }
        }
        Ok(input)
    }
}

pub const CALLS: &[Call] = &[
    Words(&["planrun"]),
    Words(&["planrun", "--budget", "0"]),
    Words(&["planrun", "--nodes", "2"]),
    Words(&["planrun", "--help", "--frob"]),
    Words(&["planrun", "--frob"]),
    Words(&["./plan", ""]),
    Words(&["planrun", "--budget", "5", "--nodes"]),
    Words(&["planrun", "--nodes", "1"]),
    Words(&["./plan", "--budget", "x"]),
    // 1 at 0, at 8 and, where the end is missing, at 72.
    Front(0),
    Front(10),
    Front(72),
    // 2 at 0, at a task, and behind the tasks.
    Changed(2, 9),
    Changed(10, 5),
    Changed(34, 2),
    // 3 at 0, and at a task.
    Changed(0, 5),
    Changed(26, 4),
    // 4 at 0, at a task, and at a transfer.
    Changed(4, 33),
    Changed(18, 0),
    Changed(38, 0),
    // 6, 7 and 8.
    Changed(48, 1),
    Front(77),
    Changed(58, 0),
];

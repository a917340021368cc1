ghost use Rattle.std.specs.Prelude.{◌≡◌, true, MatchResult, map, string_bytes};
ghost use Rattle.std.specs.Io.KnownBytes.{Appends};
ghost use Rattle.std.specs.Process.{exit_status};
ghost use Rattle.planner.specs.declared.answer.Answer.{Answer};
ghost use Rattle.planner.specs.Answers.{Answers, Unread};
ghost use Rattle.planner.specs.Running.{Delivered};
ghost use Rattle.planner.specs.Texts.{no_words};

use crate::answer::Answer;
use crate::request::word;
use std::alloc::{AllocError, Global};
use std::io::{Read, Write};
use std::process::ExitCode;

/// How a call of the program ended.
#[derive(Clone, Copy, PartialEq, Eq, Debug)]
pub struct Ended {
    /// The status that the process ends with.
    pub status: u8,
    /// Whether the output took all that was to be written to it.
    pub written: bool,
    /// Whether the error stream took all that was to be written to it.
    pub told: bool,
}

impl Ended {
    /// The status, as `main` answers it.
    pub fn code(self) -> ExitCode
        ensures { exit_status result ≡ self.status }
    {
        ExitCode::from(self.status)
    }
}

/// The whole program: answers the words of a call, with a run file on the input. The page, the refusal or the help goes
/// to the output, and what there is to say beside it to the error stream. The words may be missing for want of memory.
pub fn run<R: Read, W: Write, E: Write>(
    heap: Global,
    words: Result<Vec<String>, AllocError>,
    input: &mut R,
    output: &mut W,
    errors: &mut E,
) -> Ended
    ensures { MatchResult words
        (λ v. let ws = map string_bytes v.items in (a : Answer) × Answers ws (R.remaining input.old) a
        × Unread a (input.new ≡ input.old) × Delivered ws a (W.contents output.old) (W.contents output.new)
        (E.contents errors.old) (E.contents errors.new) result)
        (λ _. (input.new ≡ input.old) × (output.new ≡ output.old) × (result.status ≡ 1)
        × (result.told ≡ true → Appends (E.contents errors.old) (E.contents errors.new) no_words)) }
{
    match words {
        Ok(words) => deliver(
            &Answer::of(heap, words.as_slice(), input),
            words.as_slice(),
            output,
            errors,
        ),
        Err(_) => Ended {
            status: 1,
            written: true,
            told: errors
                .write_all(b"memory: there is not enough for the words of the call\n")
                .is_ok(),
        },
    }
}

// Writes an answer. An output that fails is told in place of what there was to say.
fn deliver<W: Write, E: Write>(
    answer: &Answer,
    words: &[String],
    output: &mut W,
    errors: &mut E,
) -> Ended
    ensures { Delivered (map string_bytes words.now) answer.now (W.contents output.old)
        (W.contents output.new) (E.contents errors.old) (E.contents errors.new) result }
{
    match answer.write(output, word(words, 0)) {
        Ok(()) => Ended {
            status: answer.status(),
            written: true,
            told: answer.tell(errors, words).is_ok(),
        },
        Err(_) => Ended {
            status: 1,
            written: false,
            told: errors
                .write_all(b"output: standard output could not be written\n")
                .is_ok(),
        },
    }
}

ghost use Rattle.std.specs.Prelude.{◌≡◌, OnOk, map, string_bytes};
ghost use Rattle.std.specs.Io.KnownBytes.{Appends};
ghost use Rattle.planner.specs.Answers.{Searched, Answers, Unread, output_of, message_of, status_of};

use crate::explanation::write_explanation;
use crate::input::read_front;
use crate::messages::{write_bad_call, write_help, write_limit, write_no_memory};
use crate::options::Options;
use crate::plan::{Plan, plan_file};
use crate::plan_fault::PlanFault;
use crate::request::{CallFault, Request};
use refusal::refusal::Refusal;
use std::alloc::Global;
use std::io;
use std::io::{ErrorKind, Read, Write};

/// What a call of the program comes to, before it is written.
#[derive(Drop)]
pub enum Answer {
    /// The plan of the run file, by these options.
    Page(Plan, Options),
    /// The run file is refused; and the front of it that was read.
    Refused(Refusal, Vec<u8>),
    /// The help.
    Help,
    /// A word of the call is at fault.
    BadCall(CallFault),
    /// There is no memory for a search with so many nodes.
    NoMemory(usize),
    /// The input could not be read.
    Unreadable,
}

impl Answer {
    /// The answer to the words of a call, with a run file on the input. Of the input no more is read than the answer
    /// can depend on, and nothing where no search is asked for.
    pub fn of<R: Read>(heap: Global, words: &[String], input: &mut R) -> Answer
        ensures answers { Answers (map string_bytes words.now) (R.remaining input.old) result }
        ensures unread { Unread result (input.new ≡ input.old) }
    {
        match Request::of(words) {
            Request::Search(options) => searched(heap, options, input),
            Request::Help => Answer::Help,
            Request::Bad(fault) => Answer::BadCall(fault),
        }
    }

    /// Writes to the output: the page, the refusal as a line, the help; and else nothing.
    pub fn write<W: Write>(&self, output: &mut W, name: &str) -> io::Result<()>
        ensures { OnOk result (Appends (W.contents output.old) (W.contents output.new)
            (output_of name.now self.now)) }
    {
        match self {
            Answer::Page(plan, _) => output.write_all(plan.page.as_slice()),
            Answer::Refused(refusal, _) => write!(output, "{refusal}\n"),
            Answer::Help => write_help(output, name),
            Answer::BadCall(_) | Answer::NoMemory(_) | Answer::Unreadable => output.write_all(b""),
        }
    }

    /// Writes to the error stream: why a search is not settled, why a file is refused, which word of the call is at
    /// fault, or what is wanting; nothing beside the page of a settled search, and beside the help.
    pub fn tell<W: Write>(&self, errors: &mut W, words: &[String]) -> io::Result<()>
        ensures { OnOk result (Appends (W.contents errors.old) (W.contents errors.new)
            (message_of (map string_bytes words.now) self.now)) }
    {
        match self {
            Answer::Page(plan, options) => write_limit(errors, *options, plan.limit),
            Answer::Refused(refusal, front) => {
                write_explanation(errors, front.as_slice(), *refusal)
            }
            Answer::Help => errors.write_all(b""),
            Answer::BadCall(fault) => write_bad_call(errors, words, *fault),
            Answer::NoMemory(nodes) => write_no_memory(errors, *nodes),
            Answer::Unreadable => errors.write_all(b"input: standard input could not be read\n"),
        }
    }

    /// The status that the process ends with: 0 after a page and the help, else 1.
    pub fn status(&self) -> u8
        ensures { result ≡ status_of self.now }
    {
        match self {
            Answer::Page(_, _) | Answer::Help => 0,
            Answer::Refused(_, _) | Answer::BadCall(_) | Answer::NoMemory(_) | Answer::Unreadable =>
                1,
        }
    }
}

// What a search of the run file on the input comes to.
fn searched<R: Read>(heap: Global, options: Options, input: &mut R) -> Answer
    ensures { Searched options (R.remaining input.old) result }
{
    let front = match read_front(heap, input) {
        Ok(front) => front,
        Err(error) if error.kind() == ErrorKind::OutOfMemory => {
            return Answer::NoMemory(options.nodes);
        }
        Err(_) => return Answer::Unreadable,
    };
    match plan_file(heap, front.as_slice(), options) {
        Ok(plan) => Answer::Page(plan, options),
        Err(PlanFault::Refused(refusal)) => Answer::Refused(refusal, front),
        Err(PlanFault::Memory(_)) => Answer::NoMemory(options.nodes),
    }
}

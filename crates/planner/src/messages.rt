ghost use Rattle.std.specs.Prelude.{◌≡◌, OnOk, map, string_bytes};
ghost use Rattle.std.specs.Io.KnownBytes.{Appends};
ghost use Rattle.planner.specs.Texts.{by_script, usage_of, example_of, help_of, no_option, no_value, bad_value, bad_call, limit_text, no_memory};

use crate::limit::Limit;
use crate::options::Options;
use crate::request::{CallFault, word};
use crate::setting::Setting;
use std::io;
use std::io::Write;

// Whether the script `plan` calls, which has the file among its words.
fn is_script(name: &str) -> bool
    ensures { result ≡ by_script name.now }
{
    name.as_bytes().ends_with(b"plan")
}

// How the program is called.
fn usage(name: &str) -> &'static str
    ensures { result.now ≡ usage_of name.now }
{
    if is_script(name) {
        "./plan FILE [--nodes N] [--budget K]"
    } else {
        "planrun [--nodes N] [--budget K] < FILE"
    }
}

// An example of a call.
fn example(name: &str) -> &'static str
    ensures { result.now ≡ example_of name.now }
{
    if is_script(name) {
        "./plan FILE --nodes 65536 --budget 65536"
    } else {
        "planrun --nodes 65536 --budget 65536 < FILE"
    }
}

/// Writes what the program does and how it is called, by the name that it was called by.
pub fn write_help<W: Write>(output: &mut W, name: &str) -> io::Result<()>
    ensures { OnOk result
        (Appends (W.contents output.old) (W.contents output.new) (help_of name.now)) }
{
    let usage = usage(name);
    let example = example(name);
    write!(
        output,
        "Decides which machine does which task, and when: searches for the shortest schedule of a run file.\n\n\
         usage: {usage}\n\n\
         \x20 --nodes N    how many nodes the search has: 2 to 1048576, without it 256\n\
         \x20 --budget K   how many nodes it may expand: 0 to 18446744073709551615, without it 10000\n\
         \x20 --help       prints this\n\n\
         Of the same option the last counts; a plus and zeros may lead a number.\n\
         The program prints the best schedule, its length, and a floor that no schedule can go below. The last line is\n\
         shortest where no schedule is shorter, and else open; then the error stream tells why.\n\
         The status is 0 after a page and this help, and else 1: where the file is refused, a word of the call is at fault,\n\
         there is not enough memory, or standard input or output fails.\n\n\
         example: {example}\n"
    )
}

/// Writes which word of a call is at fault, what is allowed there, and how the program is called.
pub fn write_bad_call<W: Write>(
    errors: &mut W,
    words: &[String],
    fault: CallFault,
) -> io::Result<()>
    ensures { OnOk result (Appends (W.contents errors.old) (W.contents errors.new)
        (bad_call (map string_bytes words.now) fault)) }
{
    let name = word(words, 0);
    match fault {
        CallFault::NoOption(place) => write_no_option(errors, name, word(words, place)),
        CallFault::NoValue(setting) => write_no_value(errors, name, setting),
        CallFault::BadValue(setting, place) => {
            write_bad_value(errors, name, setting, word(words, place))
        }
    }
}

fn write_no_option<W: Write>(errors: &mut W, name: &str, word: &str) -> io::Result<()>
    ensures { OnOk result (Appends (W.contents errors.old) (W.contents errors.new)
        (no_option name.now word.now)) }
{
    let usage = usage(name);
    write!(
        errors,
        "call: '{word}' is no option: --nodes, --budget and --help are\nusage: {usage}\n"
    )
}

fn write_no_value<W: Write>(errors: &mut W, name: &str, setting: Setting) -> io::Result<()>
    ensures { OnOk result (Appends (W.contents errors.old) (W.contents errors.new)
        (no_value name.now setting)) }
{
    let option = setting.name();
    let range = setting.range();
    let usage = usage(name);
    write!(
        errors,
        "call: {option} has no value: a whole number from {range} is wanted\nusage: {usage}\n"
    )
}

fn write_bad_value<W: Write>(
    errors: &mut W,
    name: &str,
    setting: Setting,
    value: &str,
) -> io::Result<()>
    ensures { OnOk result (Appends (W.contents errors.old) (W.contents errors.new)
        (bad_value name.now setting value.now)) }
{
    let option = setting.name();
    let range = setting.range();
    let usage = usage(name);
    write!(
        errors,
        "call: {option} '{value}' is not a whole number from {range}\nusage: {usage}\n"
    )
}

/// Writes what ended a search that is not settled, and what to raise; nothing of a settled one.
pub fn write_limit<W: Write>(
    errors: &mut W,
    options: Options,
    limit: Option<Limit>,
) -> io::Result<()>
    ensures { OnOk result
        (Appends (W.contents errors.old) (W.contents errors.new) (limit_text options limit)) }
{
    let Options { nodes, budget } = options;
    match limit {
        None => errors.write_all(b""),
        Some(Limit::Budget) => write!(
            errors,
            "open: the budget of {budget} is spent; raise --budget\n"
        ),
        Some(Limit::Nodes) if nodes == 1_048_576 => {
            errors.write_all(b"open: 1048576 nodes do not suffice, and there can be no more\n")
        }
        Some(Limit::Nodes) => write!(
            errors,
            "open: the {nodes} nodes do not suffice; raise --nodes\n"
        ),
    }
}

/// Writes that there is no memory for a search with so many nodes.
pub fn write_no_memory<W: Write>(errors: &mut W, nodes: usize) -> io::Result<()>
    ensures { OnOk result
        (Appends (W.contents errors.old) (W.contents errors.new) (no_memory nodes)) }
{
    write!(
        errors,
        "memory: there is not enough for {nodes} nodes; lower --nodes\n"
    )
}

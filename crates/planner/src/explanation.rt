ghost use Rattle.std.specs.Prelude.{◌≡◌, ◌+◌, ◌<◌, ◌≤◌, length, slice_index, OnOk};
ghost use Rattle.std.specs.Io.KnownBytes.{Appends};
ghost use Rattle.loader.specs.Bytes.{word_at};
ghost use Rattle.planner.specs.Explaining.{is_task, task_of, no_run_file, kind_text, length_due, length_text, sizes_text, work_text, ends_text, range_text, twice_text, cycle_text, told, explained};

use refusal::refusal::Refusal;
use std::io;
use std::io::Write;

/// Writes the refusal of a file in words: which record, which number, and what is allowed there. Nothing, where its
/// place lies past the end of the bytes.
pub fn write_explanation<W: Write>(errors: &mut W, bytes: &[u8], refusal: Refusal) -> io::Result<()>
    ensures { OnOk result
        (Appends (W.contents errors.old) (W.contents errors.new) (explained bytes.now refusal)) }
{
    let Refusal { number, place, .. } = refusal;
    if place > bytes.len() {
        return errors.write_all(b"");
    }
    write_told(errors, bytes, number, place)
}

// By the number of the refusal.
fn write_told<W: Write>(errors: &mut W, bytes: &[u8], number: u8, place: usize) -> io::Result<()>
    requires { place ≤ length bytes.now }
    ensures { OnOk result
        (Appends (W.contents errors.old) (W.contents errors.new) (told bytes.now number place)) }
{
    if place == 0 && number <= 3 {
        return errors.write_all(
            b"file: this does not look like a run file, which begins with a record of kind 1 and 8 bytes\n",
        );
    }
    match number {
        1 => write!(
            errors,
            "file: it ends before the record at byte {place} is complete\n"
        ),
        2 => write_kind(errors, bytes, place),
        3 => write_length(errors, bytes, place),
        4 => write_range(errors, bytes, place),
        5 => write!(
            errors,
            "file: the record at byte {place} is a transfer too many: 128 are allowed\n"
        ),
        6 => write_twice(errors, bytes, place),
        7 => write!(
            errors,
            "file: bytes follow the last record, from byte {place} on\n"
        ),
        8 => write_cycle(errors, place),
        _ => errors.write_all(b""),
    }
}

// Which task lies on a cycle.
fn write_cycle<W: Write>(errors: &mut W, place: usize) -> io::Result<()>
    ensures { OnOk result
        (Appends (W.contents errors.old) (W.contents errors.new) (cycle_text place)) }
{
    let task = task_at(place);
    write!(
        errors,
        "file: the transfers lead from task {task} back to itself\n"
    )
}

// Which kind the record is of, and which are due.
fn write_kind<W: Write>(errors: &mut W, bytes: &[u8], place: usize) -> io::Result<()>
    requires { place ≤ length bytes.now }
    ensures { OnOk result
        (Appends (W.contents errors.old) (W.contents errors.new) (kind_text bytes.now place)) }
{
    let kind = number(bytes, place + 2);
    if is_task(bytes, place) {
        return write!(
            errors,
            "file: the record at byte {place} is of kind {kind}, where a task (kind 2) is due\n"
        );
    }
    write!(
        errors,
        "file: the record at byte {place} is of kind {kind}, where a transfer (kind 3) or the end (kind 4) is due\n"
    )
}

// How long the payload is, and which lengths are due.
fn write_length<W: Write>(errors: &mut W, bytes: &[u8], place: usize) -> io::Result<()>
    requires { place ≤ length bytes.now }
    ensures { OnOk result
        (Appends (W.contents errors.old) (W.contents errors.new) (length_text bytes.now place)) }
{
    let kind = number(bytes, place + 2);
    let length = number(bytes, place);
    let due = length_due(kind);
    write!(
        errors,
        "file: the record at byte {place} is of kind {kind} with a payload of {length} bytes, where {due} are due\n"
    )
}

// How long the payload of a record of this kind is.
fn length_due(kind: u64) -> u64
    ensures { result ≡ length_due kind }
{
    match kind {
        2 => 2,
        3 => 6,
        _ => 0,
    }
}

// Which numbers the record has, and which are allowed.
fn write_range<W: Write>(errors: &mut W, bytes: &[u8], place: usize) -> io::Result<()>
    requires { place ≤ length bytes.now }
    ensures { OnOk result
        (Appends (W.contents errors.old) (W.contents errors.new) (range_text bytes.now place)) }
{
    if place == 0 {
        return write_sizes(errors, bytes);
    }
    if is_task(bytes, place) {
        return write_work(errors, bytes, place);
    }
    write_ends(errors, bytes, place)
}

fn write_sizes<W: Write>(errors: &mut W, bytes: &[u8]) -> io::Result<()>
    ensures { OnOk result
        (Appends (W.contents errors.old) (W.contents errors.new) (sizes_text bytes.now)) }
{
    let tasks = number(bytes, 4);
    let machines = number(bytes, 6);
    write!(
        errors,
        "file: there are {tasks} tasks and {machines} machines, where 1 to 32 tasks and 1 to 8 machines are allowed\n"
    )
}

fn write_work<W: Write>(errors: &mut W, bytes: &[u8], place: usize) -> io::Result<()>
    requires { place ≤ length bytes.now }
    ensures { OnOk result
        (Appends (W.contents errors.old) (W.contents errors.new) (work_text bytes.now place)) }
{
    let task = task_at(place);
    let work = number(bytes, place + 4);
    write!(
        errors,
        "file: the record at byte {place} gives task {task} the work {work}, where 1 to 1000 is allowed\n"
    )
}

fn write_ends<W: Write>(errors: &mut W, bytes: &[u8], place: usize) -> io::Result<()>
    requires { place ≤ length bytes.now }
    ensures { OnOk result
        (Appends (W.contents errors.old) (W.contents errors.new) (ends_text bytes.now place)) }
{
    let from = number(bytes, place + 4);
    let to = number(bytes, place + 6);
    let cost = number(bytes, place + 8);
    let tasks = number(bytes, 4);
    write!(
        errors,
        "file: the record at byte {place} is a transfer from task {from} to task {to} of cost {cost}, \
         where two different tasks below {tasks} and a cost of 0 to 1000 are allowed\n"
    )
}

// Which pair of tasks came before.
fn write_twice<W: Write>(errors: &mut W, bytes: &[u8], place: usize) -> io::Result<()>
    requires { place ≤ length bytes.now }
    ensures { OnOk result
        (Appends (W.contents errors.old) (W.contents errors.new) (twice_text bytes.now place)) }
{
    let from = number(bytes, place + 4);
    let to = number(bytes, place + 6);
    write!(
        errors,
        "file: the record at byte {place} is a second transfer from task {from} to task {to}\n"
    )
}

// The record at a place belongs to a task.
fn is_task(bytes: &[u8], place: usize) -> bool
    ensures { result ≡ is_task bytes.now place }
{
    (place as u64) < 8 + 6 * number(bytes, 4)
}

// The task whose record is at a place.
fn task_at(place: usize) -> usize
    ensures { result ≡ task_of place }
{
    place.saturating_sub(8) / 6
}

// The number in the two bytes at a place; bytes that are missing count 0.
fn number(bytes: &[u8], place: usize) -> u64
    requires { place ≤ 8 + length bytes.now }
    ensures value { result ≡ word_at bytes.now place }
    ensures small { result < 65536 }
{
    byte(bytes, place) + 256 * byte(bytes, place + 1)
}

// The byte at a place, or 0 behind the last.
fn byte(bytes: &[u8], place: usize) -> u64
    ensures value { result ≡ slice_index bytes.now place }
    ensures small { result < 256 }
{
    match bytes.get(place) {
        Some(byte) => u64::from(*byte),
        None => 0,
    }
}

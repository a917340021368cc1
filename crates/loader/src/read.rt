ghost use Rattle.std.specs.Prelude.{◌≡◌, ◌+◌, ◌≤◌, length, take, Ok, Err, IfOk, MatchResult, MatchOption};
ghost use Rattle.loader.specs.Layout.{place_of};
ghost use Rattle.loader.specs.Parse.{header_at, work_at, read_works, transfer_at, next_at, read_transfers, end_at};
ghost use Rattle.loader.specs.Chaining.{unless_refused};

use crate::faults::{GraphFault, RecordsFault};
use crate::pairs::joined;
use crate::records::{RecordKind, Records};
use crate::sizes::Sizes;
use crate::transfer::Transfer;
use crate::transfer_list::TransferList;

// The numbers of tasks and machines that the first record of a file gives, and the records after it.
pub(crate) fn read_header(bytes: &[u8]) -> Result<(Sizes, Records<'_>), GraphFault>
    ensures is { MatchResult result
        (λ r. header_at bytes.now ≡ Ok (r.0.tasks, r.0.machines))
        (λ e. header_at bytes.now ≡ Err e) }
    ensures bytes { IfOk result (λ r. r.1.bytes.now ≡ bytes.now) }
    ensures at { IfOk result (λ r. r.1.at ≡ 8) }
{
    let mut records = Records::new(bytes);
    let body = records.due(RecordKind::Head)?;
    let tasks = records.number(body);
    let machines = records.number(body + 2);
    if tasks < 1 || tasks > 32 || machines < 1 || machines > 8 {
        return Err(GraphFault::Range(0));
    }
    records.pass(RecordKind::Head);
    let sizes = Sizes {
        tasks: usize::from(tasks),
        machines: usize::from(machines),
    };
    Ok((sizes, records))
}

// The work that the record of a task gives.
fn read_work(records: &mut Records) -> Result<u16, GraphFault>
    ensures is { result ≡ work_at records.old.bytes.now records.old.at }
    ensures bytes { records.new.bytes.now ≡ records.old.bytes.now }
    ensures at { records.new.at ≡ unless_refused result (records.old.at + 6) records.old.at }
{
    let body = records.due(RecordKind::Task)?;
    let work = records.number(body);
    if work < 1 || work > 1000 {
        return Err(GraphFault::Range(records.at));
    }
    records.pass(RecordKind::Task);
    Ok(work)
}

// The works of all tasks, in fixed memory, as the graph keeps them.
pub(crate) fn read_works(records: &mut Records, sizes: Sizes) -> Result<[u16; 32], GraphFault>
    requires { records.old.at ≡ 8 }
    ensures is { MatchResult result
        (λ v. read_works records.old.bytes.now sizes.tasks ≡ Ok (take sizes.tasks v))
        (λ e. read_works records.old.bytes.now sizes.tasks ≡ Err e) }
    ensures bytes { records.new.bytes.now ≡ records.old.bytes.now }
    ensures at { IfOk result (λ _. records.new.at ≡ place_of sizes.tasks 0) }
{
    let mut works = [0; 32];
    for work in works[..sizes.tasks].iter_mut() {
        *work = read_work(records)?;
    }
    Ok(works)
}

// The transfer that the first record gives, after those before it.
fn read_transfer(
    records: &Records,
    sizes: Sizes,
    before: &[Transfer],
) -> Result<Transfer, GraphFault>
    requires { records.now.at + 10 ≤ length records.now.bytes.now }
    ensures { result ≡ transfer_at records.now.bytes.now sizes.tasks before.now records.now.at }
{
    let at = records.at;
    let from = records.number(at + 4);
    let to = records.number(at + 6);
    let cost = records.number(at + 8);
    let (a, b) = (usize::from(from), usize::from(to));
    if a >= sizes.tasks || b >= sizes.tasks || cost > 1000 || a == b {
        return Err(GraphFault::Range(at));
    }
    if before.len() >= 128 {
        return Err(GraphFault::TooMany(at));
    }
    if joined(before, a, b) {
        return Err(GraphFault::Twice(at));
    }
    Ok(Transfer { from, to, cost })
}

// The next transfer, or none at the last record. The cursor moves and the sizes stay: as one value they would be no
// plainer.
fn read_next(
    records: &mut Records,
    sizes: Sizes,
    before: &[Transfer],
) -> Result<Option<Transfer>, GraphFault>
    ensures is { result ≡ next_at records.old.bytes.now sizes.tasks before.now records.old.at }
    ensures bytes { records.new.bytes.now ≡ records.old.bytes.now }
    ensures at { MatchResult result (λ r. MatchOption r (records.new.at ≡ records.old.at + 4)
        (λ _. records.new.at ≡ records.old.at + 10))
        (λ _. records.new.at ≡ records.old.at) }
{
    if !records.more()? {
        records.pass(RecordKind::End);
        return Ok(None);
    }
    let transfer = read_transfer(records, sizes, before)?;
    records.pass(RecordKind::Transfer);
    Ok(Some(transfer))
}

// The transfers that follow the tasks.
pub(crate) fn read_transfers(
    records: &mut Records,
    sizes: Sizes,
) -> Result<TransferList, GraphFault>
    requires { records.old.at ≡ place_of sizes.tasks 0 }
    ensures is { result ≡ read_transfers records.old.bytes.now sizes.tasks }
    ensures bytes { records.new.bytes.now ≡ records.old.bytes.now }
    ensures at { IfOk result (λ ts. records.new.at ≡ place_of sizes.tasks (length ts) + 4) }
{
    let mut transfers = TransferList::new();
    while let Some(transfer) = read_next(records, sizes, transfers.as_slice())? {
        transfers.push(transfer);
    }
    Ok(transfers)
}

// Refuses bytes that follow the last record.
pub(crate) fn read_end(records: &Records) -> Result<(), GraphFault>
    ensures { result ≡ end_at records.now.bytes.now records.now.at }
{
    if records.bytes.len() > records.at {
        return Err(GraphFault::Records(RecordsFault::Tail(records.at)));
    }
    Ok(())
}

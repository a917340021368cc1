ghost use Rattle.std.specs.Prelude.{◌≡◌, IfErr, Ok, Err, MatchResult, OnOk};
ghost use Rattle.model.specs.Graph.{Lawful};
ghost use Rattle.refusal.specs.declared.refusal.Refusal.{Refusal};
ghost use Rattle.loader.specs.Description.{Description, described};
ghost use Rattle.loader.specs.Meaning.{description, description_of, the_graph};
ghost use Rattle.loader.specs.Parse.{parse, decode, cycle_test};
ghost use Rattle.loader.specs.Encoding.{Encodes};
ghost use Rattle.loader.specs.Refusals.{refusal_of};
ghost use Rattle.loader.specs.Refused.{Refused};

use crate::cycles::lowest_on_cycle;
use crate::faults::GraphFault;
use crate::graph::TaskGraph;
use crate::read::{read_end, read_header, read_transfers, read_works};
use crate::sizes::Sizes;
use crate::transfer::Transfer;
use crate::transfer_list::TransferList;

// Refuses a cycle; the place is the record of the lowest task on one.
fn refuse_cycle(sizes: Sizes, transfers: &[Transfer]) -> Result<(), GraphFault>
    ensures { (d : Description) → d.tasks ≡ sizes.tasks → d.transfers ≡ transfers.now
        → MatchResult result (λ _. cycle_test d ≡ Ok d) (λ e. cycle_test d ≡ Err e) }
{
    match lowest_on_cycle(sizes.tasks, transfers) {
        Some(t) => Err(GraphFault::Cycle(8 + 6 * t)),
        None => Ok(()),
    }
}

// What the records tell, each by itself and after those before it.
fn decode(bytes: &[u8]) -> Result<(Sizes, [u16; 32], TransferList), GraphFault>
    ensures { MatchResult result (λ d. decode bytes.now ≡ Ok (description_of d.0 d.1 d.2))
        (λ e. decode bytes.now ≡ Err e) }
{
    let (sizes, mut records) = read_header(bytes)?;
    let works = read_works(&mut records, sizes)?;
    let transfers = read_transfers(&mut records, sizes)?;
    read_end(&records)?;
    Ok((sizes, works, transfers))
}

// The graph that the file describes.
fn read(bytes: &[u8]) -> Result<TaskGraph, GraphFault>
    ensures { MatchResult result (λ g. parse bytes.now ≡ Ok (description g))
        (λ e. parse bytes.now ≡ Err e) }
{
    let (sizes, works, transfers) = decode(bytes)?;
    refuse_cycle(sizes, transfers.as_slice())?;
    Ok(TaskGraph::build(sizes, works, transfers))
}

// Replaces the graph by the one that the file describes, or leaves it as it is.
pub fn load(graph: &mut TaskGraph, bytes: &[u8]) -> Result<(), GraphFault>
    ensures is { MatchResult result (λ _. parse bytes.now ≡ Ok (description graph.new))
        (λ e. (parse bytes.now ≡ Err e) × (graph.new ≡ graph.old)) }
    ensures means { OnOk result (described (description graph.new) ≡ the_graph graph.new) }
    ensures exactly { MatchResult result
        (λ _. Encodes bytes.now (description graph.new)
        × Lawful (described (description graph.new)))
        (λ _. (d : Description) → Encodes bytes.now d → Lawful (described d) → ⊥) }
    ensures refused { IfErr result (λ e. Refused bytes.now (refusal_of e)) }
    ensures only { (q : Refusal) → Refused bytes.now q
        → MatchResult result (λ _. ⊥) (λ e. refusal_of e ≡ q) }
{
    *graph = read(bytes)?;
    Ok(())
}

use crate::told::refused;
use loader::graph::TaskGraph;
use loader::load::load;
use refusal::refusal::Refusal;

// Four tasks of work 2, 3, 3, 2 on two machines; transfers 0 → 1 and 0 → 2 at cost 1, 1 → 3 at cost 2, 2 → 3 at cost 1.
// A record to a line.
const EXAMPLE: &[u8; 76] = b"\x04\x00\x01\x00\x04\x00\x02\x00\
    \x02\x00\x02\x00\x02\x00\
    \x02\x00\x02\x00\x03\x00\
    \x02\x00\x02\x00\x03\x00\
    \x02\x00\x02\x00\x02\x00\
    \x06\x00\x03\x00\x00\x00\x01\x00\x01\x00\
    \x06\x00\x03\x00\x00\x00\x02\x00\x01\x00\
    \x06\x00\x03\x00\x01\x00\x03\x00\x02\x00\
    \x06\x00\x03\x00\x02\x00\x03\x00\x01\x00\
    \x00\x00\x04\x00";

// Where the number of machines and the work of task 3 lie.
const MACHINES: usize = 6;

const LAST_WORK: usize = 30;

// The graphs that are asked for.
#[derive(Drop)]
pub(crate) enum Draft {
    Example,
    // The example with a machine more.
    Wider,
    // The example with work 5 of task 3.
    Longer,
    // One task, as where no file is read.
    Unread,
}

impl Draft {
    pub(crate) fn graph(&self) -> anyhow::Result<TaskGraph> {
        let mut file = *EXAMPLE;
        let mut graph = TaskGraph::new();
        match self {
            Draft::Example => (),
            Draft::Wider => file[MACHINES] = 3,
            Draft::Longer => file[LAST_WORK] = 5,
            Draft::Unread => return Ok(graph),
        }
        match load(&mut graph, &file) {
            Ok(()) => Ok(graph),
            Err(fault) => Err(refused(Refusal::from(fault))),
        }
    }
}

use loader::graph::TaskGraph;
use loader::load::load;

// Four tasks on two machines, a record to a line.
pub(crate) const EXAMPLE: &[u8; 76] = b"\x04\x00\x01\x00\x04\x00\x02\x00\
    \x02\x00\x02\x00\x02\x00\
    \x02\x00\x02\x00\x03\x00\
    \x02\x00\x02\x00\x03\x00\
    \x02\x00\x02\x00\x02\x00\
    \x06\x00\x03\x00\x00\x00\x01\x00\x01\x00\
    \x06\x00\x03\x00\x00\x00\x02\x00\x01\x00\
    \x06\x00\x03\x00\x01\x00\x03\x00\x02\x00\
    \x06\x00\x03\x00\x02\x00\x03\x00\x01\x00\
    \x00\x00\x04\x00";

// The example's tasks and transfers on so many machines.
pub(crate) fn example_on(machines: u8) -> TaskGraph {
    let mut bytes = *EXAMPLE;
    bytes[6] = machines;
    let mut graph = TaskGraph::new();
    let _ = load(&mut graph, &bytes);
    graph
}

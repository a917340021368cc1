use crate::sketch::{MOST, Sketch};
use std::alloc::{AllocError, Global};

// Adds a record to a run file: the length of its payload, its kind, its payload.
fn add(file: &mut Vec<u8>, record: &[u16]) -> Result<(), AllocError> {
    for number in record {
        file.extend_from_slice(&number.to_le_bytes())?;
    }
    Ok(())
}

// The record of each transfer.
fn add_transfers(file: &mut Vec<u8>, sketch: &Sketch) -> Result<(), AllocError> {
    for pair in 0..MOST * MOST {
        let (from, to) = (pair / MOST, pair % MOST);
        if let Some(cost) = sketch.cost(from, to) {
            add(file, &[6, 3, from as u16, to as u16, cost])?;
        }
    }
    Ok(())
}

// A sketch as a run file.
pub(crate) fn run_file(heap: Global, sketch: &Sketch) -> Result<Vec<u8>, AllocError> {
    let mut file = Vec::new(heap);
    let tasks = sketch.tasks.min(MOST);
    add(&mut file, &[4, 1, tasks as u16, u16::from(sketch.machines)])?;
    for t in 0..tasks {
        add(&mut file, &[2, 2, sketch.work(t)])?;
    }
    add_transfers(&mut file, sketch)?;
    add(&mut file, &[0, 4])?;
    Ok(file)
}

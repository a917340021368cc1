use std::alloc::{AllocError, Global};

// What a run file is put together from.
#[derive(Clone, Copy)]
pub(crate) enum Part {
    // The numbers of tasks and machines.
    Head(u16, u16),
    // So many tasks of this work.
    Tasks(usize, u16),
    // From, to and cost.
    Transfer(u16, u16, u16),
    // Transfers at no cost from the first task to each from the second on that is below the third.
    Fan(u16, u16, u16),
    End,
    // So many times the same bytes, for what is no record of the format.
    Times(usize, &'static [u8]),
}

fn add(bytes: &mut Vec<u8>, numbers: &[u16]) -> Result<(), AllocError> {
    for number in numbers {
        bytes.extend_from_slice(&number.to_le_bytes())?;
    }
    Ok(())
}

impl Part {
    fn add_to(self, bytes: &mut Vec<u8>) -> Result<(), AllocError> {
        match self {
            Part::Head(tasks, machines) => add(bytes, &[4, 1, tasks, machines]),
            Part::Tasks(count, work) => {
                for _ in 0..count {
                    add(bytes, &[2, 2, work])?;
                }
                Ok(())
            }
            Part::Transfer(from, to, cost) => add(bytes, &[6, 3, from, to, cost]),
            Part::Fan(from, first, end) => {
                for to in first..end {
                    add(bytes, &[6, 3, from, to, 0])?;
                }
                Ok(())
            }
            Part::End => add(bytes, &[0, 4]),
            Part::Times(count, more) => {
                for _ in 0..count {
                    bytes.extend_from_slice(more)?;
                }
                Ok(())
            }
        }
    }
}

// The bytes of the parts, one after the other.
pub(crate) fn run_file(heap: Global, parts: &[Part]) -> Result<Vec<u8>, AllocError> {
    let mut bytes = Vec::new(heap);
    for part in parts {
        part.add_to(&mut bytes)?;
    }
    Ok(bytes)
}

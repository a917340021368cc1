ghost use Rattle.std.specs.Prelude.{◌≡◌, [], OnOk, IfOk};
ghost use Rattle.planner.specs.Input.{IsFront};

use loader::prefix::longest_prefix;
use std::alloc::Global;
use std::io;
use std::io::Read;

/// The front of an input, as much of it as the loader's answer can depend on. No more is read, so that an input without
/// an end is answered too.
pub fn read_front<R: Read>(heap: Global, input: &mut R) -> io::Result<Vec<u8>>
    ensures { IfOk result (λ front. IsFront (R.remaining input.old) front.items) }
{
    let mut front = Vec::new(heap);
    read_into(input, &mut front)?;
    Ok(front)
}

// The same, into an empty vector.
fn read_into<R: Read>(input: &mut R, front: &mut Vec<u8>) -> io::Result<usize>
    requires { front.old.items ≡ [] }
    ensures { OnOk result (IsFront (R.remaining input.old) front.new.items) }
{
    input.take(longest_prefix() as u64).read_to_end(front)
}

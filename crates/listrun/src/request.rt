ghost use Rattle.std.specs.Prelude.{◌≡◌};
ghost use Rattle.listrun.specs.Requests.{requested, onward};

use queue::entry::Entry;

// What an open list is asked to do.
#[derive(Clone, Copy, PartialEq, Eq, Debug)]
pub enum Request {
    Put(Entry),
    Look,
    Take,
}

// How many of four requests are puts, turn by turn.
const PUTS_IN_FOUR: [u32; 4] = [3, 1, 4, 0];

// A sequence of requests: how many were made, and the state of a random generator.
#[derive(Clone, Copy, PartialEq, Eq, Debug)]
pub struct Requests {
    pub number: u32,
    pub state: u32,
}

impl Requests {
    // The next request. One in eight is a look; the others, in turns of 256: three puts in four, three takes in four, only
    // puts, only takes; so the list runs full and empty. Bounds and nodes are few, so that many entries tie and some are equal.
    pub fn next(&mut self) -> Request
        ensures { (result ≡ requested self.old) × (self.new ≡ onward self.old) }
    {
        let drawn = self.state / 65536;
        let turn = self.number / 256 % 4;
        self.state = self.state.wrapping_mul(1664525).wrapping_add(1013904223);
        self.number = self.number.wrapping_add(1);
        let puts = drawn % 4 < PUTS_IN_FOUR[turn as usize];
        if drawn / 1024 % 8 == 0 {
            Request::Look
        } else if puts {
            Request::Put(Entry {
                bound: u64::from(drawn / 4 % 12),
                node: (drawn / 64 % 40) as usize,
            })
        } else {
            Request::Take
        }
    }
}

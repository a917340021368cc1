// A transfer of data from one task to another, at a cost where their machines differ.
#[derive(Clone, Copy, PartialEq, Eq, Debug)]
pub struct Transfer {
    pub from: u16,
    pub to: u16,
    pub cost: u16,
}

impl Transfer {
    ghost use Rattle.std.specs.Prelude.{◌≡◌, ◌==◌, if◌then◌else◌};

    // What fills the places of transfers that are not there.
    pub(crate) const BLANK: Transfer = Transfer {
        from: 0,
        to: 0,
        cost: 0,
    };

    // What the transfer adds between machines a and b: its cost, or nothing on one machine.
    pub fn delay(&self, a: u8, b: u8) -> u16
        ensures { result ≡ (if a == b then 0 else self.now.cost) }
    {
        if a == b { 0 } else { self.cost }
    }
}

ghost use Rattle.std.specs.Prelude.{◌≡◌, ◌<◌, ◌≤◌, List, [], ◌∷◌, ◌++◌, length, take};
ghost use Rattle.loader.specs.declared.transfer.Transfer.{Transfer};

use crate::transfer::Transfer;
use std::marker::Model;

// At most 128 transfers. They lie in fixed memory, since no refusal says that there is none left.
#[derive(Drop)]
pub(crate) struct TransferList {
    pub(crate) count: usize,
    pub(crate) list: [Transfer; 128],
}

impl Model for TransferList {
    ghost Value = { List Transfer };

    ghost view = { λ l. take l.count l.list };

    ghost invariant = { λ l. l.count ≤ 128 };
}

impl TransferList {
    // No transfers.
    pub(crate) fn new() -> TransferList
        ensures { result ≡ [] }
    {
        TransferList {
            count: 0,
            list: [Transfer::BLANK; 128],
        }
    }

    // The transfers, in the order in which they were added.
    pub(crate) fn as_slice(&self) -> &[Transfer]
        ensures { result.now ≡ self.now }
    {
        &self.list[..self.count]
    }

    // Adds one at the end, where there is room.
    pub(crate) fn push(&mut self, transfer: Transfer)
        requires { length self.old < 128 }
        ensures { self.new ≡ self.old ++ transfer ∷ [] }
    {
        self.list[self.count] = transfer;
        self.count += 1;
    }
}

ghost use Rattle.std.specs.Prelude.{◌≡◌};
ghost use Rattle.loader.specs.View.{leads};

use crate::transfer::Transfer;

// Whether one of the transfers leads from `from` to `to`.
pub(crate) fn joined(transfers: &[Transfer], from: usize, to: usize) -> bool
    ensures { result ≡ leads transfers.now from to }
{
    transfers
        .iter()
        .any(|e| usize::from(e.from) == from && usize::from(e.to) == to)
}

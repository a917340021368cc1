ghost use Rattle.std.specs.Prelude.{◌≡◌, ◌<◌, ◌≤◌, List, [], ◌∷◌, ◌++◌, length, take};

use std::marker::Model;

// At most N items. They lie in fixed memory, since expanding a node allocates nothing.
#[derive(Drop)]
pub(crate) struct ShortList<T, const N: usize> {
    count: usize,
    items: [T; N],
}

impl<T, const N: usize> Model for ShortList<T, N> {
    ghost Value = { List T };

    ghost view = { λ l. take l.count l.items };

    ghost invariant = { λ l. l.count ≤ N };
}

impl<T: Copy, const N: usize> ShortList<T, N> {
    // No items. The blank fills the places of those that are not there.
    pub(crate) fn new(blank: T) -> ShortList<T, N>
        ensures { result ≡ [] }
    {
        ShortList {
            count: 0,
            items: [blank; N],
        }
    }

    // How many there are.
    pub(crate) fn len(&self) -> usize
        ensures is { result ≡ length self.now }
        ensures few { result ≤ N }
    {
        self.count
    }

    // The items, in the order in which they were added.
    pub(crate) fn as_slice(&self) -> &[T]
        ensures is { result.now ≡ self.now }
        ensures few { length result.now ≤ N }
    {
        &self.items[..self.count]
    }

    // Adds one at the end, where there is room.
    pub(crate) fn push(&mut self, item: T)
        requires { length self.old < N }
        ensures { self.new ≡ self.old ++ item ∷ [] }
    {
        self.items[self.count] = item;
        self.count += 1;
    }
}

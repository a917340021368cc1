// The shortest of the schedules that were tried, and how many they were.
#[derive(Clone, Copy)]
pub(crate) struct Shortest {
    pub(crate) length: u64,
    pub(crate) tried: u64,
}

impl Shortest {
    // No schedule was tried.
    pub(crate) const NONE: Shortest = Shortest {
        length: u64::MAX,
        tried: 0,
    };

    // One more was tried.
    pub(crate) fn see(&mut self, length: u64) {
        self.length = self.length.min(length);
        self.tried = self.tried.saturating_add(1);
    }
}

// What is counted of a desk.

/// Of one scope: how many reads are held, how many of these are pending, and how many writes are held. A read is pending where its request
/// began no earlier than the last that declared a write in the scope.
#[derive(Clone, Copy, Debug, PartialEq, Eq)]
pub struct Counts {
    pub read: u32,
    pub pending: u32,
    pub write: u32,
}

/// The counts of both scopes, and how many rows are free.
#[derive(Clone, Copy, Debug, PartialEq, Eq)]
pub struct Metrics {
    pub global: Counts,
    pub local: Counts,
    pub free: u32,
}

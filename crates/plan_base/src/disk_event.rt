// What a disk in memory keeps of its calls. Those that only look aren't kept: their numbers are the ones that are missing.

/// What a call did to the content.
#[derive(Drop)]
pub enum DiskAct {
    /// These bytes from this place on.
    Write(u64, Vec<u8>),
    /// A cut to this length.
    Shorten(u64),
    /// A sync that succeeded.
    Sync,
}

/// What a call did, and its number, from 1.
#[derive(Drop)]
pub struct DiskEvent {
    pub call: u64,
    pub act: DiskAct,
}

use std::collections::LinkedList;

/// What a pass at the cell knows: whether it is the one that tells, and pairs that were told, in order. No value of it is made: it stands in
/// contracts alone.
pub struct View {
    pub tells: bool,
    pub told: LinkedList<(u64, u64)>,
}

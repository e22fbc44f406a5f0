/// What a seat at a lock knows: the root of the value, and whether the seat is outside (0), inside (1), or has retired the lock
/// (2). No value of it is made: it stands in contracts alone.
pub struct View<R> {
    pub root: R,
    pub stage: u64,
}

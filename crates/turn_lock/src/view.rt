use crate::pass::Pass;
use std::collections::LinkedList;

/// What is known of one seat that another has taken in. No value of it is made: it stands in contracts alone.
pub struct Part<R> {
    pub root: Option<R>,
    pub number: u32,
    pub known: LinkedList<Pass>,
    pub mine: LinkedList<Pass>,
}

/// What a seat at the lock's table knows. It is spent (kind 0), a seat of the lock (1), or a note of what one knows (2); a seat is outside
/// (stage 0), has drawn a ticket (1), or is inside (2). No value of it is made: it stands in contracts alone.
pub struct View<R> {
    pub kind: u64,
    pub root: Option<R>,
    pub number: u32,
    pub stage: u64,
    pub ticket: u64,
    pub left: u64,
    pub known: LinkedList<Pass>,
    pub mine: LinkedList<Pass>,
    /// What a note brought, until the next look compares it with what is known.
    pub heard: LinkedList<Pass>,
    /// How many seats it stands for: itself, and those that it has taken in or not yet given away.
    pub parts: u64,
    /// Those other seats.
    pub others: LinkedList<Part<R>>,
}

//! An adviser that keeps duties may go to another thread where the one in it may.
use crate::Keeping;
use advice::Adviser;

fn moved<T: Send>(value: T) -> T {
    value
}

/// The adviser again, which may have come from another thread.
pub fn sent<A: Adviser + Send>(keeping: Keeping<A>) -> Keeping<A> {
    moved(keeping)
}

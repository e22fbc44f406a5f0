//! A book may go to another thread where its disk may.
use crate::Book;
use plan_base::Disk;

fn moved<T: Send>(value: T) -> T {
    value
}

/// The book of a search again, which may have come from another thread.
pub fn sent<D: Disk + Send>(book: Book<D>) -> Book<D> {
    moved(book)
}

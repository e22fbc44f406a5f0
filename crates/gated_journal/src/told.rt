// The header and the records that a journal stands for, as clauses see them.
ghost use Rattle.std.specs.Prelude.{◌≡◌, ℕ, List, [], ◌∷◌, ◌++◌};
ghost use Rattle.std.specs.Borrow.{ftrue};

use std::marker::Model;

/// It takes no memory and does nothing at run time. Alone it says nothing of a file: a journal's condition ties it to
/// what the disk holds.
#[derive(Drop)]
pub struct ToldRecords {
    pub ghost head: { List ℕ },
    pub ghost records: { List (List ℕ) },
}

impl Model for ToldRecords {
    ghost also_owns = { λ _. ftrue };
}

// It owns nothing.
unsafe impl Send for ToldRecords {}

impl ToldRecords {
    // This header, and no record.
    pub(crate) fn of_head(_head: &[u8]) -> ToldRecords
        ensures { (result.head ≡ _head.now) × (result.records ≡ []) }
    {
        ToldRecords {}
    }

    // One record more.
    pub(crate) fn with(_before: &ToldRecords, _bytes: &[u8]) -> ToldRecords
        ensures { (result.head ≡ _before.now.head) × (result.records ≡ _before.now.records ++ _bytes.now ∷ []) }
    {
        ToldRecords {}
    }
}

//! Records read as posts, each by itself.
ghost use Rattle.std.specs.Prelude.{length, slice_get, IsSomeAnd, ⊤};

use job_pieces::Jobs;
use post_codec::{CodecFault, Post, PriceWidth, read_by};
use std::alloc::{AllocError, Global};

/// What reading a record gives: the posts that it spells, or why it spells none.
pub(crate) type Outcome = Result<Vec<Post>, CodecFault>;

/// Records to be read, with prices of that width.
#[derive(Drop)]
pub(crate) struct Records<'a> {
    pub(crate) width: PriceWidth,
    pub(crate) records: &'a [Vec<u8>],
}

impl<'a> Jobs<Outcome, ()> for Records<'a> {
    ghost use Rattle.recovery.specs.Reads.{IsReadOf};

    ghost count = { λ r. length r.records.now };

    ghost gives = { λ r at outcome. IsSomeAnd (slice_get r.records.now at) (λ bytes. IsReadOf r.width bytes.items outcome) };

    ghost serves = { λ _ _. ⊤ };

    fn count(&self) -> usize {
        self.records.len()
    }

    fn begin(&self, _alloc: Global) {}

    fn run(&self, alloc: Global, _kept: &mut (), at: usize) -> Result<Outcome, AllocError> {
        let records = self.records;
        Ok(read_by(alloc, self.width, &records[at]))
    }
}

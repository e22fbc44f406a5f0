//! The report that runs grow, and sources of texts.
ghost use Rattle.std.specs.Prelude.{◌<◌};

use plan_base::MemSource;
use std::alloc::{AllocError, Global};

/// A search of the morning with at most two duties that split the root: node 1 has at most one duty, and node 2 at least two.
pub const REPORT: &str =
    "shift-report 1\nstatus stopped\ncost 3\nbound 0\nrows 1\nrow 0 0 1 -\nproof 1\nsplit 0 0 0 - 1\nend\n";

/// A source of a text that moves at most so many bytes in a read, of which the one with this number fails, and none where it is 0.
pub fn source(alloc: Global, text: &str, most: usize, fails: u64) -> Result<MemSource, AllocError>
    requires { 0 < most }
{
    let bytes = Vec::from_slice(alloc, text.as_bytes())?;
    Ok(MemSource::new(alloc, bytes, vec![in alloc; fails]?, most))
}

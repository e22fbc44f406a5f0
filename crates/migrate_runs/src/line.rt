//! The line of a migration.

ghost use Rattle.std.specs.Prelude.{◌≡◌, ◌≤◌, List, length, map, IfOk, string_bytes};
ghost use Rattle.std.specs.Io.KnownBytes.{Appends};
ghost use Rattle.plan_base.specs.Causes.{CountsFaults};
ghost use Rattle.post_codec.specs.declared.post.Post.{Post as APost};
ghost use Rattle.post_codec.specs.Batches.{SpellPosts};
ghost use Rattle.migrate_runs.specs.Migrate.{migrated_line};

use post_codec::read;
use std::alloc::{AllocError, Global};

/// The line of so many records and posts, with a line feed.
pub(crate) fn migrated_line(alloc: Global, records: usize, posts: u64) -> Result<String, AllocError>
    ensures { IfOk result (λ line. string_bytes line ≡ migrated_line records posts) }
{
    format!(in alloc; "migrated records {records} posts {posts}\n")
}

/// How many posts records spell.
pub(crate) fn count_posts(alloc: Global, records: &[Vec<u8>]) -> Result<u64, AllocError>
    ensures { (posts : List APost) → SpellPosts (map (λ r. r.items) records.now) posts → IfOk result (λ n. n ≡ length posts) }
{
    let mut count = 0;
    for record in records {
        // where the records spell posts, a fault is want of memory
        let Ok(posts) = read(alloc, record) else {
            return Err(AllocError);
        };
        let Some(sum) = u64::checked_add(count, posts.len() as u64) else {
            return Err(AllocError);
        };
        count = sum;
    }
    Ok(count)
}

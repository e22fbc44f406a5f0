//! Records of the first version, spelled anew.
ghost use Rattle.std.specs.Prelude.{◌≡◌, ◌≤◌, List, map, All, IfOk, IfErr, OnOk};
ghost use Rattle.std.specs.List.{AllZip};
ghost use Rattle.post_codec.specs.declared.post.Post.{Post as APost};
ghost use Rattle.post_codec.specs.declared.price_width.PriceWidth.TheVariants.{Eight};
ghost use Rattle.search_core.specs.Book.{Book};
ghost use Rattle.recovery.specs.Migrating.{CanRespell, SpellSame};
ghost use Rattle.recovery.specs.Records.{MakeBook, MakeBookBy};
ghost use Rattle.recovery.specs.Refusals.{RefusesBy};

use crate::fault::RebuildFault;
use crate::rebuilding::rebuild_by;
use break_rules::NoMemory;
use post_codec::{PriceWidth, read_v1, write};
use shift_instance::Instance;
use std::alloc::{AllocError, Global};
use std::thread::Threads;

/// The record of the same posts as journals keep it.
fn respelled(alloc: Global, bytes: &[u8]) -> Result<Vec<u8>, NoMemory>
    requires { CanRespell bytes.now }
    ensures { IfOk result (λ new. SpellSame bytes.now new.items) }
{
    match read_v1(alloc, bytes) {
        Ok(posts) => write(alloc, &posts),
        // the bytes spell posts, so memory ran out
        Err(_) => Err(AllocError),
    }
}

/// The records of the same posts as journals keep them, record by record.
fn all_respelled(alloc: Global, records: &[Vec<u8>]) -> Result<Vec<Vec<u8>>, NoMemory>
    requires { All (λ r. CanRespell r.items) records.now }
    ensures { IfOk result (λ new. AllZip SpellSame (map (λ r. r.items) records.now) (map (λ r. r.items) new.items)) }
{
    let mut new = Vec::with_capacity(alloc, records.len())?;
    for record in records {
        new.push(respelled(alloc, record)?)?;
    }
    Ok(new)
}

/// Judges records of the first version: they spell posts that make a book.
fn judge<R: Threads + Sync>(
    rt: &R,
    alloc: Global,
    instance: &Instance,
    records: &[Vec<u8>],
    workers: u32,
) -> Result<(), RebuildFault>
    requires some { 1 ≤ workers }
    requires most { workers ≤ 16 }
    ensures ok { OnOk result ((posts : List APost) × (book : Book) × MakeBookBy Eight instance.now (map (λ r. r.items) records.now) posts book) }
    ensures respelled { OnOk result (All (λ r. CanRespell r.items) records.now) }
    ensures refused { IfErr result (RefusesBy Eight instance.now (map (λ r. r.items) records.now)) }
    ensures only { (posts : List APost) (book : Book) → MakeBookBy Eight instance.now (map (λ r. r.items) records.now) posts book → IfErr result (λ fault. fault ≡ RebuildFault.NoMemory) }
{
    // an instance is valid
    let _heads = instance.heads();
    let _state = rebuild_by(rt, alloc, instance, PriceWidth::Eight, records, workers)?;
    Ok(())
}

/// The records of a journal as it is now, of those of a journal of the first version: record by record the same posts, with prices
/// of five bytes in place of eight. The records are judged as [`rebuild`](crate::rebuild) judges those of a journal, by the former
/// spelling; as there, up to `workers` workers, 1 to 16, do it at the same time.
pub fn migrate_records<R: Threads + Sync>(
    rt: &R,
    alloc: Global,
    instance: &Instance,
    records: &[Vec<u8>],
    workers: u32,
) -> Result<Vec<Vec<u8>>, RebuildFault>
    requires some { 1 ≤ workers }
    requires most { workers ≤ 16 }
    // Each record spells the posts of the former one in its place.
    ensures same { IfOk result (λ new. AllZip SpellSame (map (λ r. r.items) records.now) (map (λ r. r.items) new.items)) }
    // The posts of both make one book.
    ensures book { IfOk result (λ new. (posts : List APost) × (book : Book) × MakeBookBy Eight instance.now (map (λ r. r.items) records.now) posts book × MakeBook instance.now (map (λ r. r.items) new.items) posts book) }
    ensures refused { IfErr result (RefusesBy Eight instance.now (map (λ r. r.items) records.now)) }
    // Where the records spell posts that make a book, none is rejected.
    ensures only { (posts : List APost) (book : Book) → MakeBookBy Eight instance.now (map (λ r. r.items) records.now) posts book → IfErr result (λ fault. fault ≡ RebuildFault.NoMemory) }
{
    judge(rt, alloc, instance, records, workers)?;
    Ok(all_respelled(alloc, records)?)
}

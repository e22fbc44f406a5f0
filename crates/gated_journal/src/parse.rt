// A file's bytes as a header and records.
ghost use Rattle.std.specs.Prelude.{◌≡◌, ◌≢◌, ◌+◌, ◌^◌, ◌<◌, ◌≤◌, List, ℕ, [], ◌∷◌, ◌++◌, length, map, take, IfOk, IfErr, IfSome, IfNone};
ghost use Rattle.gated_journal.specs.Format.{mark_of, framed, spelled_in, StandsIn};
ghost use Rattle.gated_journal.specs.Cuts.{size_of, IsUnframed, IsNoneIn, IsRecordsEnd};
ghost use Rattle.gated_journal.specs.Faults.{ParseFails};

use crate::fault::JournalFault;
use crate::told::ToldRecords;
use std::alloc::Global;

/// The digit in the mark of the first version.
pub(crate) const FIRST: u8 = b'1';
/// The digit in the mark of the version that is written now.
pub(crate) const SECOND: u8 = b'2';

// What a length counts off, and what stands behind it.
fn split_framed(bytes: &[u8]) -> Option<(&[u8], &[u8])>
    ensures some { IfSome result (λ parts. bytes.now ≡ framed parts.0.now ++ parts.1.now) }
    ensures size { IfSome result (λ parts. length parts.0.now ≡ size_of bytes.now) }
    ensures none { IfNone result (IsUnframed bytes.now) }
{
    let [a, b, c, d, tail @ ..] = bytes else {
        return None;
    };
    let size = u32::from_le_bytes([*a, *b, *c, *d]) as usize;
    if tail.len() < size {
        return None;
    }
    Some(tail.split_at(size))
}

// What stands behind the mark of a version.
pub(crate) fn behind_mark(bytes: &[u8], digit: u8) -> Option<&[u8]>
    ensures some { IfSome result (λ tail. bytes.now ≡ mark_of digit ++ tail.now) }
    ensures none { IfNone result (take 8 bytes.now ≢ mark_of digit) }
{
    let [b'S', b'H', b'I', b'F', b'T', b'J', found, b'\n', tail @ ..] = bytes else {
        return None;
    };
    if *found != digit {
        return None;
    }
    Some(tail)
}

// The header behind the mark of a version, and what stands behind the header.
pub(crate) fn split_head(bytes: &[u8], digit: u8) -> Option<(&[u8], &[u8])>
    ensures some { IfSome result (λ parts. bytes.now ≡ mark_of digit ++ framed parts.0.now ++ parts.1.now) }
    ensures none { IfNone result (IsNoneIn digit bytes.now) }
{
    let tail = behind_mark(bytes, digit)?;
    split_framed(tail)
}

// The record behind an open gate, and what stands behind it, where that begins with a gate.
fn split_record(bytes: &[u8]) -> Option<(&[u8], &[u8])>
    ensures some { IfSome result (λ parts. bytes.now ≡ 1 ∷ framed parts.0.now ++ parts.1.now) }
    ensures gate { IfSome result (λ parts. 0 < length parts.1.now) }
    ensures none { IfNone result (IsRecordsEnd bytes.now) }
{
    let [1, tail @ ..] = bytes else {
        return None;
    };
    let (record, rest) = split_framed(tail)?;
    if rest.is_empty() {
        return None;
    }
    Some((record, rest))
}

// The records behind a header, and the place of the closed gate behind them. The digit is for clauses alone.
pub(crate) fn read_records(
    alloc: Global,
    bytes: &[u8],
    _digit: u8,
    head: &[u8],
    after: &[u8],
) -> Result<(Vec<Vec<u8>>, ToldRecords, u64), JournalFault>
    requires { bytes.now ≡ mark_of _digit ++ framed head.now ++ after.now }
    ensures head { IfOk result (λ r. r.1.head ≡ head.now) }
    ensures records { IfOk result (λ r. r.1.records ≡ map (λ v. v.items) r.0.items) }
    ensures stands { IfOk result (λ r. StandsIn _digit (length bytes.now) head.now r.1.records bytes.now) }
    ensures gate { IfOk result (λ r. r.2 ≡ length (spelled_in _digit head.now r.1.records)) }
    ensures cut { IfErr result (ParseFails _digit head.now bytes.now) }
{
    let mut records = Vec::new(alloc);
    let mut told = ToldRecords::of_head(head);
    let mut rest = after;
    'records: while let Some((record, next)) = split_record(rest) {
        records.push(Vec::from_slice(alloc, record)?)?;
        told = ToldRecords::with(&told, record);
        rest = next;
    }
    let gate = (bytes.len() - rest.len()) as u64;
    if rest.is_empty() || rest[0] == 1 {
        return Err(JournalFault::Damaged { at: gate });
    }
    Ok((records, told, gate))
}

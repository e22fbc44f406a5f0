//! Text read as a certificate.
ghost use Rattle.std.specs.Prelude.{◌≡◌, ◌+◌, ◌-◌, ◌==◌, length, take, count_by, codes, Some, IfOk, IfErr};
ghost use Rattle.certificate.specs.declared.Cert.{Cert as ACert};
ghost use Rattle.certificate.specs.Departing.{Spells, GivesCert, IsFaultOf};
ghost use Rattle.certificate.specs.Reading.{begins_note, AnswersNotes, AnswersWhole, status_in, cost_in, bound_in, count_in, opening_at, limits_at, or_zero, rows_at, proof_at, closing_at, plan_of, cert_at};
ghost use Rattle.certificate.specs.Words.{line_at, word_in, row_in, times, rest_of, proof_count_in, proof_line_in};
ghost use Rattle.post_codec.specs.Reading.{Gives};

use crate::fault::CertText;
use crate::proof_lines::{Line, Lines};
use crate::proof_words::{proof_count_of, proof_line_of};
use crate::words::{bound_of, cost_of, count_of, row_of, sides, status_of};
use crate::{Cert, CertStatus};
use post_codec::Stop;
use shift_instance::{Row, Rows};
use std::alloc::Global;

/// The bytes behind a line that is a word.
fn word_line<'a>(word: &[u8], bytes: &'a [u8]) -> Result<&'a [u8], Stop>
    ensures { Gives (λ x. (tt, x.now)) result (line_at (word_in word.now) bytes.now) }
{
    let (line, rest) = sides(b'\n', bytes, bytes.len())?;
    if line == word {
        Ok(rest)
    } else {
        Err(Stop::Left(bytes.len()))
    }
}

/// The status, behind the title, and the bytes after it.
#[tactic(auto, unfolding(crate::specs::Reading::opening_at))]
fn opening(bytes: &[u8]) -> Result<(CertStatus, &[u8]), Stop>
    ensures { Gives (λ x. (x.0, x.1.now)) result (opening_at bytes.now) }
{
    let bytes = word_line(b"shift-report 1".as_slice(), bytes)?;
    let (line, rest) = sides(b'\n', bytes, bytes.len())?;
    let status = status_of(line, bytes.len())?;
    Ok((status, rest))
}

/// The cost, and the bytes after its line.
fn cost_line(status: CertStatus, bytes: &[u8]) -> Result<(Option<u64>, &[u8]), Stop>
    ensures { Gives (λ x. (x.0, x.1.now)) result (line_at (cost_in status) bytes.now) }
{
    let (line, rest) = sides(b'\n', bytes, bytes.len())?;
    let cost = cost_of(status, line, bytes.len())?;
    Ok((cost, rest))
}

/// The bound, and the bytes after its line.
fn bound_line(status: CertStatus, cost: Option<u64>, bytes: &[u8]) -> Result<(u64, &[u8]), Stop>
    ensures { Gives (λ x. (x.0, x.1.now)) result (line_at (bound_in status cost) bytes.now) }
{
    let (line, rest) = sides(b'\n', bytes, bytes.len())?;
    let bound = bound_of(status, cost, line, bytes.len())?;
    Ok((bound, rest))
}

/// The number of rows, and the bytes after its line.
fn count_line(cost: Option<u64>, bytes: &[u8]) -> Result<(Option<u64>, &[u8]), Stop>
    ensures { Gives (λ x. (x.0, x.1.now)) result (line_at (count_in cost) bytes.now) }
{
    let (line, rest) = sides(b'\n', bytes, bytes.len())?;
    let count = count_of(cost, line, bytes.len())?;
    Ok((count, rest))
}

/// A row, and the bytes after its line.
fn row_line(alloc: Global, bytes: &[u8]) -> Result<(Row, &[u8]), Stop>
    ensures { Gives (λ x. (x.0, x.1.now)) result (line_at row_in bytes.now) }
{
    let (line, rest) = sides(b'\n', bytes, bytes.len())?;
    let row = row_of(alloc, line, bytes.len())?;
    Ok((row, rest))
}

/// The bytes of the shortest line of a row, `row 0 0 1 -` with its line feed.
const SHORTEST_ROW: usize = 12;

/// So many rows, and the bytes after them.
fn row_lines(alloc: Global, count: u64, bytes: &[u8]) -> Result<(Vec<Row>, &[u8]), Stop>
    ensures { Gives (λ x. (x.0.items, x.1.now)) result (times (line_at row_in) count bytes.now) }
{
    // room for as many rows as there can be, so that the list never grows into twice the memory
    let most = bytes.len() / SHORTEST_ROW;
    let mut list = Vec::with_capacity(alloc, most.min(count as usize))?;
    let mut rest = bytes;
    for _ in 0..count {
        let (row, after) = row_line(alloc, rest)?;
        list.push(row)?;
        rest = after;
    }
    Ok((list, rest))
}

/// The rows behind their number, and the bytes after them.
#[tactic(auto, unfolding(crate::specs::Reading::rows_at))]
fn rows(alloc: Global, cost: Option<u64>, bytes: &[u8]) -> Result<(Rows, &[u8]), Stop>
    ensures { Gives (λ x. (x.0, x.1.now)) result (rows_at cost bytes.now) }
{
    let (count, bytes) = count_line(cost, bytes)?;
    let (list, rest) = row_lines(alloc, count.unwrap_or(0), bytes)?;
    Ok((Rows::new(list), rest))
}

/// The number of proof lines, and the bytes after its line.
fn proof_count_line(bytes: &[u8]) -> Result<(u64, &[u8]), Stop>
    ensures { Gives (λ x. (x.0, x.1.now)) result (line_at proof_count_in bytes.now) }
{
    let (line, rest) = sides(b'\n', bytes, bytes.len())?;
    let count = proof_count_of(line, bytes.len())?;
    Ok((count, rest))
}

/// A proof line, and the bytes after its line.
fn proof_line(alloc: Global, bytes: &[u8]) -> Result<(Line, &[u8]), Stop>
    ensures { Gives (λ x. (x.0, x.1.now)) result (line_at proof_line_in bytes.now) }
{
    let (line, rest) = sides(b'\n', bytes, bytes.len())?;
    let proof_line = proof_line_of(alloc, line, bytes.len())?;
    Ok((proof_line, rest))
}

/// The bytes behind so many proof lines.
fn behind_lines(alloc: Global, count: usize, bytes: &[u8]) -> Result<&[u8], Stop>
    ensures { Gives (λ x. x.now) result (rest_of (times (line_at proof_line_in) count bytes.now)) }
{
    let mut rest = bytes;
    for _ in 0..count {
        let (_, after) = proof_line(alloc, rest)?;
        rest = after;
    }
    Ok(rest)
}

/// So many proof lines, and the bytes after them.
fn proof_lines(alloc: Global, count: usize, bytes: &[u8]) -> Result<(Lines, &[u8]), Stop>
    ensures { Gives (λ x. (x.0, x.1.now)) result (times (line_at proof_line_in) count bytes.now) }
{
    let rest = behind_lines(alloc, count, bytes)?;
    let text = Vec::from_slice(alloc, &bytes[..bytes.len() - rest.len()])?;
    Ok((Lines::of_text(text, count), rest))
}

/// The proof lines behind their number, and the bytes after them.
#[tactic(auto, unfolding(crate::specs::Reading::proof_at))]
fn proof(alloc: Global, bytes: &[u8]) -> Result<(Lines, &[u8]), Stop>
    ensures { Gives (λ x. (x.0, x.1.now)) result (proof_at bytes.now) }
{
    let (count, bytes) = proof_count_line(bytes)?;
    proof_lines(alloc, count as usize, bytes)
}

/// The proof lines, and the bytes behind the line `end`.
#[tactic(auto, unfolding(crate::specs::Reading::closing_at))]
fn closing(alloc: Global, bytes: &[u8]) -> Result<(Lines, &[u8]), Stop>
    ensures { Gives (λ x. (x.0, x.1.now)) result (closing_at bytes.now) }
{
    let (lines, bytes) = proof(alloc, bytes)?;
    let rest = word_line(b"end".as_slice(), bytes)?;
    Ok((lines, rest))
}

/// The plan of a cost and rows.
fn plan(cost: Option<u64>, rows: Rows) -> Option<(u64, Rows)>
    ensures { result ≡ plan_of cost rows }
{
    match cost {
        Some(cost) => Some((cost, rows)),
        None => None,
    }
}

/// A certificate, and the bytes behind the line `end`.
#[tactic(auto, unfolding(crate::specs::Reading::limits_at, crate::specs::Reading::cert_at))]
fn cert(alloc: Global, bytes: &[u8]) -> Result<(Cert, &[u8]), Stop>
    ensures { Gives (λ x. (x.0, x.1.now)) result (cert_at bytes.now) }
{
    let (status, bytes) = opening(bytes)?;
    let (cost, bytes) = cost_line(status, bytes)?;
    let (bound, bytes) = bound_line(status, cost, bytes)?;
    let (rows, bytes) = rows(alloc, cost, bytes)?;
    let (lines, rest) = closing(alloc, bytes)?;
    let plan = plan(cost, rows);
    let cert = Cert {
        status,
        plan,
        bound,
        lines,
    };
    Ok((cert, rest))
}

/// Whether a line begins with `#`.
fn is_note(line: &[u8]) -> bool
    ensures { result ≡ begins_note line.now }
{
    match line {
        [first, ..] => *first == b'#',
        [] => false,
    }
}

/// Judges that bytes are notes.
fn notes(bytes: &[u8]) -> Result<(), Stop>
    ensures { AnswersNotes bytes.now result }
{
    let mut rest = bytes;
    while !rest.is_empty() {
        let (line, after) = sides(b'\n', rest, rest.len())?;
        if !is_note(line) {
            return Err(Stop::Left(rest.len()));
        }
        rest = after;
    }
    Ok(())
}

/// The certificate of a text with its notes.
fn whole(alloc: Global, bytes: &[u8]) -> Result<Cert, Stop>
    ensures { AnswersWhole bytes.now result }
{
    let (cert, rest) = cert(alloc, bytes)?;
    notes(rest)?;
    Ok(cert)
}

/// The number, from 1 on, of the line that begins where so many bytes are left.
fn line_number(bytes: &[u8], left: usize) -> u64
    ensures { result ≡ count_by (λ b. b == 10) (take (length bytes.now - left) bytes.now) + 1 }
{
    let before = bytes.len().saturating_sub(left);
    let feeds = bytes[..before].iter().filter(|b| **b == b'\n').count();
    feeds as u64 + 1
}

/// The certificate of a text, whose notes behind `end` are passed over.
///
/// `Departs` comes exactly where the bytes are a text of no certificate, unless memory runs out before. It has the number of the
/// first line that no text has after the lines before it. Where there is no such line, the text stops early or ends without a
/// line feed, and it has the number of the line after the last whole line. Whether the rows make sense isn't judged. The work
/// grows with the number of bytes.
pub fn read(alloc: Global, bytes: &[u8]) -> Result<Cert, CertText>
    // What is read is spelled so.
    ensures found { IfOk result (λ cert. Spells bytes.now cert) }
    // What is spelled so is read, unless memory runs out.
    ensures only { (cert : ACert) → Spells bytes.now cert → GivesCert result cert }
    // Else the fault names the line that departs from every text.
    ensures fault { IfErr result (IsFaultOf bytes.now) }
{
    match whole(alloc, bytes) {
        Ok(cert) => Ok(cert),
        Err(Stop::Memory) => Err(CertText::NoMemory),
        Err(Stop::Left(left)) => Err(CertText::Departs {
            line: line_number(bytes, left),
        }),
    }
}

//! Proof lines, read one after another from their text.
ghost use Rattle.std.specs.Prelude.{◌≡◌, length, IfOk, OnErr};
ghost use Rattle.certificate.specs.KeptLines.{lines_in, AreLines, Reads};
ghost use Rattle.certificate.specs.Words.{any_line_in, line_at};
ghost use Rattle.post_codec.specs.Reading.{Gives};

use crate::proof_lines::Line;
use crate::proof_words::any_line_of;
use crate::words::sides;
use break_rules::NoMemory;
use post_codec::Stop;
use std::alloc::{AllocError, Global};
use std::marker::Model;

/// A proof line, and the bytes after its line.
fn first_line(alloc: Global, bytes: &[u8]) -> Result<(Line, &[u8]), Stop>
    ensures { Gives (λ x. (x.0, x.1.now)) result (line_at any_line_in bytes.now) }
{
    let (line, rest) = sides(b'\n', bytes, bytes.len())?;
    let line = any_line_of(alloc, line, bytes.len())?;
    Ok((line, rest))
}

/// Reads proof lines one after another. It is seen as the proof lines that it has still to read.
#[derive(Drop)]
pub struct LineReader<'a> {
    text: &'a [u8],
    count: usize,
}

impl<'a> Model for LineReader<'a> {
    ghost use Rattle.std.specs.Prelude.{List};
    ghost use Rattle.certificate.specs.declared.proof_lines.Line.{Line};
    ghost use Rattle.certificate.specs.KeptLines.{lines_in, AreLines};

    ghost Value = { List Line };

    ghost view = { λ reader. lines_in reader.count reader.text.now };

    ghost invariant = { λ reader. AreLines reader.count reader.text.now };
}

impl<'a> LineReader<'a> {
    /// A reader of a text that has so many proof lines.
    pub(crate) fn new(text: &'a [u8], count: usize) -> LineReader<'a>
        requires { AreLines count text.now }
        ensures { result ≡ lines_in count text.now }
    {
        LineReader { text, count }
    }

    /// How many proof lines are still to be read.
    #[tactic(auto, using(crate::proofs::Kept::kept_count))]
    pub fn len(&self) -> usize
        ensures { result ≡ length self.now }
    {
        self.count
    }

    /// The next proof line, and `None` where none is left. After running out of memory it is still to be read.
    pub fn next_line(&mut self, alloc: Global) -> Result<Option<Line>, NoMemory>
        ensures read { IfOk result (λ line. Reads line self.old self.new) }
        ensures kept { OnErr result (self.new ≡ self.old) }
    {
        if self.count == 0 {
            return Ok(None);
        }
        match first_line(alloc, self.text) {
            Ok((line, rest)) => {
                self.text = rest;
                self.count -= 1;
                Ok(Some(line))
            }
            Err(Stop::Memory) => Err(AllocError),
            Err(Stop::Left(_)) => unreachable!(),
        }
    }
}

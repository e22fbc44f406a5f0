//! Proof lines.
ghost use Rattle.std.specs.Prelude.{◌≡◌, ◌++◌, [], map, length, All, IfOk};
ghost use Rattle.certificate.specs.KeptLines.{lines_in, AreLines};
ghost use Rattle.certificate.specs.LineText.{lines_text, proof_line, FitsLine};

use crate::line_reader::LineReader;
use crate::proof_writing::add_lines;
use break_rules::NoMemory;
use head_splits::{Class, Prices};
use std::alloc::Global;
use std::marker::Model;

/// A step of a proof that no legal rota costs less than a bound. The nodes of the search tree have numbers from 0, the root, on.
#[derive(Drop)]
pub enum Line {
    /// A node, split by the number of a class's duties into at most `m` and at least `m + 1`.
    Split { node: u32, class: Class, m: u16 },
    /// Prices for a node, which bound the cost of every rota below the node's cuts.
    Priced { node: u32, prices: Prices },
    /// A node whose cuts fix how often each legal duty stands in a rota below them.
    Settled { node: u32 },
}

/// Proof lines, in the order in which they are judged. They are kept as their text, which takes far less memory than their
/// numbers do, and are read one after another by a [`LineReader`].
#[derive(Drop)]
pub struct Lines {
    text: Vec<u8>,
    count: usize,
}

impl Model for Lines {
    ghost use Rattle.std.specs.Prelude.{List};
    ghost use Rattle.certificate.specs.declared.proof_lines.Line.{Line};
    ghost use Rattle.certificate.specs.KeptLines.{lines_in, AreLines};

    ghost Value = { List Line };

    ghost view = { λ lines. lines_in lines.count lines.text.items };

    ghost invariant = { λ lines. AreLines lines.count lines.text.items };
}

impl Lines {
    /// No proof lines.
    #[tactic(auto, using(crate::proofs::Kept::none_kept, crate::proofs::Kept::no_lines))]
    pub fn new(alloc: Global) -> Lines
        ensures { result ≡ [] }
    {
        Lines::of_text(Vec::new(alloc), 0)
    }

    /// The proof lines of a list, in its order. The only refusal is running out of memory.
    #[tactic(auto, using(crate::proofs::Kept::list_kept, crate::proofs::Kept::list_view))]
    pub fn from_slice(alloc: Global, list: &[Line]) -> Result<Lines, NoMemory>
        ensures { IfOk result (λ lines. lines ≡ list.now) }
    {
        let mut text = String::new(alloc);
        add_lines(&mut text, list)?;
        Ok(Lines::of_text(text.into_bytes(), list.len()))
    }

    /// The proof lines of a text that has so many.
    pub(crate) fn of_text(text: Vec<u8>, count: usize) -> Lines
        requires { AreLines count text.items }
        ensures { result ≡ lines_in count text.items }
    {
        Lines { text, count }
    }

    /// The text of the proof lines.
    #[tactic(auto, using(crate::proofs::Kept::kept_text, crate::proofs::Kept::kept_fit))]
    pub(crate) fn text(&self) -> &[u8]
        ensures text { result.now ≡ lines_text (map proof_line self.now) }
        ensures fits { All FitsLine self.now }
    {
        &self.text
    }

    /// How many proof lines there are.
    #[tactic(auto, using(crate::proofs::Kept::kept_count))]
    pub fn len(&self) -> usize
        ensures { result ≡ length self.now }
    {
        self.count
    }

    /// A reader of the proof lines, from the first on.
    pub fn reader(&self) -> LineReader<'_>
        ensures { result ≡ self.now }
    {
        LineReader::new(&self.text, self.count)
    }
}

// The one that tells, and those that read.
ghost use Rattle.std.specs.Prelude.{◌≡◌, ◌++◌, [], ◌∷◌, IfOk};
ghost use Rattle.best_cell.specs.Told.{last_of, Follows, IsFront};

use crate::NoMemory;
use crate::rule::{Informs, Latest, Reads, Telling, Tells};
use crate::view::View;
use crossbeam_utils::atomic::seq_cell::{Pass, RuledSeqCell};
use std::alloc::Global;
use std::marker::Model;
use std::sync::{Arc, Wait};

type Cell<W> = RuledSeqCell<[u64; 2], View, Latest<W>, 2>;

/// Tells the cell how many posts there are, and what the best plan costs. Contracts see it as the pairs that it told, in order.
#[derive(Drop)]
pub struct Teller<W: Telling> {
    cell: Arc<Cell<W>, Global>,
    pass: Pass<[u64; 2], View>,
}

impl<W: Telling> Model for Teller<W> {
    ghost use Rattle.std.specs.Prelude.{◌≡◌, ◌≢◌, ℕ, List, []};
    ghost use Rattle.std.specs.Arc.{arc_value};
    ghost use Rattle.crossbeam_utils.specs.Seq.{cell_view};
    ghost use Rattle.best_cell.specs.Told.{IsOrderly};
    ghost use Rattle.best_cell.specs.Telling.{teller};

    ghost Value = { List (ℕ × ℕ) };

    ghost view = { λ t. (cell_view t.pass).told };

    ghost invariant = { λ t. (t.pass.table_id ≡ (arc_value t.cell).table.shared.table_id) × (cell_view t.pass ≡ teller (cell_view t.pass).told) × IsOrderly (cell_view t.pass).told × ((cell_view t.pass).told ≢ []) };
}

/// Reads what the cell was told. Contracts see it as the pairs of which it knows that they were told, in order: the last of them is the one
/// that it read last.
#[derive(Drop)]
pub struct Reader<W: Telling> {
    cell: Arc<Cell<W>, Global>,
    pass: Pass<[u64; 2], View>,
}

impl<W: Telling> Model for Reader<W> {
    ghost use Rattle.std.specs.Prelude.{◌≡◌, ◌≢◌, ℕ, List, []};
    ghost use Rattle.std.specs.Arc.{arc_value};
    ghost use Rattle.crossbeam_utils.specs.Seq.{cell_view};
    ghost use Rattle.best_cell.specs.Told.{IsOrderly};
    ghost use Rattle.best_cell.specs.Telling.{reader};

    ghost Value = { List (ℕ × ℕ) };

    ghost view = { λ r. (cell_view r.pass).told };

    ghost invariant = { λ r. (r.pass.table_id ≡ (arc_value r.cell).table.shared.table_id) × (cell_view r.pass ≡ reader (cell_view r.pass).told) × IsOrderly (cell_view r.pass).told × ((cell_view r.pass).told ≢ []) };
}

/// A cell that was told one pair, with the one that tells it more, and one that reads it.
pub fn pair<W: Telling, R: Wait>(
    rt: &R,
    alloc: Global,
    posts: u64,
    cost: u64,
) -> Result<(Teller<W>, Reader<W>), NoMemory>
    requires { W.tells posts cost }
    ensures teller { IfOk result (λ made. made.0 ≡ (posts, cost) ∷ []) }
    ensures reader { IfOk result (λ made. made.1 ≡ (posts, cost) ∷ []) }
{
    let (cell, mut pass) = Cell::<W>::ruled(alloc, [posts, cost])?;
    cell.swap_as::<Tells, R>(rt, &mut pass, [posts, cost]);
    let theirs = cell.split_pass::<Informs>(&mut pass);
    let cell = Arc::new(alloc, cell)?;
    let also = Arc::try_clone(&cell)?;
    let reader = Reader {
        cell: also,
        pass: theirs,
    };
    Ok((Teller { cell, pass }, reader))
}

impl<W: Telling> Teller<W> {
    /// Tells the cell a pair with no fewer posts and no greater cost than the one before it.
    pub fn tell<R: Wait>(&mut self, rt: &R, posts: u64, cost: u64)
        requires follows { Follows (last_of self.old) (posts, cost) }
        requires tells { W.tells posts cost }
        ensures { self.new ≡ self.old ++ (posts, cost) ∷ [] }
    {
        self.cell
            .swap_as::<Tells, R>(rt, &mut self.pass, [posts, cost]);
    }
}

impl<W: Telling> Reader<W> {
    /// Reads one pair that was told, whole: it has no fewer posts and no greater cost than the one that this reader read before.
    pub fn read<R: Wait>(&mut self, rt: &R) -> (u64, u64)
        ensures told { result ≡ last_of self.new }
        ensures tells { W.tells result.0 result.1 }
        ensures begins { IsFront self.old self.new }
        ensures follows { Follows (last_of self.old) result }
    {
        let [posts, cost] = self.cell.load_as::<Reads<W>, R>(rt, &mut self.pass);
        (posts, cost)
    }

    /// One more reader, which knows what this one knows.
    pub fn split(&mut self) -> Result<Reader<W>, NoMemory>
        ensures same { self.new ≡ self.old }
        ensures other { IfOk result (λ other. other ≡ self.old) }
    {
        let cell = Arc::try_clone(&self.cell)?;
        let pass = self.cell.split_pass::<Informs>(&mut self.pass);
        Ok(Reader { cell, pass })
    }
}

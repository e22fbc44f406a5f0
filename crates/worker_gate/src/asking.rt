//! What a worker asks for the node in its hand.
ghost use Rattle.std.specs.Prelude.{◌≡◌, ◌<◌, ◌≤◌, ◌^◌, ℕ, IfOk, IsSome, Some, length, min};
ghost use Rattle.best_cell.specs.Told.{last_of, Follows, IsFront};
ghost use Rattle.board_lock.specs.Best.{IsBestAt};
ghost use Rattle.search_core.specs.Board.{book_at};
ghost use Rattle.search_core.specs.Core.{hand};
ghost use Rattle.search_core.specs.Kept.{cuts_in};

use advice::Ask;
use best_cell::Reader;
use board_lock::{Begun, BestOf};
use break_rules::NoMemory;
use search_core::Board;
use std::sync::Wait;

/// What to ask for the node in a worker's hand, which has that floor where the best rota has that cost, with what the board knows
/// already of it.
pub(crate) fn ask_of<B: Board>(
    board: &B,
    worker: u32,
    floor: u64,
    best: u64,
) -> Result<Ask, NoMemory>
    requires worker { worker < 16 }
    requires full { IsSome (hand (B.seen board.now).hands worker) }
    ensures cuts { IfOk result (λ ask. (k : ℕ) → hand (B.seen board.now).hands worker ≡ Some k → ask.cuts ≡ cuts_in (book_at (B.seen board.now)).nodes k) }
    ensures few { IfOk result (λ ask. length ask.cuts ≤ 2 ^ 24) }
    ensures floor { IfOk result (λ ask. ask.floor ≡ floor) }
    ensures best { IfOk result (λ ask. ask.best ≡ best) }
{
    let cuts = board.cuts(worker)?;
    let hint = board.hint(worker)?;
    Ok(Ask {
        cuts,
        floor,
        best,
        hint,
    })
}

/// What to ask once the worker has passed the gate: the best cost is the lesser of what was known at its turn and what it reads now. What it reads is
/// what the best rota costs on a board that turns of the workers have made of the first one, and never goes back.
pub(crate) fn with_newest<L: Begun, R: Wait>(
    rt: &R,
    reader: &mut Reader<BestOf<L>>,
    ask: Ask,
) -> Ask
    ensures best { result.best ≡ min ask.best (last_of reader.new).1 }
    ensures is_best { IsBestAt L.begun_at L.begun_by (last_of reader.new).0 (last_of reader.new).1 }
    ensures begins { IsFront reader.old reader.new }
    ensures follows { Follows (last_of reader.old) (last_of reader.new) }
    ensures cuts { result.cuts ≡ ask.cuts }
    ensures floor { result.floor ≡ ask.floor }
{
    let Ask {
        cuts,
        floor,
        best,
        hint,
    } = ask;
    let (_, told) = reader.read(rt);
    Ask {
        cuts,
        floor,
        best: best.min(told),
        hint,
    }
}

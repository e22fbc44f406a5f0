//! Laws of turns at a board. Each function's contract is the law; the functions do nothing.
ghost use Rattle.std.specs.Prelude.{◌≡◌, ◌+◌, ◌*◌, ◌≤◌, ℕ};
ghost use Rattle.search_core.specs.Board.{BoardView};
ghost use Rattle.search_core.specs.Calls.{AreCalls, IsFresh};
ghost use Rattle.search_core.specs.Core.{IsFront};
ghost use Rattle.board_lock.specs.Turns.{plans_since, prices_since, AreTurns};

/// Turns of workers are calls on the board, one after another, with as many commits that answered `Ok`.
pub fn turns_are_calls()
    ensures { (workers : ℕ) (old new : BoardView) (commits : ℕ) → AreTurns workers old new commits → AreCalls old new commits }
{}

/// No turn changes the instance, the budget or the origin of a board, and its posts begin with those that it had before.
pub fn turns_keep_the_search()
    ensures instance { (workers : ℕ) (old new : BoardView) (commits : ℕ) → AreTurns workers old new commits → new.instance ≡ old.instance }
    ensures budget { (workers : ℕ) (old new : BoardView) (commits : ℕ) → AreTurns workers old new commits → new.budget ≡ old.budget }
    ensures origin { (workers : ℕ) (old new : BoardView) (commits : ℕ) → AreTurns workers old new commits → new.origin ≡ old.origin }
    ensures begins { (workers : ℕ) (old new : BoardView) (commits : ℕ) → AreTurns workers old new commits → IsFront old.history new.history }
{}

/// From a board as it is opened, the commits that answered `Ok` are at most the prices that were posted since, and for each
/// plan that was posted since as many as there are workers: a commit without prices has made a plan itself, or another worker's
/// plan had closed its node.
pub fn commits_are_few()
    ensures { (workers : ℕ) (old new : BoardView) (commits : ℕ) → IsFresh old → AreTurns workers old new commits
        → commits ≤ prices_since old.history new.history + workers * plans_since old.history new.history }
{}

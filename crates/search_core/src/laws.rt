//! Laws of books and of runs. Each function's contract is the law; the functions do nothing.
ghost use Rattle.std.specs.Prelude.{◌≡◌, ◌+◌, ◌*◌, ◌^◌, ◌<◌, ◌≤◌, ◌++◌, ℕ, Any, IsTrue, IsFalse, List, [], Option, None, Some, length, slice_set, take};
ghost use Rattle.std.specs.List.{list_all};
ghost use Rattle.shift_instance.specs.declared.Duty.{Duty};
ghost use Rattle.shift_instance.specs.Problem.{Problem};
ghost use Rattle.shift_instance.specs.Rota.{is_legal_rota, cost};
ghost use Rattle.head_splits.specs.Cuts.{meets};
ghost use Rattle.head_splits.specs.Nodes.{Node};
ghost use Rattle.head_splits.specs.Settled.{span};
ghost use Rattle.post_codec.specs.declared.post.Post.{Post};
ghost use Rattle.search_core.specs.declared.board.CommitFault.{CommitFault};
ghost use Rattle.search_core.specs.declared.board.Kept.{Kept};
ghost use Rattle.search_core.specs.declared.board.Taken.{Taken};
ghost use Rattle.search_core.specs.declared.board.Taken.TheVariants.{Node as TakenNode};
ghost use Rattle.search_core.specs.declared.event.Event.{Event};
ghost use Rattle.search_core.specs.declared.event.Event.TheVariants.{Commit, Crash, Take, Yield};
ghost use Rattle.search_core.specs.declared.step_posts.StepPosts.{StepPosts};
ghost use Rattle.search_core.specs.Board.{BoardView, core_of, posts_at, yields, Commits, CommitRefuses, IsSoundBoard, TakeMakes};
ghost use Rattle.search_core.specs.Book.{Book, book_after, book_of, floor_of, is_open, is_finished, IsLeastFloor, IsSound};
ghost use Rattle.search_core.specs.Calls.{full_hands, gives_node, steps_enough, AreCalls, IsFresh};
ghost use Rattle.search_core.specs.Core.{Core, hand, is_of, opened, start, run, happens, HoldsApart, IsSoundCore, IsFront};
ghost use Rattle.search_core.specs.Steps.{after_step, posts_of};

use crate::State;

/// Where posts make a book, it is sound.
pub fn fold_is_sound()
    ensures { (i : Problem) (posts : List Post) (b : Book) → book_of i posts ≡ Some b → IsSound i b }
{}

/// The floor of a book is the least of the cost of its best rota and the floors of its unsplit nodes. No legal rota costs
/// less than the floor of a sound book, and each legal rota that is cheaper than the best lies below an open node.
pub fn floor_is_least()
    ensures least { (b : Book) → IsLeastFloor b (floor_of b) }
    ensures bound { (i : Problem) (b : Book) (rota : List Duty) → IsSound i b → IsTrue (is_legal_rota i rota) → floor_of b ≤ cost i rota }
    ensures cheaper { (i : Problem) (b : Book) (rota : List Duty) → IsSound i b → IsTrue (is_legal_rota i rota) → cost i rota < b.cost
        → Any (λ (n : Node). IsTrue (is_open b n) × IsTrue (meets rota n.cuts)) b.nodes }
{}

/// Each core of each run has posts that make a sound book, hands that hold distinct unsplit nodes of it, and no more
/// acknowledged posts than posts. A crash leaves the first of the posts, with all that were acknowledged among them.
pub fn every_run()
    ensures sound { (i : Problem) (events : List Event) (c : Core) → run i start events ≡ Some c → IsSoundCore i c }
    ensures crash { (i : Problem) (events : List Event) (c d : Core) (keep : ℕ)
        → run i start events ≡ Some c → happens i c (Crash keep) ≡ Some d
        → IsFront (take c.acked c.history) d.history × IsFront d.history c.history }
{}

/// A run may begin at any posts that make a book, whatever workers they carry. Each of its cores is sound, and its posts begin
/// with these. A crash leaves the first of the posts, with all that were acknowledged among them.
pub fn runs_begin_at_any_posts()
    ensures sound { (i : Problem) (posts : List Post) (b : Book) (events : List Event) (c : Core)
        → book_of i posts ≡ Some b → run i (opened posts) events ≡ Some c → IsSoundCore i c }
    ensures begins { (i : Problem) (posts : List Post) (b : Book) (events : List Event) (c : Core)
        → book_of i posts ≡ Some b → run i (opened posts) events ≡ Some c → IsFront posts c.history }
    ensures crash { (i : Problem) (posts : List Post) (b : Book) (events : List Event) (c d : Core) (keep : ℕ)
        → book_of i posts ≡ Some b → run i (opened posts) events ≡ Some c → happens i c (Crash keep) ≡ Some d
        → IsFront (take c.acked c.history) d.history × IsFront d.history c.history }
{}

/// The best rota of a finished book is cheapest, and its cost is the book's floor.
pub fn finished_is_cheapest()
    ensures cheapest { (i : Problem) (b : Book) (rota : List Duty) → IsSound i b → IsTrue (is_finished b) → IsTrue (is_legal_rota i rota) → b.cost ≤ cost i rota }
    ensures floor { (b : Book) → IsTrue (is_finished b) → floor_of b ≡ b.cost }
{}

/// Two states of one instance without an open node have the same cost and the same floor.
pub fn finished_agree(one: &State, other: &State)
    requires instance { one.now.instance ≡ other.now.instance }
    requires one { IsTrue (is_finished one.now.book) }
    requires other { IsTrue (is_finished other.now.book) }
    ensures cost { one.now.book.cost ≡ other.now.book.cost }
    ensures floor { floor_of one.now.book ≡ floor_of other.now.book }
{
    let _ = (one.cost(), other.cost());
}

/// The nodes of a book, and one more, are at most twice two to the power of the root's span.
pub fn few_nodes()
    ensures { (i : Problem) (posts : List Post) (b : Book) → book_of i posts ≡ Some b → length b.nodes + 1 ≤ 2 * 2 ^ span i [] }
{}

/// Where a worker whose hand is empty takes a node of a board, the core with the board's posts and hands has the same take.
/// Where it commits a step, the core has the commit of the step's posts, and where it lets go of its node, the core has the
/// yield. Each acknowledges the posts before it. A take that gives no node and a commit that is refused leave posts and hands.
pub fn boards_are_cores()
    ensures take { (old new : BoardView) (acked w k floor best : ℕ)
        → IsSoundBoard old → w < 16 → hand old.hands w ≡ None → TakeMakes (TakenNode k floor best) w old new
        → happens old.instance (core_of acked old) (Take w k) ≡ Some (core_of (length old.history) new) }
    ensures commit { (old new : BoardView) (acked w : ℕ) (step : StepPosts) (kept : Kept)
        → IsSoundBoard new → Commits w step old new kept
        → happens old.instance (core_of acked old) (Commit w (posts_at old w step)) ≡ Some (core_of (length old.history) new) }
    ensures yields { (old new : BoardView) (acked w : ℕ) → w < 16 → new ≡ yields w old
        → happens old.instance (core_of acked old) (Yield w) ≡ Some (core_of (length old.history) new) }
    ensures no_node { (old new : BoardView) (acked w : ℕ) (answer : Taken)
        → IsFalse (gives_node answer) → TakeMakes answer w old new → core_of acked new ≡ core_of acked old }
    ensures refusal { (old new : BoardView) (acked w : ℕ) (step : StepPosts) (fault : CommitFault)
        → CommitRefuses w step old new fault → core_of acked new ≡ core_of acked old }
{}

/// Each post of a worker's step carries that worker, and is a plan or names the step's node. A commit adds such posts alone.
pub fn posts_are_own()
    ensures step { (i : Problem) (b : Book) (w : ℕ) (step : StepPosts) → IsTrue (list_all (is_of w step.node) (posts_of i b w step)) }
    ensures commit { (old new : BoardView) (w : ℕ) (step : StepPosts) (kept : Kept) → Commits w step old new kept
        → (posts : List Post) × (new.history ≡ old.history ++ posts) × IsTrue (list_all (is_of w step.node) posts) }
{}

/// Of calls on a board as it is opened, whoever makes them: the commits that answered `Ok` and the hands that hold a node are
/// together at most the steps taken, and just these while no worker let go of its node. The steps taken are at most those after
/// which each search of the instance is finished, also where the budget is greater.
pub fn steps_are_counted()
    ensures within { (old new : BoardView) (commits : ℕ) → IsFresh old → AreCalls old new commits → commits + full_hands new.hands ≤ new.taken }
    ensures exact { (old new : BoardView) (commits : ℕ) → IsFresh old → AreCalls old new commits → IsFalse new.halted
        → commits + full_hands new.hands ≡ new.taken }
    ensures enough { (old new : BoardView) (commits : ℕ) → IsFresh old → AreCalls old new commits → new.taken ≤ steps_enough old.instance }
{}

/// Where a worker adds posts that are its own, for the node in its hand, and lets go of the node, the hands hold distinct
/// unsplit nodes as before. So it is with the posts of its step.
pub fn others_stay_held()
    ensures posts { (i : Problem) (b c : Book) (hands : List (Option ℕ)) (w x : ℕ) (posts : List Post)
        → HoldsApart b hands → hand hands w ≡ Some x → IsTrue (list_all (is_of w x) posts) → book_after i b posts ≡ Some c
        → HoldsApart c (slice_set hands w None) }
    ensures step { (i : Problem) (b : Book) (hands : List (Option ℕ)) (w : ℕ) (step : StepPosts)
        → HoldsApart b hands → hand hands w ≡ Some step.node → HoldsApart (after_step i b w step) (slice_set hands w None) }
{}

/// Each event that is allowed keeps a core sound.
pub fn events_keep_sound()
    ensures { (i : Problem) (c d : Core) (event : Event) → IsSoundCore i c → happens i c event ≡ Some d → IsSoundCore i d }
{}

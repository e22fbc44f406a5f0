//! Searches below some cuts.
ghost use Rattle.std.specs.Prelude.{◌≡◌, ◌⊎◌, ◌<◌, ◌≤◌, ◌^◌, IfOk, IsTrue, MatchOption, length, true};
ghost use Rattle.shift_instance.specs.declared.TheConstants.{TOP};
ghost use Rattle.head_splits.specs.Nodes.{Node};
ghost use Rattle.report_grafts.specs.Run.{is_finished};
ghost use Rattle.subtree_search.specs.Searching.{top, IsNext};
ghost use Rattle.subtree_search.specs.Stepping.{steps_enough, IsGreedyRun, IsSearched, WhyEnds};

use crate::search::Search;
use crate::stepping::step;
use advice::{Adviser, Never, Stop};
use advisers::Greedy;
use break_rules::NoMemory;
use dual_bound::Buffers;
use head_splits::Cuts;
use report_grafts::SubRun;
use shift_instance::Instance;
use std::alloc::Global;

/// The node that a search takes next, where fewer steps are taken than the budget has and the stop doesn't ask.
fn next_within<S: Stop>(search: &Search, budget: u64, stop: &S) -> Option<usize>
    requires { search.now.taken ≤ budget }
    ensures { MatchOption result (WhyEnds budget (S.can_ask stop.now) search.now) (λ k. (search.now.taken < budget) × ((n : Node) × IsNext search.now.nodes (top search.now) k n)) }
{
    if search.taken() == budget || stop.is_asked() {
        return None;
    }
    search.next()
}

/// Searches below some cuts for rotas that cost less than the limit, with an adviser. A step takes the open node of least floor, and
/// among those of least number. It keeps the advised plan as best where that is legal, meets the cuts and costs less than the limit and
/// than the best so far; it prices the node by the advised prices where they are a price set, and else by price 0; and where the node is
/// still open then, it splits it or settles it.
///
/// The search ends where no node is open, as many steps are taken as the budget has, or the stop asks. The only refusal is running out
/// of memory.
pub fn solve_below_by<A: Adviser, S: Stop>(
    alloc: Global,
    instance: &Instance,
    base: Cuts,
    limit: u64,
    budget: u64,
    adviser: &mut A,
    stop: &S,
) -> Result<SubRun, NoMemory>
    requires few { length base ≤ 2 ^ 28 }
    requires limit { limit ≤ TOP }
    requires budget { budget ≤ 10 ^ 9 }
    ensures searched { IfOk result (IsSearched instance.now base limit budget) }
    ensures ends { IfOk result (λ run. IsTrue (is_finished run) ⊎ ((run.taken ≡ budget) ⊎ (S.can_ask stop.now ≡ true))) }
    ensures enough { steps_enough instance.now base ≤ budget → IfOk result (λ run. IsTrue (is_finished run) ⊎ (S.can_ask stop.now ≡ true)) }
{
    let _valid = instance.slots();
    let mut buffers = Buffers::new(alloc, instance);
    let mut search = Search::opening(alloc, base, limit)?;
    while let Some(node) = next_within(&search, budget, stop) {
        let ask = search.ask(alloc, node)?;
        let advice = adviser.advise(instance, &ask)?;
        search = step(alloc, instance, &mut buffers, search, node, advice)?;
        adviser.learn(&search.news(node));
    }
    search.into_run(alloc, instance)
}

/// Searches below some cuts as [`solve_below_by`] does, with the greedy adviser, until no node is open or as many steps are taken as the
/// budget has.
pub fn solve_below(
    alloc: Global,
    instance: &Instance,
    base: Cuts,
    limit: u64,
    budget: u64,
) -> Result<SubRun, NoMemory>
    requires few { length base ≤ 2 ^ 28 }
    requires limit { limit ≤ TOP }
    requires budget { budget ≤ 10 ^ 9 }
    ensures searched { IfOk result (IsSearched instance.now base limit budget) }
    ensures greedy { IfOk result (IsGreedyRun instance.now base limit) }
    ensures ends { IfOk result (λ run. IsTrue (is_finished run) ⊎ (run.taken ≡ budget)) }
    ensures enough { steps_enough instance.now base ≤ budget → IfOk result (λ run. IsTrue (is_finished run)) }
{
    let _valid = instance.slots();
    let mut greedy = Greedy::of_first(alloc);
    let mut buffers = Buffers::new(alloc, instance);
    let mut search = Search::opening(alloc, base, limit)?;
    while let Some(node) = next_within(&search, budget, &Never) {
        let ask = search.ask(alloc, node)?;
        let advice = greedy.advise(instance, &ask)?;
        search = step(alloc, instance, &mut buffers, search, node, advice)?;
    }
    search.into_run(alloc, instance)
}

//! The posts of a step, drafted one after another.
ghost use Rattle.std.specs.Prelude.{◌≡◌, ◌<◌, ◌^◌, ◌≤◌, ◌+◌, ◌++◌, ◌∷◌, [], Bool, IsTrue, List, ℕ, false, length, IfSome, OnOk, Some};
ghost use Rattle.shift_instance.specs.Problem.{Problem};
ghost use Rattle.shift_instance.specs.Valid.{IsValid};
ghost use Rattle.head_splits.specs.declared.Cut.{Cut};
ghost use Rattle.head_splits.specs.Cuts.{low, high};
ghost use Rattle.head_splits.specs.Nodes.{settled_floor};
ghost use Rattle.head_splits.specs.Settled.{is_live_class, is_settled};
ghost use Rattle.post_codec.specs.declared.post.Post.{Post};
ghost use Rattle.post_codec.specs.declared.post.Post.TheVariants.{Priced, Split, Settled};
ghost use Rattle.search_core.specs.Book.{Book};
ghost use Rattle.search_core.specs.Steps.{followed_by, plan_posts, where_open};
ghost use Rattle.rota_cost.specs.Costed.{IsCosted};
ghost use Rattle.search_core.specs.Drafting.{best_with, floor_with, IsDraft};

use break_rules::NoMemory;
use dual_bound::Proved;
use head_splits::Class;
use post_codec::Post;
use rota_cost::Costed;

/// The posts that a step makes of a book for a node, the number that goes with each, the best cost after them, and the node's
/// floor.
#[derive(Drop)]
pub struct StepDraft {
    /// The posts, in their order.
    pub posts: Vec<Post>,
    /// What goes with each: what a plan costs, the bound of prices, the floor of a node that is split, or the floor that a
    /// settled node gets.
    pub values: Vec<u64>,
    /// What the best rota costs after them.
    pub best: u64,
    /// The node's floor after them.
    pub floor: u64,
}

/// The best cost after a plan, where there is one.
pub(crate) fn best_with(plan: &Option<Costed>, best: u64) -> u64
    ensures best { result ≡ best_with plan.now best }
    ensures costed { IfSome plan.now IsCosted }
{
    match plan {
        Some(plan) => {
            if plan.cost() < best {
                plan.cost()
            } else {
                best
            }
        }
        None => best,
    }
}

/// The floor of a node after its price, which is posted where the node is open.
pub(crate) fn floor_with(bound: u64, best: u64, floor: u64) -> u64
    ensures { result ≡ floor_with bound best floor }
{
    if floor < best {
        floor.max(bound)
    } else {
        floor
    }
}

impl StepDraft {
    /// Drafts a post, with the number that goes with it.
    fn keep(&mut self, post: Post, value: u64) -> Result<(), NoMemory>
        ensures post { OnOk result (self.new.posts.items ≡ self.old.posts.items ++ post ∷ []) }
        ensures value { OnOk result (self.new.values.items ≡ self.old.values.items ++ value ∷ []) }
        ensures rest { OnOk result ((self.new.best ≡ self.old.best) × (self.new.floor ≡ self.old.floor)) }
    {
        self.posts.push(post)?;
        self.values.push(value)?;
        Ok(())
    }

    /// Drafts a worker's plan, where there is one and it is cheaper than the best.
    pub(crate) fn add_plan(&mut self, worker: u16, plan: Option<Costed>) -> Result<(), NoMemory>
        ensures drafts { (i : Problem) (b : Book) (k : ℕ) (cuts : List Cut) (posts : List Post) → IsValid i → IfSome plan (λ p. p.instance ≡ i) → IsDraft i b k cuts posts self.old false
            → OnOk result (IsDraft i b k cuts (followed_by i b posts (plan_posts worker plan)) self.new false) }
        ensures few { OnOk result (length self.new.posts.items ≤ length self.old.posts.items + 1) }
    {
        if let Some(plan) = plan {
            let cost = plan.cost();
            if cost < self.best {
                let rows = plan.into_rows();
                let post = Post::Plan { worker, rows, cost };
                self.keep(post, cost)?;
                self.best = cost;
            }
        }
        Ok(())
    }

    /// Drafts the prices of a node, where it is open.
    pub(crate) fn add_prices(
        &mut self,
        worker: u16,
        node: u32,
        proved: Proved,
    ) -> Result<(), NoMemory>
        requires { length proved.cuts < 2 ^ 32 }
        ensures drafts { (i : Problem) (b : Book) (posts : List Post) → IsValid i → proved.instance ≡ i → IsDraft i b node proved.cuts posts self.old false
            → OnOk result (IsDraft i b node proved.cuts (followed_by i b posts (where_open node (Priced worker node proved.prices))) self.new false) }
        ensures few { OnOk result (length self.new.posts.items ≤ length self.old.posts.items + 1) }
    {
        if self.floor < self.best {
            let value = proved.bound();
            let (_cuts, prices) = proved.into_parts();
            let post = Post::Priced {
                worker,
                node,
                prices,
            };
            self.keep(post, value)?;
            self.floor = self.floor.max(value);
        }
        Ok(())
    }

    /// Drafts a split of a node by the number of a class, where the node is open.
    pub(crate) fn add_split(
        &mut self,
        worker: u16,
        node: u32,
        class: Class,
        m: u16,
    ) -> Result<(), NoMemory>
        ensures drafts { (i : Problem) (b : Book) (cuts : List Cut) (posts : List Post) → IsValid i → IsTrue (is_live_class i class) → low cuts class ≤ m → m < high i cuts class → IsDraft i b node cuts posts self.old false
            → OnOk result ((s : Bool) × IsDraft i b node cuts (followed_by i b posts (where_open node (Split worker node class m))) self.new s) }
        ensures few { OnOk result (length self.new.posts.items ≤ length self.old.posts.items + 1) }
    {
        if self.floor < self.best {
            let value = self.floor;
            let post = Post::Split {
                worker,
                node,
                class,
                m,
            };
            self.keep(post, value)?;
        }
        Ok(())
    }

    /// Drafts that a node is settled with that floor, where it is open.
    pub(crate) fn add_settled(&mut self, worker: u16, node: u32, floor: u64) -> Result<(), NoMemory>
        ensures drafts { (i : Problem) (b : Book) (cuts : List Cut) (posts : List Post) → IsTrue (is_settled i cuts) → floor ≡ settled_floor i cuts → IsDraft i b node cuts posts self.old false
            → OnOk result ((s : Bool) × IsDraft i b node cuts (followed_by i b posts (where_open node (Settled worker node))) self.new s) }
        ensures few { OnOk result (length self.new.posts.items ≤ length self.old.posts.items + 1) }
    {
        if self.floor < self.best {
            let post = Post::Settled { worker, node };
            self.keep(post, floor)?;
            self.floor = floor;
        }
        Ok(())
    }
}

//! A plan's cover, numbers of duties and rows, which change together.
ghost use Rattle.std.specs.Prelude.{◌≡◌, ℕ, Bool, ◌+◌, ◌≤◌, ◌<◌, ◌++◌, ◌∷◌, [], IsTrue, count_by, length, not, vec_capacity, vec_len};
ghost use Rattle.rota_cost.specs.Cover.{without};
ghost use Rattle.shift_instance.specs.declared.Duty.{Duty};
ghost use Rattle.shift_instance.specs.Rota.{count_of, heads_on, is_legal_duty};
ghost use Rattle.greedy.specs.Drafts.{IsDraft};
ghost use Rattle.local_moves.specs.Drafting.{IsExchanged};

use crate::places::{add_one, take_one};
use rota_cost::Cover;
use shift_instance::{Duty, Instance, Row};

/// Takes a duty away that is there. It takes no memory.
fn take(instance: &Instance, cover: &mut Cover, heads: &mut [u16], rows: &mut Vec<Row>, duty: &Duty)
    requires draft { IsDraft instance.now cover.old heads.old rows.old.items }
    requires there { 0 < count_of cover.old.duties duty.now }
    ensures draft { IsDraft instance.now cover.new heads.new rows.new.items }
    ensures duties { cover.new.duties ≡ without duty.now cover.old.duties }
    ensures capacity { vec_capacity rows.new ≡ vec_capacity rows.old }
    ensures len { vec_len rows.new ≤ vec_len rows.old }
{
    cover.remove(instance, duty);
    let at = usize::from(duty.shift) * usize::from(instance.days()) + usize::from(duty.day);
    heads[at] -= 1;
    take_one(rows, duty);
}

/// Adds a legal duty, for which there is room. It takes no memory.
fn put(instance: &Instance, cover: &mut Cover, heads: &mut [u16], rows: &mut Vec<Row>, duty: Duty)
    requires draft { IsDraft instance.now cover.old heads.old rows.old.items }
    requires legal { IsTrue (is_legal_duty instance.now duty) }
    requires heads { heads_on cover.old.duties duty.shift duty.day < instance.now.heads }
    requires room { vec_len rows.old < vec_capacity rows.old }
    ensures draft { IsDraft instance.now cover.new heads.new rows.new.items }
    ensures duties { cover.new.duties ≡ cover.old.duties ++ duty ∷ [] }
    ensures capacity { vec_capacity rows.old ≤ vec_capacity rows.new }
    ensures len { vec_len rows.new ≤ vec_len rows.old + 1 }
{
    cover.add(instance, &duty);
    let at = usize::from(duty.shift) * usize::from(instance.days()) + usize::from(duty.day);
    heads[at] += 1;
    add_one(rows, duty);
}

/// Takes duties away that are there. It takes no memory.
pub(crate) fn take_all(
    instance: &Instance,
    cover: &mut Cover,
    heads: &mut [u16],
    rows: &mut Vec<Row>,
    gone: &[Duty],
)
    requires draft { IsDraft instance.now cover.old heads.old rows.old.items }
    requires there { (d : Duty) → count_of gone.now d ≤ count_of cover.old.duties d }
    ensures draft { IsDraft instance.now cover.new heads.new rows.new.items }
    ensures duties { IsExchanged cover.old.duties gone.now [] cover.new.duties }
    ensures capacity { vec_capacity rows.new ≡ vec_capacity rows.old }
    ensures len { vec_len rows.new ≤ vec_len rows.old }
{
    for duty in gone {
        take(instance, cover, heads, rows, duty);
    }
}

/// Adds legal duties, for which there is room. It takes no memory.
pub(crate) fn put_all(
    instance: &Instance,
    cover: &mut Cover,
    heads: &mut [u16],
    rows: &mut Vec<Row>,
    made: Vec<Duty>,
)
    requires draft { IsDraft instance.now cover.old heads.old rows.old.items }
    requires legal { count_by (λ d. not (is_legal_duty instance.now d)) made.items ≡ 0 }
    requires heads { (s day : ℕ) → heads_on cover.old.duties s day + heads_on made.items s day ≤ instance.now.heads }
    requires room { vec_len rows.old + vec_len made ≤ vec_capacity rows.old }
    ensures draft { IsDraft instance.now cover.new heads.new rows.new.items }
    ensures duties { IsExchanged cover.old.duties [] made.items cover.new.duties }
{
    let mut rest = made;
    while let Some(duty) = rest.pop() {
        put(instance, cover, heads, rows, duty);
    }
}

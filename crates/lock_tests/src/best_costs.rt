//! A cell that one thread tells while two others read it.
ghost use Rattle.std.specs.Prelude.{◌≡◌, [], ◌∷◌};
ghost use Rattle.best_cell.specs.Told.{last_of};

use best_cell::{Reader, Teller, pair};
use std::marker::Brand;
use std::sync::Wait;
use std::test::Fail;
use std::thread::{Threads, join};

/// How many pairs are told behind the first.
const PAIRS: u64 = 2_000;

#[test]
fn the_pair_told_last_is_read(rt: HostRuntime) -> Result<(), Fail> {
    let (mut teller, mut reader) = pair::<Brand, _>(&rt, rt.alloc(), 3, 40)?;
    assert_eq!(rt; reader.read(&rt), (3, 40));
    teller.tell(&rt, 5, 40);
    teller.tell(&rt, 7, 31);
    let mut other = reader.split()?;
    assert_eq!(rt; reader.read(&rt), (7, 31));
    teller.tell(&rt, 7, 31);
    teller.tell(&rt, 9, 0);
    assert_eq!(rt; other.read(&rt), (9, 0));
    assert_eq!(rt; reader.read(&rt), (9, 0));
    Ok(())
}

/// Tells pairs whose posts and cost are together always as many.
fn tell_all<R: Wait>(rt: &R, teller: Teller<Brand>)
    requires { teller ≡ (0, 2000) ∷ [] }
{
    let mut teller = teller;
    for posts in 1..PAIRS + 1 {
        teller.tell(rt, posts, PAIRS - posts);
    }
}

/// Reads until the last pair is told, and counts what no reader may find: a pair that was never told, or an earlier one than before.
fn faults<R: Wait>(rt: &R, reader: Reader<Brand>) -> u32 {
    let mut reader = reader;
    let mut faults = 0u32;
    let mut before = 0;
    for _ in rt.forever() {
        let (posts, cost) = reader.read(rt);
        if posts > PAIRS || cost != PAIRS - posts || posts < before {
            faults = faults.saturating_add(1);
        }
        if posts >= PAIRS {
            break;
        }
        before = posts;
    }
    faults
}

fn read_while_told<R: Threads + Wait + Sync>(
    rt: &R,
    teller: Teller<Brand>,
    one: Reader<Brand>,
    other: Reader<Brand>,
) -> (u32, u32)
    requires { teller ≡ (0, 2000) ∷ [] }
{
    join(
        rt,
        ||
            requires { teller ≡ (0, 2000) ∷ [] }
        { tell_all(rt, teller) },
        || join(rt, || faults(rt, one), || faults(rt, other)),
    )
    .1
}

#[test]
fn readers_never_go_back(rt: HostRuntime) -> Result<(), Fail> {
    let (teller, mut one) = pair::<Brand, _>(&rt, rt.alloc(), 0, PAIRS)?;
    let other = one.split()?;
    assert_eq!(rt; read_while_told(&rt, teller, one, other), (0, 0));
    Ok(())
}

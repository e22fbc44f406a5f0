// A lock round a value with a root.
ghost use Rattle.std.specs.Prelude.{◌≡◌, IfErr, IfOk};
ghost use Rattle.board_lock.specs.Passes.{root_of, IsInside, IsOutside};

use crate::rule::{Copies, Frees, Guard, Retires, Rooted, Tries};
use crate::view::View;
use atomic_table::{Refused, Seat, Table};
use std::alloc::Global;
use std::marker::Model;
use std::snapshot::Snapshot;
use std::sync::Wait;
use std::thread::yield_now;
use std::time::Duration;

/// How often in a row a thread that finds the lock taken lets others go on before it sleeps.
const YIELDS: u32 = 16;

/// The longest that it sleeps before it looks at the lock again, in microseconds: it is woken where the lock is freed before.
const LONGEST_SLEEP: u64 = 1_000;

/// A lock round a value. Contracts see it as its name, which no other lock has.
pub struct Lock<T: Rooted> {
    table: Table<Option<T>, View<T::Root>, Snapshot<T>, Guard<T>, Global>,
}

impl<T: Rooted> Model for Lock<T> {
    ghost use Rattle.std.specs.Prelude.{◌≡◌};
    ghost use Rattle.atomic_table.specs.Seated.{TableId, table_id_coded};

    ghost Value = { TableId };

    ghost coded = { table_id_coded };

    ghost view = { λ l. l.table.shared.table_id };

    ghost invariant = { λ l. (l.table.shared.table_id.words ≡ 1) × (l.table.shared.table_id.slots ≡ 1) };
}

/// A seat at the lock of a `T`, with which a thread enters and leaves. It knows the root of the value.
pub type Pass<T, R> = Seat<Option<T>, View<R>>;

impl<T: Rooted> Lock<T> {
    /// A lock round a value, and its first seat. Without memory the value comes back.
    pub fn new(alloc: Global, value: T) -> Result<(Lock<T>, Pass<T, T::Root>), T>
        ensures seat { IfOk result (λ made. IsOutside made.0 made.1) }
        ensures root { IfOk result (λ made. root_of made.1 ≡ T.root value) }
        ensures refused { IfErr result (λ back. back ≡ value) }
    {
        let key = Snapshot::of(&value);
        let Ok(mut slots) = Vec::with_capacity(alloc, 1) else {
            return Err(value);
        };
        slots.push_reserved(Some(value));
        match Table::new(alloc, &[0], slots, &key) {
            Ok((table, seat)) => Ok((Lock { table }, seat)),
            Err(Refused { mut slots }) => {
                let Some(Some(value)) = slots.pop() else {
                    unreachable!()
                };
                slots.destroy_empty();
                Err(value)
            }
        }
    }

    /// One more seat, which knows what this one knows.
    pub fn another(&self, pass: &mut Pass<T, T::Root>) -> Pass<T, T::Root>
        requires { IsOutside self.now pass.old }
        ensures seat { IsOutside self.now pass.new }
        ensures root { root_of pass.new ≡ root_of pass.old }
        ensures new_seat { IsOutside self.now result }
        ensures new_root { root_of result ≡ root_of pass.old }
    {
        self.table.shared.split_seat::<Copies>(pass)
    }

    /// Waits a while at the lock, which was taken so many times in a row: at first it lets other threads go on, and later it sleeps until the
    /// lock is freed, for a millisecond at most.
    fn wait<R: Wait>(&self, rt: &R, times: u32) {
        if times < YIELDS {
            yield_now();
            return;
        }
        let longest = Duration::from_micros(LONGEST_SLEEP);
        self.table.shared.park_timeout(rt, 0, 1, longest);
    }

    /// Waits until the lock is free, and takes the value out.
    pub fn enter<R: Wait>(&self, rt: &R, pass: &mut Pass<T, T::Root>) -> T
        requires { IsOutside self.now pass.old }
        ensures value { T.root result ≡ root_of pass.old }
        ensures seat { IsInside self.now pass.new }
        ensures root { root_of pass.new ≡ root_of pass.old }
    {
        let shared = &self.table.shared;
        let mut times = 0u32;
        for _ in rt.forever() {
            let found = shared.compare_exchange::<Tries<T>>(pass, 0, 0, 1);
            if found == 0 {
                let Some(value) = shared.exchange(pass, 0, None) else {
                    unreachable!()
                };
                return value;
            }
            self.wait(rt, times);
            times = times.saturating_add(1);
        }
        unreachable!()
    }

    /// Puts a value of the same root back, frees the lock, and wakes a thread that sleeps at it.
    pub fn leave(&self, value: T, pass: &mut Pass<T, T::Root>)
        requires seat { IsInside self.now pass.old }
        requires root { T.root value ≡ root_of pass.old }
        ensures seat { IsOutside self.now pass.new }
        ensures root { root_of pass.new ≡ root_of pass.old }
    {
        let shared = &self.table.shared;
        let before = shared.exchange(pass, 0, Some(value));
        let None = before else { unreachable!() };
        shared.store::<Frees>(pass, 0, 0);
        shared.wake_one(0);
    }

    /// Ends the lock, whose value is out.
    pub fn retire(self, mut pass: Pass<T, T::Root>)
        requires { IsInside self pass }
    {
        let Lock { table } = self;
        table.shared.store::<Retires>(&mut pass, 0, 1);
        let mut closed = table.close_with(pass);
        let last = closed.take(0);
        let None = last else { unreachable!() };
        closed.free();
    }
}

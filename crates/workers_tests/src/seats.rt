//! The morning with the length of its canonical text, and seats for workers.
ghost use Rattle.std.specs.Prelude.{◌≡◌, ◌+◌, All, IfOk, OnOk, length, vec_len};
ghost use Rattle.instance_json.specs.Canonical.{canonical_text};

use advice::{Adviser, Never};
use fixtures::{instance_of, morning_document, morning_of};
use instance_json::canonical;
use plan_base::MemDisk;
use search_book::Book;
use shift_instance::Instance;
use std::alloc::Global;
use std::sync::Wait;
use std::test::Fail;
use std::thread::Threads;
use worker_gate::{Gate, Open, RunEnd, Seat, run_seat, run_workers};

/// The most bytes of a journal.
pub const LIMIT: u32 = 1 << 26;

/// How long the canonical text of an instance is.
fn canonical_len(alloc: Global, instance: &Instance) -> Result<usize, Fail>
    ensures { IfOk result (λ len. len ≡ length (canonical_text instance.now)) }
{
    Ok(canonical(alloc, instance)?.len())
}

/// The morning with at most `heads` duties of its shift, which is a digit. A journal of it begins with 385 bytes.
pub fn morning(alloc: Global, heads: &str) -> Result<Instance, Fail>
    ensures { IfOk result (λ i. length (canonical_text i) ≡ 372) }
{
    as_long(alloc, morning_of(alloc, heads)?)
}

/// A morning on which nobody is needed.
pub fn quiet_morning(alloc: Global) -> Result<Instance, Fail>
    ensures { IfOk result (λ i. length (canonical_text i) ≡ 372) }
{
    let text = morning_document(alloc, "1")?;
    let text = text.replacen(alloc, "1,1,1,1", "0,0,0,0", 1)?;
    as_long(alloc, instance_of(alloc, &text)?)
}

/// The instance, whose canonical text is as long as that of a morning.
fn as_long(alloc: Global, instance: Instance) -> Result<Instance, Fail>
    ensures { IfOk result (λ i. length (canonical_text i) ≡ 372) }
{
    match canonical_len(alloc, &instance)? {
        372 => Ok(instance),
        _ => Err("the document has another length")?,
    }
}

/// One more seat, with this adviser.
pub fn add_seat(seats: &mut Vec<Seat>, adviser: Box<dyn Adviser + Send>) -> Result<(), Fail>
    requires { All (λ s. (s.told ≡ 0) × (s.share ≡ 0)) seats.old.items }
    ensures new { OnOk result (All (λ s. (s.told ≡ 0) × (s.share ≡ 0)) seats.new.items) }
    ensures len { OnOk result (vec_len seats.new ≡ vec_len seats.old + 1) }
{
    seats.push(Seat {
        adviser,
        told: 0,
        share: 0,
    })?;
    Ok(())
}

/// A new seat, with this adviser.
pub fn seat_with(adviser: Box<dyn Adviser + Send>) -> Seat
    ensures told { result.told ≡ 0 }
    ensures share { result.share ≡ 0 }
{
    Seat {
        adviser,
        told: 0,
        share: 0,
    }
}

/// The bytes of the journal of a first step with this adviser, which splits the root and leaves both parts open.
pub fn parted<R: Threads + Sync>(
    rt: &R,
    alloc: Global,
    instance: &Instance,
    adviser: Box<dyn Adviser + Send>,
) -> Result<Vec<u8>, Fail>
    requires { length (canonical_text instance.now) ≡ 372 }
{
    let mut seat = seat_with(adviser);
    let disk = MemDisk::new(alloc, Vec::new(alloc), Vec::new(alloc));
    match Book::open(rt, alloc, instance, disk, 1, LIMIT, 1) {
        Ok(mut book) => {
            run_seat(alloc, instance, &mut book, &mut seat, &Open, &Never);
            Ok(Vec::from_slice(alloc, book.into_disk().bytes())?)
        }
        Err(_) => Err("it isn't opened")?,
    }
}

/// How a run of two workers ends who go on from these bytes of a journal.
pub fn run_two<G: Gate + Sync, R: Threads + Wait + Sync>(
    rt: &R,
    alloc: Global,
    instance: &Instance,
    bytes: Vec<u8>,
    seats: Vec<Seat>,
    gate: &G,
) -> Result<RunEnd, Fail>
    requires canonical { length (canonical_text instance.now) ≡ 372 }
    requires two { vec_len seats ≡ 2 }
    requires new { All (λ s. (s.told ≡ 0) × (s.share ≡ 0)) seats.items }
{
    let disk = MemDisk::new(alloc, bytes, Vec::new(alloc));
    match Book::open(rt, alloc, instance, disk, 100, LIMIT, 2) {
        Ok(book) => {
            let (_book, _seats, end) = run_workers(rt, alloc, instance, book, seats, gate, &Never);
            Ok(end)
        }
        Err(_) => Err("it isn't opened")?,
    }
}

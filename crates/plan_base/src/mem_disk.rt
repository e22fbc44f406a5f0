// A disk in memory. It keeps its first content and what each call did, and so knows the images since each moment.
ghost use Rattle.std.specs.Prelude.{◌≡◌, ◌+◌, ◌-◌, ◌^◌, ◌<◌, ◌≤◌, ◌↔◌, List, ℕ, [], ◌∷◌, ◌++◌, length, reverse, take, replicate, true, None, Some, IfOk, IfSome, IfNone, OnOk, OnErr, IsErr, OnSome, Contains};
ghost use Rattle.std.specs.Option.{option_map};
ghost use Rattle.plan_base.specs.Causes.{CountsFaults};
ghost use Rattle.plan_base.specs.Disk.{overwritten, WritesPart, CutsPart, StepsFrom, IsOnlyImage, TellsAlike, AddsMoment, ReadsAt};
ghost use Rattle.std.proofs.Common.{subst, sym, ◌∙◌};
ghost use Rattle.std.proofs.lemmas.Option.{same_Some};
ghost use Rattle.plan_base.specs.Replay.{content, image_of, image_since, all_fit, newest, mask_of, mask_kept, painted};
ghost use Rattle.plan_base.specs.ReplayLaws.{reads_image, now_since, since_now};

use crate::copying::copy_from;
use crate::faults::{answer, count_fault};
use crate::{Disk, DiskAct, DiskEvent, Failed};
use std::alloc::{AllocError, Global};
use std::snapshot::Snapshot;

/// A disk in memory. It tells its content, and fails at chosen calls. A write, a cut or a sync also fails where no
/// memory is left; then it did nothing.
#[derive(Drop)]
pub struct MemDisk {
    alloc: Global,
    // what it read when it was made, for clauses alone
    first: Snapshot<Vec<u8>>,
    // the calls that did something, oldest first
    log: Vec<DiskEvent>,
    bytes: Vec<u8>,
    // 1 where a byte was written since the last sync, else 0; none where there is no such byte
    mask: Option<Vec<u8>>,
    fails: Vec<u64>,
    calls: u64,
    faults: u64,
    ghost replayed: { bytes.items ≡ content first.value.items (reverse log.items) },
    ghost in_place: { all_fit first.value.items (reverse log.items) ≡ true },
    ghost marked: { mask_kept mask (length bytes.items) ≡ mask_of first.value.items (reverse log.items) },
    ghost numbered: { newest (reverse log.items) ≤ calls },
}

// The old bytes with others at a place.
fn overwrite(alloc: Global, old: &[u8], at: usize, bytes: &[u8]) -> Result<Vec<u8>, AllocError>
    requires { at ≤ length old.now }
    ensures { IfOk result (λ next. next.items ≡ overwritten at bytes.now old.now) }
{
    let mut next = old[..at].to_vec(alloc)?;
    next.extend_from_slice(bytes)?;
    if bytes.len() < old.len() - at {
        next.extend_from_slice(&old[at + bytes.len()..])?;
    }
    Ok(next)
}

// Notes a sync.
fn keep_sync(log: &mut Vec<DiskEvent>, call: u64) -> Result<(), AllocError>
    ensures noted { OnOk result (log.new.items ≡ log.old.items ++ record { call = call; act = DiskAct.Sync } ∷ []) }
    ensures not_noted { OnErr result (log.new.items ≡ log.old.items) }
{
    log.push(DiskEvent {
        call,
        act: DiskAct::Sync,
    })?;
    Ok(())
}

// Notes an act, and puts other bytes in the place of those that are there.
fn note(
    log: &mut Vec<DiskEvent>,
    call: u64,
    act: DiskAct,
    bytes: &mut Vec<u8>,
    next: Vec<u8>,
) -> Result<(), AllocError>
    ensures ok { OnOk result (bytes.new.items ≡ next.items) }
    ensures noted { OnOk result (log.new.items ≡ log.old.items ++ record { call = call; act = act } ∷ []) }
    ensures err { OnErr result (bytes.new.items ≡ bytes.old.items) }
    ensures not_noted { OnErr result (log.new.items ≡ log.old.items) }
{
    log.push(DiskEvent { call, act })?;
    *bytes = next;
    Ok(())
}

// The mask after a write of so many bytes.
fn mark(
    alloc: Global,
    mask: &Option<Vec<u8>>,
    len: usize,
    at: usize,
    count: usize,
) -> Result<Vec<u8>, AllocError>
    requires { at ≤ length (mask_kept mask.now len) }
    ensures { IfOk result (λ v. v.items ≡ overwritten at (replicate count 1) (mask_kept mask.now len)) }
{
    let ones = vec![in alloc; 1u8; count]?;
    match mask {
        None => overwrite(alloc, &vec![in alloc; 0u8; len]?, at, &ones),
        Some(mask) => overwrite(alloc, mask, at, &ones),
    }
}

// Notes a write of these bytes.
fn keep_write(
    alloc: Global,
    log: &mut Vec<DiskEvent>,
    call: u64,
    held: &mut Vec<u8>,
    mask: &mut Option<Vec<u8>>,
    at: u64,
    bytes: &[u8],
) -> Result<(), AllocError>
    requires place { at ≤ length held.old.items }
    requires alike { length (mask_kept mask.old (length held.old.items)) ≡ length held.old.items }
    ensures ok { OnOk result (held.new.items ≡ overwritten at bytes.now held.old.items) }
    ensures noted { OnOk result ((v : _) × (v.items ≡ bytes.now) × (log.new.items ≡ log.old.items ++ record { call = call; act = DiskAct.Write at v } ∷ [])) }
    ensures marked { OnOk result (mask_kept mask.new (length held.new.items) ≡ overwritten at (replicate (length bytes.now) 1) (mask_kept mask.old (length held.old.items))) }
    ensures err { OnErr result (held.new.items ≡ held.old.items) }
    ensures not_noted { OnErr result (log.new.items ≡ log.old.items) }
    ensures not_marked { OnErr result (mask.new ≡ mask.old) }
{
    let next = overwrite(alloc, held, at as usize, bytes)?;
    let marks = mark(alloc, mask, held.len(), at as usize, bytes.len())?;
    let copy = Vec::from_slice(alloc, bytes)?;
    note(log, call, DiskAct::Write(at, copy), held, next)?;
    *mask = Some(marks);
    Ok(())
}

// Notes a cut to a length.
fn keep_cut(
    alloc: Global,
    log: &mut Vec<DiskEvent>,
    call: u64,
    held: &mut Vec<u8>,
    mask: &mut Option<Vec<u8>>,
    len: u64,
) -> Result<(), AllocError>
    requires { len ≤ length held.old.items }
    ensures ok { OnOk result (held.new.items ≡ take len held.old.items) }
    ensures noted { OnOk result (log.new.items ≡ log.old.items ++ record { call = call; act = DiskAct.Shorten len } ∷ []) }
    ensures marked { OnOk result (mask_kept mask.new (length held.new.items) ≡ take len (mask_kept mask.old (length held.old.items))) }
    ensures err { OnErr result (held.new.items ≡ held.old.items) }
    ensures not_noted { OnErr result (log.new.items ≡ log.old.items) }
    ensures not_marked { OnErr result (mask.new ≡ mask.old) }
{
    let next = Vec::from_slice(alloc, &held[..len as usize])?;
    note(log, call, DiskAct::Shorten(len), held, next)?;
    if let Some(mask) = mask {
        mask.truncate(len as usize);
    }
    Ok(())
}

// The bytes, with another in place of each that is marked.
fn paint(alloc: Global, bytes: &[u8], mask: &[u8], byte: u8) -> Result<Vec<u8>, AllocError>
    ensures { IfOk result (λ v. v.items ≡ painted byte bytes.now mask.now) }
{
    bytes
        .iter()
        .zip(mask.iter())
        .map(|(x, m)| if *m == 1 { byte } else { *x })
        .collect(alloc)
}

impl MemDisk {
    ghost use Rattle.plan_base.specs.Failing.{listed_calls};
    ghost use Rattle.plan_base.specs.Painting.{filled};

    /// A synced disk with this content. `fails` lists the numbers, from 1, of the calls that are to fail. A write or a
    /// cut that is to fail is done all the same; a sync isn't.
    pub fn new(alloc: Global, bytes: Vec<u8>, fails: Vec<u64>) -> MemDisk
        ensures reads { ⟦<MemDisk as Disk>⟧.reads result ≡ Some bytes.items }
        ensures synced { IsOnlyImage bytes.items (⟦<MemDisk as Disk>⟧.images result) }
        ensures calls { ⟦<MemDisk as Disk>⟧.calls result ≡ 0 }
        ensures faults { ⟦<MemDisk as Disk>⟧.faults result ≡ 0 }
        ensures listed { listed_calls result ≡ fails.items }
    {
        MemDisk {
            alloc,
            first: Snapshot::of(&bytes),
            log: Vec::new(alloc),
            bytes,
            mask: None,
            fails,
            calls: 0,
            faults: 0,
        }
    }

    /// A new synced disk, on which no call is to fail, with one of the images: where `fill` is none what this disk
    /// reads, else the same with `fill` in place of each byte written since the last sync.
    pub fn image(&self, fill: Option<u8>) -> Result<MemDisk, AllocError>
        ensures image { IfOk result (λ disk. IfSome (⟦<MemDisk as Disk>⟧.reads disk) (⟦<MemDisk as Disk>⟧.images self.now)) }
        ensures written { IfOk result (λ disk. IfNone fill (⟦<MemDisk as Disk>⟧.reads disk ≡ ⟦<MemDisk as Disk>⟧.reads self.now)) }
        ensures filled { IfOk result (λ disk. IfSome fill (λ byte. ⟦<MemDisk as Disk>⟧.reads disk ≡ Some (filled self.now byte))) }
        ensures synced { IfOk result (λ disk. IfSome (⟦<MemDisk as Disk>⟧.reads disk) (λ file. IsOnlyImage file (⟦<MemDisk as Disk>⟧.images disk))) }
        ensures calls { IfOk result (λ disk. ⟦<MemDisk as Disk>⟧.calls disk ≡ 0) }
        ensures faults { IfOk result (λ disk. ⟦<MemDisk as Disk>⟧.faults disk ≡ 0) }
        ensures listed { IfOk result (λ disk. listed_calls disk ≡ []) }
    {
        let alloc = self.alloc;
        let Some(byte) = fill else {
            let bytes = Vec::from_slice(alloc, &self.bytes)?;
            return Ok(MemDisk::new(alloc, bytes, Vec::new(alloc)));
        };
        let bytes = match &self.mask {
            None => paint(
                alloc,
                &self.bytes,
                &vec![in alloc; 0u8; self.bytes.len()]?,
                byte,
            )?,
            Some(mask) => paint(alloc, &self.bytes, mask, byte)?,
        };
        Ok(MemDisk::new(alloc, bytes, Vec::new(alloc)))
    }

    /// The bytes that a read gives.
    pub fn bytes(&self) -> &[u8]
        ensures { ⟦<MemDisk as Disk>⟧.reads self.now ≡ Some result.now }
    {
        &self.bytes
    }

    /// How many calls there were.
    pub fn calls(&self) -> u64
        ensures { result ≡ ⟦<MemDisk as Disk>⟧.calls self.now }
    {
        self.calls
    }
}

impl Disk for MemDisk {
    ghost use Rattle.plan_base.specs.Failing.{listed_calls};

    ghost reads = { λ m. Some m.bytes.items };

    ghost images = { λ m. image_of m.first.value.items (reverse m.log.items) };

    ghost images_since = { λ m. image_since m.first.value.items (reverse m.log.items) };

    ghost calls = { λ m. m.calls };

    ghost faults = { λ m. m.faults };

    ghost reads_an_image = { λ m file is. subst (image_of m.first.value.items (reverse m.log.items)) (sym m.replayed ∙ same_Some m.bytes.items file is) (reads_image m.first.value.items (reverse m.log.items) m.in_place) };

    ghost now_counts = { λ m t c le now. now_since m.first.value.items (reverse m.log.items) t c now };

    ghost only_now = { λ m c left. since_now m.first.value.items (reverse m.log.items) m.calls c m.numbered left };

    fn len(&mut self) -> Result<u64, Failed>
        requires { ⟦<MemDisk as Disk>⟧.calls self.old < 2 ^ 63 }
        ensures length { IfOk result (λ n. IfSome (⟦<MemDisk as Disk>⟧.reads self.old) (λ file. n ≡ length file)) }
        ensures reads { ⟦<MemDisk as Disk>⟧.reads self.new ≡ ⟦<MemDisk as Disk>⟧.reads self.old }
        ensures crash { OnSome (⟦<MemDisk as Disk>⟧.reads self.old) ((image : List ℕ) → ⟦<MemDisk as Disk>⟧.images self.new image → ⟦<MemDisk as Disk>⟧.images self.old image) }
        ensures time { OnSome (⟦<MemDisk as Disk>⟧.reads self.old) (AddsMoment (⟦<MemDisk as Disk>⟧.calls self.old) (⟦<MemDisk as Disk>⟧.images_since self.old) (⟦<MemDisk as Disk>⟧.images_since self.new) (⟦<MemDisk as Disk>⟧.images self.new)) }
        ensures count { ⟦<MemDisk as Disk>⟧.calls self.new ≡ ⟦<MemDisk as Disk>⟧.calls self.old + 1 }
        ensures cause { CountsFaults (⟦<MemDisk as Disk>⟧.faults self.old) (⟦<MemDisk as Disk>⟧.faults self.new) result }

        ensures listed { IsErr result ↔ Contains (listed_calls self.old) (⟦<MemDisk as Disk>⟧.calls self.old + 1) }
        ensures same_list { listed_calls self.new ≡ listed_calls self.old }
    {
        self.calls += 1;
        answer(&self.fails, self.calls, &mut self.faults)?;
        Ok(self.bytes.len() as u64)
    }

    fn read_at(&mut self, at: u64, into: &mut [u8]) -> Result<usize, Failed>
        requires { ⟦<MemDisk as Disk>⟧.calls self.old < 2 ^ 63 }
        ensures bound { IfOk result (λ n. n ≤ length into.new) }
        ensures bytes { IfOk result (λ n. IfSome (⟦<MemDisk as Disk>⟧.reads self.old) (λ file. ReadsAt file at into.new n)) }
        ensures reads { ⟦<MemDisk as Disk>⟧.reads self.new ≡ ⟦<MemDisk as Disk>⟧.reads self.old }
        ensures crash { OnSome (⟦<MemDisk as Disk>⟧.reads self.old) ((image : List ℕ) → ⟦<MemDisk as Disk>⟧.images self.new image → ⟦<MemDisk as Disk>⟧.images self.old image) }
        ensures time { OnSome (⟦<MemDisk as Disk>⟧.reads self.old) (AddsMoment (⟦<MemDisk as Disk>⟧.calls self.old) (⟦<MemDisk as Disk>⟧.images_since self.old) (⟦<MemDisk as Disk>⟧.images_since self.new) (⟦<MemDisk as Disk>⟧.images self.new)) }
        ensures count { ⟦<MemDisk as Disk>⟧.calls self.new ≡ ⟦<MemDisk as Disk>⟧.calls self.old + 1 }
        ensures cause { CountsFaults (⟦<MemDisk as Disk>⟧.faults self.old) (⟦<MemDisk as Disk>⟧.faults self.new) result }

        ensures listed { IsErr result ↔ Contains (listed_calls self.old) (⟦<MemDisk as Disk>⟧.calls self.old + 1) }
        ensures same_list { listed_calls self.new ≡ listed_calls self.old }
    {
        self.calls += 1;
        answer(&self.fails, self.calls, &mut self.faults)?;
        Ok(copy_from(&self.bytes, at as usize, usize::MAX, into))
    }

    fn write_at(&mut self, at: u64, bytes: &[u8]) -> Result<(), Failed>
        requires count { ⟦<MemDisk as Disk>⟧.calls self.old < 2 ^ 63 }
        requires place { IfSome (⟦<MemDisk as Disk>⟧.reads self.old) (λ file. at ≤ length file) }
        ensures written { OnOk result (⟦<MemDisk as Disk>⟧.reads self.new ≡ option_map (overwritten at bytes.now) (⟦<MemDisk as Disk>⟧.reads self.old)) }
        ensures telling { TellsAlike (⟦<MemDisk as Disk>⟧.reads self.old) (⟦<MemDisk as Disk>⟧.reads self.new) }
        ensures crash { OnSome (⟦<MemDisk as Disk>⟧.reads self.old) (StepsFrom (WritesPart at (length bytes.now)) (⟦<MemDisk as Disk>⟧.images self.old) (⟦<MemDisk as Disk>⟧.images self.new)) }
        ensures time { OnSome (⟦<MemDisk as Disk>⟧.reads self.old) (AddsMoment (⟦<MemDisk as Disk>⟧.calls self.old) (⟦<MemDisk as Disk>⟧.images_since self.old) (⟦<MemDisk as Disk>⟧.images_since self.new) (⟦<MemDisk as Disk>⟧.images self.new)) }
        ensures count { ⟦<MemDisk as Disk>⟧.calls self.new ≡ ⟦<MemDisk as Disk>⟧.calls self.old + 1 }
        ensures cause { CountsFaults (⟦<MemDisk as Disk>⟧.faults self.old) (⟦<MemDisk as Disk>⟧.faults self.new) result }

        ensures listed { Contains (listed_calls self.old) (⟦<MemDisk as Disk>⟧.calls self.old + 1) → IsErr result }
        ensures same_list { listed_calls self.new ≡ listed_calls self.old }
    {
        self.calls += 1;
        match keep_write(
            self.alloc,
            &mut self.log,
            self.calls,
            &mut self.bytes,
            &mut self.mask,
            at,
            bytes,
        ) {
            Ok(()) => answer(&self.fails, self.calls, &mut self.faults),
            Err(_) => Err(count_fault(&mut self.faults)),
        }
    }

    fn cut(&mut self, len: u64) -> Result<(), Failed>
        requires count { ⟦<MemDisk as Disk>⟧.calls self.old < 2 ^ 63 }
        requires place { IfSome (⟦<MemDisk as Disk>⟧.reads self.old) (λ file. len ≤ length file) }
        ensures cut { OnOk result (⟦<MemDisk as Disk>⟧.reads self.new ≡ option_map (take len) (⟦<MemDisk as Disk>⟧.reads self.old)) }
        ensures telling { TellsAlike (⟦<MemDisk as Disk>⟧.reads self.old) (⟦<MemDisk as Disk>⟧.reads self.new) }
        ensures crash { OnSome (⟦<MemDisk as Disk>⟧.reads self.old) (StepsFrom (CutsPart len) (⟦<MemDisk as Disk>⟧.images self.old) (⟦<MemDisk as Disk>⟧.images self.new)) }
        ensures time { OnSome (⟦<MemDisk as Disk>⟧.reads self.old) (AddsMoment (⟦<MemDisk as Disk>⟧.calls self.old) (⟦<MemDisk as Disk>⟧.images_since self.old) (⟦<MemDisk as Disk>⟧.images_since self.new) (⟦<MemDisk as Disk>⟧.images self.new)) }
        ensures count { ⟦<MemDisk as Disk>⟧.calls self.new ≡ ⟦<MemDisk as Disk>⟧.calls self.old + 1 }
        ensures cause { CountsFaults (⟦<MemDisk as Disk>⟧.faults self.old) (⟦<MemDisk as Disk>⟧.faults self.new) result }

        ensures listed { Contains (listed_calls self.old) (⟦<MemDisk as Disk>⟧.calls self.old + 1) → IsErr result }
        ensures same_list { listed_calls self.new ≡ listed_calls self.old }
    {
        self.calls += 1;
        match keep_cut(
            self.alloc,
            &mut self.log,
            self.calls,
            &mut self.bytes,
            &mut self.mask,
            len,
        ) {
            Ok(()) => answer(&self.fails, self.calls, &mut self.faults),
            Err(_) => Err(count_fault(&mut self.faults)),
        }
    }

    fn sync(&mut self) -> Result<(), Failed>
        requires { ⟦<MemDisk as Disk>⟧.calls self.old < 2 ^ 63 }
        ensures durable { OnOk result (IfSome (⟦<MemDisk as Disk>⟧.reads self.old) (λ file. IsOnlyImage file (⟦<MemDisk as Disk>⟧.images self.new))) }
        ensures reads { ⟦<MemDisk as Disk>⟧.reads self.new ≡ ⟦<MemDisk as Disk>⟧.reads self.old }
        ensures crash { OnSome (⟦<MemDisk as Disk>⟧.reads self.old) ((image : List ℕ) → ⟦<MemDisk as Disk>⟧.images self.new image → ⟦<MemDisk as Disk>⟧.images self.old image) }
        ensures time { OnSome (⟦<MemDisk as Disk>⟧.reads self.old) (AddsMoment (⟦<MemDisk as Disk>⟧.calls self.old) (⟦<MemDisk as Disk>⟧.images_since self.old) (⟦<MemDisk as Disk>⟧.images_since self.new) (⟦<MemDisk as Disk>⟧.images self.new)) }
        ensures count { ⟦<MemDisk as Disk>⟧.calls self.new ≡ ⟦<MemDisk as Disk>⟧.calls self.old + 1 }
        ensures cause { CountsFaults (⟦<MemDisk as Disk>⟧.faults self.old) (⟦<MemDisk as Disk>⟧.faults self.new) result }

        ensures listed { Contains (listed_calls self.old) (⟦<MemDisk as Disk>⟧.calls self.old + 1) → IsErr result }
        ensures same_list { listed_calls self.new ≡ listed_calls self.old }
    {
        self.calls += 1;
        answer(&self.fails, self.calls, &mut self.faults)?;
        match keep_sync(&mut self.log, self.calls) {
            Ok(()) => {
                self.mask = None;
                Ok(())
            }
            Err(_) => Err(count_fault(&mut self.faults)),
        }
    }
}

//! The posts of a search in the records of a disk's journal, with the book that they make.
ghost use Rattle.std.specs.Prelude.{◌≡◌, ◌+◌, ◌^◌, ◌<◌, ◌≤◌, [], length, All, None, Some, OnOk, IfErr, IfOk};
ghost use Rattle.gated_journal.specs.View.{IsSettled};
ghost use Rattle.instance_json.specs.Canonical.{canonical_text};
ghost use Rattle.post_codec.specs.Spelling.{CanSpellPost, Spells};
ghost use Rattle.search_core.specs.Book.{Book};
ghost use Rattle.search_core.specs.Drafting.{Makes};
ghost use Rattle.search_book.specs.Keeping.{IsPostLog};
ghost use Rattle.search_book.specs.Posts.{bytes_used};
ghost use Rattle.post_codec.specs.Batches.{SpellPosts};
ghost use Rattle.search_book.specs.Recorded.{RecordFails, Records};
ghost use Rattle.shift_instance.specs.Valid.{IsValid};

use crate::batched::Batched;
use crate::record_log::RecordLog;
use break_rules::NoMemory;
use gated_journal::{Journal, JournalFault};
use plan_base::Disk;
use post_codec::{Post, write};
use search_core::{Shutting, State};
use std::alloc::Global;
use std::marker::Model;
use std::snapshot::Snapshot;

/// The posts of a search, those of each commit in one record of a journal with its disk, and the book that they make.
#[derive(Drop)]
pub(crate) struct PostLog<D: Disk> {
    alloc: Global,
    log: RecordLog<D>,
    state: State,
    shut: Option<Shutting>,
    // for clauses alone: the posts by records, those of the commit that ended in a disk fault, and those for which there was no
    // room
    batched: Batched,
    in_flight: Option<Snapshot<Vec<Post>>>,
    unfit: Option<Snapshot<Vec<Post>>>,
}

impl<D: Disk> Model for PostLog<D> {
    ghost use Rattle.search_book.specs.PostLog.{PostLogView};

    ghost Value = { PostLogView D };

    ghost use Rattle.search_book.specs.Posts.{batches_told, bytes_used, posts_told};
    ghost use Rattle.search_book.specs.Recorded.{IsPostLogInside};

    ghost view = { λ p. record { instance = p.state.instance; opening = p.batched.opening; batches = p.batched.batches; history = p.state.history; book = p.state.book; disk = p.log.disk; limit = p.log.limit; opened = p.log.opened; used = bytes_used p.log.head p.log.records; in_flight = batches_told p.in_flight; unfit = posts_told p.unfit; shut = p.shut } };

    ghost invariant = { λ p. IsPostLogInside p.log (record { instance = p.state.instance; opening = p.batched.opening; batches = p.batched.batches; history = p.state.history; book = p.state.book; disk = p.log.disk; limit = p.log.limit; opened = p.log.opened; used = bytes_used p.log.head p.log.records; in_flight = batches_told p.in_flight; unfit = posts_told p.unfit; shut = p.shut }) };
}

/// The record of posts, for which room is made in a log and in a state.
fn record_of<D: Disk>(
    alloc: Global,
    log: &mut RecordLog<D>,
    state: &mut State,
    posts: &[Post],
) -> Result<Vec<u8>, NoMemory>
    requires few { length posts.now < 2 ^ 16 }
    requires fit { All CanSpellPost posts.now }
    ensures spells { IfOk result (λ bytes. Spells bytes.items posts.now) }
    ensures room { IfOk result (λ bytes. length bytes.items ≤ log.new.spare) }
    ensures rooms { IfOk result (λ _. length posts.now ≤ state.new.spare) }
    ensures log { log.new ≡ record log.old { spare = log.new.spare } }
    ensures state { state.new ≡ record state.old { spare = state.new.spare } }
{
    state.reserve(posts.len() as u32)?;
    let bytes = write(alloc, posts)?;
    log.reserve(bytes.len())?;
    Ok(bytes)
}

impl<D: Disk> PostLog<D> {
    /// The log of a journal that was opened or created on this disk, with the state of its posts.
    pub(crate) fn over(
        alloc: Global,
        disk: D,
        journal: Journal,
        records: u64,
        state: State,
    ) -> PostLog<D>
        requires count { D.calls disk < 2 ^ 62 + 2 ^ 34 }
        requires head { journal.head ≡ canonical_text state.instance }
        requires small { journal.limit ≤ 2 ^ 26 }
        requires records { records ≡ length journal.records }
        requires valid { IsValid state.instance }
        requires spell { SpellPosts journal.records state.history }
        requires settled { IsSettled journal (D.reads disk) (D.images disk) }
        ensures { result ≡ record { instance = state.instance; opening = state.history; batches = []; history = state.history; book = state.book; disk = disk; limit = journal.limit; opened = disk; used = bytes_used journal.head journal.records; in_flight = []; unfit = []; shut = None } }
    {
        let batched = Batched::opened(state.history());
        let log = RecordLog::over(disk, journal, records);
        let _ = log.end();
        PostLog {
            alloc,
            log,
            state,
            shut: None,
            batched,
            in_flight: None,
            unfit: None,
        }
    }

    /// The state of the posts.
    pub(crate) fn state(&self) -> &State
        ensures instance { result.now.instance ≡ self.now.instance }
        ensures history { result.now.history ≡ self.now.history }
        ensures book { result.now.book ≡ self.now.book }
    {
        &self.state
    }

    /// What shut the log, if anything did.
    pub(crate) fn shut(&self) -> Option<Shutting>
        ensures { result ≡ self.now.shut }
    {
        self.shut
    }

    /// How many records were made since the opening, with all that is known of the log.
    pub(crate) fn made(&self) -> u64
        ensures made { result ≡ length self.now.batches }
        ensures log { IsPostLog D.reads D.images D.images_since D.calls D.faults self.now }
    {
        self.log.added()
    }

    /// Records posts, with the numbers that go with them, as one record. Memory is taken before the first call on the disk.
    pub(crate) fn commit(&mut self, posts: Vec<Post>, values: &[u64]) -> Result<(), JournalFault>
        requires open { self.old.shut ≡ None }
        requires some { 0 < length posts.items }
        requires few { length posts.items < 2 ^ 16 }
        requires makes { (c : Book) × Makes self.old.instance self.old.book posts.items values.now c }
        ensures ok { OnOk result (Records D.calls self.old self.new posts.items self.new.book) }
        ensures makes { OnOk result (Makes self.old.instance self.old.book posts.items values.now self.new.book) }
        ensures err { IfErr result (RecordFails D.faults self.old self.new posts.items) }
    {
        let bytes = record_of(self.alloc, &mut self.log, &mut self.state, &posts)?;
        match self.log.add(&bytes) {
            Ok(()) => {
                self.batched = Batched::with(&self.batched, &posts);
                self.state.append_all(posts, values);
                Ok(())
            }
            Err(JournalFault::DiskFault) => {
                self.in_flight = Some(Snapshot::of(&posts));
                self.shut = Some(Shutting::DiskFault);
                Err(JournalFault::DiskFault)
            }
            Err(JournalFault::Full { end, limit }) => {
                self.unfit = Some(Snapshot::of(&posts));
                self.shut = Some(Shutting::Full { end, limit });
                Err(JournalFault::Full { end, limit })
            }
            // no other fault comes
            Err(fault) => Err(fault),
        }
    }

    /// The disk, handed back.
    pub(crate) fn into_disk(self) -> D
        ensures { result ≡ self.disk }
    {
        let PostLog {
            alloc: _,
            log,
            state: _,
            shut: _,
            batched: _,
            in_flight: _,
            unfit: _,
        } = self;
        log.into_disk()
    }
}

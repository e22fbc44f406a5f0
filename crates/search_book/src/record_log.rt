//! The records of a disk's journal, as whoever restarts finds them.
ghost use Rattle.std.specs.Prelude.{◌≡◌, ◌+◌, ◌^◌, ◌<◌, ◌≤◌, ◌∷◌, [], ◌++◌, length, max, OnOk, OnErr, MatchResult};
ghost use Rattle.gated_journal.specs.Format.{end_after};
ghost use Rattle.gated_journal.specs.View.{IsSettled};
ghost use Rattle.search_book.specs.Posts.{bytes_used};
ghost use Rattle.search_book.specs.Records.{AddFails, IsLog};

use gated_journal::{Journal, JournalFault};
use plan_base::Disk;
use std::alloc::AllocError;
use std::marker::Model;
use std::snapshot::Snapshot;

/// A journal with its disk. Nothing more is added once an addition has ended in a disk fault.
#[derive(Drop)]
pub(crate) struct RecordLog<D: Disk> {
    disk: D,
    journal: Journal,
    opening: u64,
    added: u64,
    // the disk when the log was opened, for clauses alone
    opened: Snapshot<D>,
    // the record of an addition that ended in a disk fault, for clauses alone
    in_flight: Option<Snapshot<Vec<u8>>>,
}

impl<D: Disk> Model for RecordLog<D> {
    ghost use Rattle.search_book.specs.Records.{LogView};

    ghost Value = { LogView D };

    ghost use Rattle.search_book.specs.Records.{flight_of};
    ghost use Rattle.search_book.specs.Inside.{IsLogInside};

    ghost view = { λ l. record { disk = l.disk; head = l.journal.head; limit = l.journal.limit; records = l.journal.records; in_flight = flight_of l.in_flight; opening = l.opening; opened = l.opened.value; added = l.added; spare = l.journal.spare } };

    ghost invariant = { λ l. IsLogInside D.reads D.images D.images_since D.calls D.faults l.journal (record { disk = l.disk; head = l.journal.head; limit = l.journal.limit; records = l.journal.records; in_flight = flight_of l.in_flight; opening = l.opening; opened = l.opened.value; added = l.added; spare = l.journal.spare }) };
}

impl<D: Disk> RecordLog<D> {
    /// The log of a journal that was opened or created on this disk with so many records.
    pub(crate) fn over(disk: D, journal: Journal, opening: u64) -> RecordLog<D>
        requires count { D.calls disk < 2 ^ 62 + 2 ^ 34 }
        requires settled { IsSettled journal (D.reads disk) (D.images disk) }
        requires opening { opening ≡ length journal.records }
        requires small { journal.limit ≤ 2 ^ 26 }
        ensures { result ≡ record { disk = disk; head = journal.head; limit = journal.limit; records = journal.records; in_flight = []; opening = opening; opened = disk; added = 0; spare = journal.spare } }
    {
        let opened = Snapshot::of(&disk);
        RecordLog {
            disk,
            journal,
            opening,
            added: 0,
            opened,
            in_flight: None,
        }
    }

    /// How many records were added since the log was opened, with all that is known of the log.
    pub(crate) fn added(&self) -> u64
        ensures added { result ≡ self.now.added }
        ensures log { IsLog D.reads D.images D.images_since D.calls D.faults self.now }
    {
        self.added
    }

    /// Where the journal ends: how many bytes stand in its file up to the closed gate, that one included.
    pub(crate) fn end(&self) -> u64
        ensures end { result ≡ bytes_used self.now.head self.now.records }
        ensures within { result ≤ self.now.limit }
    {
        self.journal.end()
    }

    /// Makes room for a record of this length. It never lowers the room.
    pub(crate) fn reserve(&mut self, bytes: usize) -> Result<(), AllocError>
        ensures ok { OnOk result (self.new ≡ record self.old { spare = max self.old.spare bytes }) }
        ensures err { OnErr result (self.new ≡ self.old) }
    {
        self.journal.reserve(bytes)
    }

    /// Adds a record for which there is room.
    pub(crate) fn add(&mut self, bytes: &Vec<u8>) -> Result<(), JournalFault>
        requires running { self.old.in_flight ≡ [] }
        requires room { length bytes.now.items ≤ self.old.spare }
        ensures ok { OnOk result (self.new ≡ record self.old { disk = self.new.disk; records = self.old.records ++ bytes.now.items ∷ []; added = self.old.added + 1 }) }
        ensures cause { MatchResult result (λ _. end_after self.old.head self.old.records (length bytes.now.items) ≤ self.old.limit) (AddFails D.faults self.old self.new bytes.now.items) }
        ensures four { OnOk result (D.calls self.new.disk ≡ D.calls self.old.disk + 4) }
        ensures faults { D.faults self.old.disk ≤ D.faults self.new.disk }
    {
        match self.journal.put(&mut self.disk, bytes) {
            Ok(()) => {
                self.added += 1;
                Ok(())
            }
            Err(JournalFault::DiskFault) => {
                self.in_flight = Some(Snapshot::of(bytes));
                Err(JournalFault::DiskFault)
            }
            Err(fault) => Err(fault),
        }
    }

    /// The disk, handed back.
    pub(crate) fn into_disk(self) -> D
        ensures { result ≡ self.disk }
    {
        let RecordLog {
            disk,
            journal: _,
            opening: _,
            added: _,
            opened: _,
            in_flight: _,
        } = self;
        disk
    }
}

//! The folder of a plan in the system's files.

ghost use Rattle.planning_words.specs.Folder.{Held};

use crate::locked_journal::set_aside;
use crate::plan_file::{PLAN_FILES, PlanFile};
use crate::plan_folder::Folder;
use crate::whole_files::{make_folder, write_synced};
use std::alloc::AllocError;
use std::fs::{self, File, TryLockError};
use std::io::{self, Write};
use std::mem;

/// The folder, in that of a plan, with what was written last to files that people may edit.
const WRITTEN: &str = ".written";

/// The name of the marker in the folder of a plan.
const MARKER: &str = "UNFINISHED";

/// What the marker says to people.
const MARKER_TEXT: &str = "\
A new plan is being put into this folder, or a run ended while it did so: some of the files may be of the plan before.
The next shift_plan plan or show that writes to this folder finishes it. Until then NAME.new is the new NAME.
";

/// A table of a plan that was edited, and is kept under another name.
#[derive(Drop)]
pub struct KeptTable {
    /// Its name in the folder.
    pub name: &'static str,
    /// The path under which it is kept.
    pub kept: String,
}

/// The folder of a plan in the system's files, with the files of `PLAN_FILES`. As long as this value stands, no other one is opened for the same
/// folder, where the system gives locks.
#[derive(Drop)]
pub struct PlanFolder<'a> {
    rt: HostRuntime,
    folder: &'a str,
    /// The folder itself, open and locked, where the system can.
    handle: Option<File>,
    /// The name of the file that the last call was about, for who says that it failed. What only looks or clears away counts where it fails.
    last: &'static str,
    kept: Vec<KeptTable>,
}

/// The folder of a path, open and locked. The error is `WouldBlock` where another run has it.
fn locked(rt: HostRuntime, folder: &str) -> io::Result<Option<File>> {
    let Ok(handle) = File::open(&rt, folder) else {
        return Ok(None);
    };
    match handle.try_lock() {
        Err(TryLockError::WouldBlock) => Err(io::ErrorKind::WouldBlock.into()),
        _ => Ok(Some(handle)),
    }
}

/// The bytes of a file, and none where it isn't there.
fn bytes_in(rt: HostRuntime, path: &str) -> io::Result<Option<Vec<u8>>> {
    match fs::read(&rt, path) {
        Ok(bytes) => Ok(Some(bytes)),
        Err(why) if why.kind() == io::ErrorKind::NotFound => Ok(None),
        Err(why) => Err(why),
    }
}

/// Whether two files have the same bytes. One that can't be read has others.
fn are_same(rt: HostRuntime, one: &[u8], other: &str) -> io::Result<bool> {
    match bytes_in(rt, other) {
        Ok(Some(bytes)) => Ok(bytes.as_slice() == one),
        Ok(None) => Ok(false),
        Err(why) if why.kind() == io::ErrorKind::OutOfMemory => Err(why),
        Err(_) => Ok(false),
    }
}

/// The file of a number.
fn numbered(file: usize) -> io::Result<PlanFile> {
    match PLAN_FILES.get(file) {
        Some(file) => Ok(*file),
        None => Err(io::ErrorKind::InvalidInput.into()),
    }
}

impl<'a> PlanFolder<'a> {
    /// The folder of a path, where it is there. The error is `WouldBlock` where another run writes there.
    pub fn open(rt: HostRuntime, folder: &'a str) -> io::Result<PlanFolder<'a>> {
        let handle = locked(rt, folder)?;
        Ok(PlanFolder {
            rt,
            folder,
            handle,
            last: "",
            kept: Vec::new(rt.alloc()),
        })
    }

    /// The name of the file about which a call failed last.
    pub fn last(&self) -> &'static str {
        self.last
    }

    /// Takes the list of the tables that were edited and got other names since it was taken last.
    pub fn take_kept(&mut self) -> Vec<KeptTable> {
        mem::replace(&mut self.kept, Vec::new(self.rt.alloc()))
    }

    /// The path of a name in the folder.
    fn path_of(&self, name: &str) -> Result<String, AllocError> {
        let folder = self.folder;
        format!(in self.rt.alloc(); "{folder}/{name}")
    }

    /// The path of a file under its other name.
    fn other_path(&self, file: PlanFile) -> Result<String, AllocError> {
        let folder = self.folder;
        let name = file.name();
        format!(in self.rt.alloc(); "{folder}/{name}.new")
    }

    /// The file of a number, which a call is about.
    fn file_of(&mut self, file: usize) -> io::Result<PlanFile> {
        let file = numbered(file)?;
        self.last = file.name();
        Ok(file)
    }

    /// Removes a file under its other name, where it stands.
    fn remove_new(&self, file: PlanFile) -> io::Result<()> {
        let other = self.other_path(file)?;
        match fs::symlink_metadata(&self.rt, other.as_str()) {
            Ok(_) => fs::remove_file(&self.rt, other.as_str()),
            Err(_) => Ok(()),
        }
    }

    /// Has the system make sure of the names in the folder, where it can.
    fn sync(&self) -> Result<(), AllocError> {
        let written = self.path_of(WRITTEN)?;
        if let Ok(handle) = File::open(&self.rt, written.as_str()) {
            let _as_it_may_be = handle.sync_all();
        }
        if let Some(handle) = &self.handle {
            let _as_it_may_be = handle.sync_all();
        }
        Ok(())
    }

    /// Whether a table has other bytes than the new one, and than were written there last.
    fn is_edited(&self, table: PlanFile, written: PlanFile) -> io::Result<bool> {
        let path = self.path_of(table.name())?;
        let Some(stands) = bytes_in(self.rt, path.as_str())? else {
            return Ok(false);
        };
        let new = self.other_path(table)?;
        if are_same(self.rt, stands.as_slice(), new.as_str())? {
            return Ok(false);
        }
        let written = self.path_of(written.name())?;
        Ok(!are_same(self.rt, stands.as_slice(), written.as_str())?)
    }
}

/// Whether a plan is to be put in place in a folder, so that its files may be of two plans.
pub fn is_unfinished(rt: HostRuntime, folder: &str) -> io::Result<bool> {
    let marker = format!(in rt.alloc(); "{folder}/{MARKER}")?;
    fs::exists(&rt, marker.as_str())
}

impl<'a> Folder for PlanFolder<'a> {
    ghost holds = { λ folder held. ⊥ };

    ghost passed = { λ folder held. ⊥ };

    fn write(&mut self, file: usize, bytes: &[u8]) -> io::Result<()> {
        let file = self.file_of(file)?;
        let own = self.path_of(file.name())?;
        if fs::metadata(&self.rt, own.as_str()).is_ok_and(|found| found.is_dir()) {
            return Err(io::ErrorKind::IsADirectory.into());
        }
        if file.is_copy() {
            let written = self.path_of(WRITTEN)?;
            make_folder(&self.rt, written.as_str())?;
        }
        let other = self.other_path(file)?;
        write_synced(&self.rt, other.as_str(), bytes)
    }

    fn clear(&mut self, file: usize) -> io::Result<()> {
        let file = numbered(file)?;
        let done = self.remove_new(file);
        if done.is_err() {
            self.last = file.name();
        }
        done
    }

    fn has_new(&mut self, file: usize) -> io::Result<bool> {
        let file = self.file_of(file)?;
        let other = self.other_path(file)?;
        fs::exists(&self.rt, other.as_str())
    }

    fn keep(&mut self, file: usize) -> io::Result<()> {
        let table = self.file_of(file)?;
        let Some(written) = table.written() else {
            return Ok(());
        };
        if !self.is_edited(table, written)? {
            return Ok(());
        }
        let path = self.path_of(table.name())?;
        self.kept.reserve(1)?;
        let kept = set_aside(&self.rt, self.rt.alloc(), path.as_str())?;
        self.kept.push(KeptTable {
            name: table.name(),
            kept,
        })?;
        Ok(())
    }

    fn place(&mut self, file: usize) -> io::Result<()> {
        let file = self.file_of(file)?;
        let own = self.path_of(file.name())?;
        let other = self.other_path(file)?;
        fs::rename(&self.rt, other.as_str(), own.as_str())
    }

    fn is_marked(&mut self) -> io::Result<bool> {
        let found = is_unfinished(self.rt, self.folder);
        if found.is_err() {
            self.last = MARKER;
        }
        found
    }

    fn mark(&mut self) -> io::Result<()> {
        self.last = MARKER;
        let path = self.path_of(MARKER)?;
        self.sync()?;
        let mut marker = File::create(&self.rt, path.as_str())?;
        // it is the marker by its name: its text is for people, and needs no room on a full disk
        let _as_it_may_be = marker.write_all(MARKER_TEXT.as_bytes());
        let _as_it_may_be = marker.sync_all();
        let _as_it_may_be = self.sync();
        Ok(())
    }

    fn unmark(&mut self) -> io::Result<()> {
        self.last = MARKER;
        let path = self.path_of(MARKER)?;
        self.sync()?;
        fs::remove_file(&self.rt, path.as_str())?;
        let _as_it_may_be = self.sync();
        Ok(())
    }
}

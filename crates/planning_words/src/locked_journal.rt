//! The file of a journal, which one run alone has.

ghost use Rattle.std.specs.Prelude.{◌≡◌, IfOk};

use plan_base::{Disk, FileDisk};
use std::alloc::{AllocError, Global};
use std::fs::{self, File, OpenOptions, TryLockError};
use std::io;
use std::rt::Files;

/// The greatest number that a journal's name gets behind it where the journal is set aside.
const ASIDE_MOST: u16 = 9_999;

/// Why a journal isn't this run's.
#[derive(Drop)]
pub enum LockFault {
    /// Another run has it.
    InUse,
    /// Its file can't be opened for reading and writing.
    Unopened(io::Error),
    /// The file system gives no locks.
    Unlocked(io::Error),
}

/// The file of a journal, locked as long as this value stands. The lock is the system's advisory one: it keeps out other runs that ask for
/// it, and nobody else.
#[derive(Drop)]
pub struct LockedJournal<R: Files<File = File> + Clone + Drop + Send> {
    rt: R,
    path: String,
    lock: File,
}

/// Opens a file for reading and writing, and makes it where there is none.
fn opened<R: Files<File = File>>(rt: &R, path: &str) -> io::Result<File> {
    OpenOptions::new()
        .read(true)
        .write(true)
        .create(true)
        .open(rt, path)
}

impl<R: Files<File = File> + Clone + Drop + Send> LockedJournal<R> {
    /// Locks the journal of this path, or says why that can't be. Where there is no file an empty one is made.
    pub fn lock(rt: R, path: String) -> Result<LockedJournal<R>, LockFault> {
        let lock = match opened(&rt, path.as_str()) {
            Ok(file) => file,
            Err(why) => return Err(LockFault::Unopened(why)),
        };
        match lock.try_lock() {
            Ok(()) => Ok(LockedJournal { rt, path, lock }),
            Err(TryLockError::WouldBlock) => Err(LockFault::InUse),
            Err(TryLockError::Error(why)) => Err(LockFault::Unlocked(why)),
        }
    }

    /// The disk over its file, on which no call was made.
    pub fn disk(&self) -> Result<FileDisk<R>, AllocError>
        ensures { IfOk result (λ disk. ⟦<FileDisk<R> as Disk>⟧.calls disk ≡ 0) }
    {
        let path = self.path.clone()?;
        let rt = self.rt.clone()?;
        Ok(FileDisk::new(rt, path))
    }

    /// Its length in bytes.
    pub fn len(&self) -> io::Result<u64> {
        Ok(self.lock.metadata()?.len())
    }
}

/// The first of the names `PATH.1`, `PATH.2` and so on that no file has.
fn free_name<R: Files>(rt: &R, alloc: Global, path: &str) -> io::Result<String> {
    for number in 1..=ASIDE_MOST {
        let name = format!(in alloc; "{path}.{number}")?;
        if !fs::exists(rt, name.as_str())? {
            return Ok(name);
        }
    }
    Err(io::ErrorKind::AlreadyExists.into())
}

/// Gives a file another name that no file has, and answers that name. A journal is locked by this run then.
pub fn set_aside<R: Files>(rt: &R, alloc: Global, path: &str) -> io::Result<String> {
    let name = free_name(rt, alloc, path)?;
    fs::rename(rt, path, name.as_str())?;
    Ok(name)
}

// A file of the system as a disk. It tells nothing of its content: what the system does is trusted.
ghost use Rattle.std.specs.Prelude.{◌≡◌, None};

use crate::faults::count_fault;
use crate::{Disk, Failed};
use std::fs::{File, OpenOptions};
use std::io;
use std::os::unix::fs::FileExt;
use std::path::Path;
use std::rt::Files;

/// A file of the system. It is opened at the first call, and made where there is none. The first
/// sync also syncs its folder, so that the file's name isn't lost with the power; a folder that
/// can't be synced is a fault only where the file was made here.
#[derive(Drop)]
pub struct FileDisk<R: Files<File = File> + Drop> {
    rt: R,
    path: String,
    file: Option<File>,
    name: Name,
    calls: u64,
    faults: u64,
}

// What is known of the file's name in its folder.
#[derive(Clone, Copy)]
enum Name {
    // The file was there.
    Found,
    // The file was made here, and its folder wasn't synced since.
    Made,
    // The folder was synced.
    Synced,
}

impl<R: Files<File = File> + Drop> FileDisk<R> {
    /// The file of this path. It isn't touched before the first call.
    pub fn new(rt: R, path: String) -> FileDisk<R>
        ensures calls { ⟦<FileDisk<R> as Disk>⟧.calls result ≡ 0 }
        ensures faults { ⟦<FileDisk<R> as Disk>⟧.faults result ≡ 0 }
    {
        FileDisk {
            rt,
            path,
            file: None,
            name: Name::Found,
            calls: 0,
            faults: 0,
        }
    }
}

// The file, opened if it wasn't, and made where there is none.
fn opened<'a, R: Files<File = File>>(
    rt: &R,
    path: &str,
    file: &'a mut Option<File>,
    name: &mut Name,
) -> io::Result<&'a File> {
    if file.is_none() {
        let mut options = OpenOptions::new();
        options.read(true).write(true);
        let fresh = match options.open(rt, path) {
            Err(e) if e.kind() == io::ErrorKind::NotFound => {
                *name = Name::Made;
                options.create(true).open(rt, path)?
            }
            found => found?,
        };
        *file = Some(fresh);
    }
    match file {
        Some(file) => Ok(file),
        None => Err(io::ErrorKind::NotFound.into()),
    }
}

// Syncs the folder that the path names the file in.
fn sync_folder<R: Files<File = File>>(rt: &R, path: &str) -> io::Result<()> {
    let folder = match Path::new(path).parent().and_then(Path::to_str) {
        Some(folder) if !folder.is_empty() => folder,
        _ => ".",
    };
    File::open(rt, folder)?.sync_all()
}

// Syncs the file, and its folder where that wasn't done yet.
fn sync_file_and_name<R: Files<File = File>>(
    rt: &R,
    path: &str,
    file: &File,
    name: &mut Name,
) -> io::Result<()> {
    file.sync_all()?;
    match *name {
        Name::Synced => return Ok(()),
        Name::Made => sync_folder(rt, path)?,
        Name::Found => {
            let _as_it_may_be = sync_folder(rt, path);
        }
    }
    *name = Name::Synced;
    Ok(())
}

// Its length in bytes.
fn len_of(file: &File) -> io::Result<u64> {
    Ok(file.metadata()?.len())
}

impl<R: Files<File = File> + Drop> Disk for FileDisk<R> {
    ghost reads = { λ disk. None };

    ghost images = { λ disk image. Unit };

    ghost images_since = { λ disk moment image. Unit };

    ghost calls = { λ disk. disk.calls };

    ghost faults = { λ disk. disk.faults };

    ghost reads_an_image = { λ disk file is. tt };

    ghost now_counts = { λ disk moment image before now. tt };

    ghost only_now = { λ disk image left. tt };

    fn len(&mut self) -> Result<u64, Failed> {
        self.calls += 1;
        match opened(&self.rt, self.path.as_str(), &mut self.file, &mut self.name).and_then(
            len_of,
        ) {
            Ok(len) => Ok(len),
            Err(_) => Err(count_fault(&mut self.faults)),
        }
    }

    fn read_at(&mut self, at: u64, into: &mut [u8]) -> Result<usize, Failed> {
        self.calls += 1;
        let answer = match opened(&self.rt, self.path.as_str(), &mut self.file, &mut self.name) {
            Ok(file) => file.read_at(into, at),
            Err(e) => Err(e),
        };
        match answer {
            Ok(count) => Ok(count),
            Err(_) => Err(count_fault(&mut self.faults)),
        }
    }

    fn write_at(&mut self, at: u64, bytes: &[u8]) -> Result<(), Failed> {
        self.calls += 1;
        let answer = match opened(&self.rt, self.path.as_str(), &mut self.file, &mut self.name) {
            Ok(file) => file.write_all_at(bytes, at),
            Err(e) => Err(e),
        };
        match answer {
            Ok(()) => Ok(()),
            Err(_) => Err(count_fault(&mut self.faults)),
        }
    }

    fn cut(&mut self, len: u64) -> Result<(), Failed> {
        self.calls += 1;
        let answer = match opened(&self.rt, self.path.as_str(), &mut self.file, &mut self.name) {
            Ok(file) => file.set_len(len),
            Err(e) => Err(e),
        };
        match answer {
            Ok(()) => Ok(()),
            Err(_) => Err(count_fault(&mut self.faults)),
        }
    }

    fn sync(&mut self) -> Result<(), Failed> {
        self.calls += 1;
        let answer = match opened(&self.rt, self.path.as_str(), &mut self.file, &mut self.name) {
            Ok(file) => sync_file_and_name(&self.rt, self.path.as_str(), file, &mut self.name),
            Err(e) => Err(e),
        };
        match answer {
            Ok(()) => Ok(()),
            Err(_) => Err(count_fault(&mut self.faults)),
        }
    }
}

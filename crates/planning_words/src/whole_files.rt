//! Files that are written whole or not at all.

use std::alloc::Global;
use std::fs::{self, File};
use std::io::{self, Write};
use std::path::Path;
use std::rt::Files;

/// Makes a folder, with those above it, where it isn't there.
pub fn make_folder<R: Files>(rt: &R, folder: &str) -> io::Result<()> {
    fs::create_dir_all(rt, folder)
}

/// Writes a file and makes sure of it.
pub(crate) fn write_synced<R: Files<File = File>>(
    rt: &R,
    path: &str,
    bytes: &[u8],
) -> io::Result<()> {
    let mut file = File::create(rt, path)?;
    file.write_all(bytes)?;
    file.sync_all()
}

/// Writes a file of a folder under another name, makes sure of it, and only then gives it its own. Where that fails, a file that stood
/// under its name stands as before.
pub(crate) fn write_whole<R: Files<File = File>>(
    rt: &R,
    alloc: Global,
    folder: &str,
    name: &str,
    bytes: &[u8],
) -> io::Result<()> {
    let whole = Path::new(folder).join(alloc, name)?;
    let part = format!(in alloc; "{name}.part")?;
    let part = Path::new(folder).join(alloc, part.as_str())?;
    write_synced(rt, part.as_str(), bytes)?;
    fs::rename(rt, part.as_path(), whole.as_path())
}

//! Files that are written where others stand, which are kept.

use crate::locked_journal::set_aside;
use crate::whole_files::write_whole;
use std::path::Path;
use std::{fs, io};

/// Whether a file has these bytes.
fn has_bytes(rt: HostRuntime, path: &str, bytes: &[u8]) -> io::Result<bool> {
    let found = fs::metadata(&rt, path)?;
    if found.is_dir() {
        return Err(io::ErrorKind::IsADirectory.into());
    }
    if found.len() != bytes.len() as u64 {
        return Ok(false);
    }
    let stands = fs::read(&rt, path)?;
    Ok(stands.as_slice() == bytes)
}

/// Writes a file of a folder, whole or not at all. A file with other bytes that stands under its name gets another name before, which no
/// file has; that name is answered.
pub fn write_kept(
    rt: HostRuntime,
    folder: &str,
    name: &str,
    bytes: &[u8],
) -> io::Result<Option<String>> {
    let alloc = rt.alloc();
    let path = Path::new(folder).join(alloc, name)?;
    if !fs::exists(&rt, path.as_str())? {
        write_whole(&rt, alloc, folder, name, bytes)?;
        return Ok(None);
    }
    if has_bytes(rt, path.as_str(), bytes)? {
        return Ok(None);
    }
    let kept = set_aside(&rt, alloc, path.as_str())?;
    write_whole(&rt, alloc, folder, name, bytes)?;
    Ok(Some(kept))
}

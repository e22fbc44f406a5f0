//! Disks in memory and of the system.
ghost use Rattle.std.specs.Prelude.{◌≡◌, length, IfSome, OnOk};

use plan_base::{Disk, Failed, FileDisk, FileSource, MemDisk, ReadEnd, read_all};
use std::alloc::{AllocError, Global};
use std::fs::{self, File};
use std::process::Abort;
use std::rt::Files;
use std::test::Fail;

/// Writes to a disk of four bytes, and after a sync cuts it and writes again.
fn write_around_a_sync<D: Disk>(disk: &mut D) -> Result<(), Failed>
    requires calls { D.calls disk.old ≡ 0 }
    requires four { IfSome (D.reads disk.old) (λ file. length file ≡ 4) }
{
    disk.write_at(1, &[8, 9])?;
    disk.sync()?;
    disk.cut(2)?;
    disk.write_at(1, &[5, 6])
}

/// A disk of four bytes that was written before and after a sync.
fn written_disk(alloc: Global) -> Result<MemDisk, Fail> {
    let content = Vec::from_slice(alloc, &[1, 2, 3, 4])?;
    let mut disk = MemDisk::new(alloc, content, Vec::new(alloc));
    write_around_a_sync(&mut disk)?;
    Ok(disk)
}

/// Compares the bytes of a disk's image.
fn compare_image(
    rt: &impl Abort,
    disk: &MemDisk,
    fill: Option<u8>,
    wanted: &[u8],
) -> Result<(), AllocError> {
    assert_eq!(rt; disk.image(fill)?.bytes(), wanted);
    Ok(())
}

#[test]
fn the_images_differ_where_bytes_were_written_since_the_last_sync(
    rt: HostRuntime,
) -> Result<(), Fail> {
    let disk = written_disk(rt.alloc())?;
    assert_eq!(rt; disk.bytes(), [1, 5, 6].as_slice());
    compare_image(&rt, &disk, None, &[1, 5, 6])?;
    compare_image(&rt, &disk, Some(255), &[1, 255, 255])?;
    Ok(())
}

/// The file that is written and read again.
const PATH: &str = "written_and_read_again.tmp";

/// Writes to a file, cuts it and syncs it, and gives the length that it had before.
fn write_file<R: Files<File = File> + Drop>(disk: &mut FileDisk<R>) -> Result<u64, Failed>
    requires { ⟦<FileDisk<R> as Disk>⟧.calls disk.old ≡ 0 }
    ensures { OnOk result (⟦<FileDisk<R> as Disk>⟧.calls disk.new ≡ 5) }
{
    let before = disk.len()?;
    disk.write_at(0, &[1, 2, 3, 4])?;
    disk.write_at(2, &[9, 8, 7])?;
    disk.cut(4)?;
    disk.sync()?;
    Ok(before)
}

/// Writes to a file, and gives the length that it had before, the length of a read from the second byte on, and its bytes.
fn write_and_read<R: Files<File = File> + Drop>(
    disk: &mut FileDisk<R>,
) -> Result<(u64, usize, [u8; 8]), Failed>
    requires { ⟦<FileDisk<R> as Disk>⟧.calls disk.old ≡ 0 }
{
    let before = write_file(disk)?;
    let mut buffer = [0u8; 8];
    let count = disk.read_at(1, &mut buffer)?;
    Ok((before, count, buffer))
}

/// Does so with a new disk.
fn tell_of_disk<R: Files<File = File> + Drop>(
    files: R,
    path: String,
) -> Result<(u64, usize, [u8; 8]), Failed> {
    let mut disk = FileDisk::new(files, path);
    write_and_read(&mut disk)
}

/// The bytes of a file, read to its end.
fn read_file<R: Files<File = File> + Drop>(
    alloc: Global,
    files: R,
    path: String,
) -> Result<Vec<u8>, ReadEnd> {
    let mut source = FileSource::new(files, path);
    read_all(alloc, &mut source, 4)
}

/// The bytes of the file, which is removed.
fn take_file(rt: &impl Files<File = File>, alloc: Global) -> Result<Vec<u8>, Fail> {
    let bytes = read_file(alloc, rt, String::from_str(alloc, PATH)?)?;
    fs::remove_file(rt, PATH)?;
    Ok(bytes)
}

#[test]
fn a_file_is_written_and_read_again(rt: HostRuntime) -> Result<(), Fail> {
    let _ = fs::remove_file(&rt, PATH);
    let told = tell_of_disk(&rt, String::from_str(rt.alloc(), PATH)?)?;
    assert_eq!(rt; told, (0, 3, [2, 9, 8, 0, 0, 0, 0, 0]));
    let bytes = take_file(&rt, rt.alloc())?;
    assert_eq!(rt; bytes.as_slice(), [1, 2, 9, 8].as_slice());
    Ok(())
}

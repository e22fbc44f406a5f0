//! All files of a plan, put in place together.

ghost use Rattle.std.specs.Prelude.{◌≡◌, ◌<◌, ℕ, true, false, OnOk, None, Some, length, map};
ghost use Rattle.planning_words.specs.Folder.{Held, Goes, IsNew, Puts, Mends, OnTheWay, IsBegun, GivesUp, plan_at};

use crate::plan_folder::Folder;
use std::io;

/// Writes all files under their other names.
fn write_all<F: Folder>(folder: &mut F, files: &[&[u8]]) -> io::Result<()>
    ensures goes { Goes (F.holds folder.old) (F.holds folder.new) (F.passed folder.old) (F.passed folder.new) IsBegun }
    ensures written { OnOk result ((held : Held) → F.holds folder.new held → (k : ℕ) → k < length files.now → held.fresh k ≡ Some (plan_at (map (λ file. file.now) files.now) k)) }
{
    for file in 0..files.len() {
        folder.write(file, files[file])?;
    }
    Ok(())
}

/// Removes all files under their other names.
fn clear_all<F: Folder>(folder: &mut F, count: usize) -> io::Result<()>
    ensures goes { Goes (F.holds folder.old) (F.holds folder.new) (F.passed folder.old) (F.passed folder.new) IsBegun }
    ensures cleared { OnOk result ((held : Held) → F.holds folder.new held → (k : ℕ) → k < count → held.fresh k ≡ None) }
{
    for file in 0..count {
        folder.clear(file)?;
    }
    Ok(())
}

/// Puts one file in place, where it stands under its other name.
fn place_one<F: Folder>(folder: &mut F, file: usize) -> io::Result<()>
    ensures goes { Goes (F.holds folder.old) (F.holds folder.new) (F.passed folder.old) (F.passed folder.new) OnTheWay }
    ensures placed { OnOk result ((held : Held) → F.holds folder.new held → held.fresh file ≡ None) }
{
    if folder.has_new(file)? {
        folder.keep(file)?;
        folder.place(file)?;
    }
    Ok(())
}

/// Puts all files in place that stand under their other names.
fn place_all<F: Folder>(folder: &mut F, count: usize) -> io::Result<()>
    ensures goes { Goes (F.holds folder.old) (F.holds folder.new) (F.passed folder.old) (F.passed folder.new) OnTheWay }
    ensures placed { OnOk result ((held : Held) → F.holds folder.new held → (k : ℕ) → k < count → held.fresh k ≡ None) }
{
    for file in 0..count {
        place_one(folder, file)?;
    }
    Ok(())
}

/// Clears away what stands under other names, where no marker says that it is a whole plan.
fn give_up<F: Folder>(folder: &mut F, count: usize)
    ensures goes { Goes (F.holds folder.old) (F.holds folder.new) (F.passed folder.old) (F.passed folder.new) GivesUp }
{
    if let Ok(false) = folder.is_marked() {
        let _ = clear_all(folder, count);
    }
}

/// Writes all files under their other names, and makes the marker.
fn begin<F: Folder>(folder: &mut F, files: &[&[u8]]) -> io::Result<()>
    ensures goes { Goes (F.holds folder.old) (F.holds folder.new) (F.passed folder.old) (F.passed folder.new) (Puts (length files.now) (plan_at (map (λ file. file.now) files.now))) }
    ensures written { OnOk result ((held : Held) → F.holds folder.new held → (k : ℕ) → k < length files.now → held.fresh k ≡ Some (plan_at (map (λ file. file.now) files.now) k)) }
    ensures marked { OnOk result ((held : Held) → F.holds folder.new held → held.is_marked ≡ true) }
{
    write_all(folder, files)?;
    folder.mark()
}

/// Finishes what a run left that ended while it put a plan of so many files in place, and clears away what one left that ended before. Answers
/// whether there was a plan to be put in place.
///
/// Where that fails, or this run ends in it, the folder is as before, or the plan is in place: nothing else is ever left.
pub fn mend<F: Folder>(folder: &mut F, count: usize) -> io::Result<bool>
    ensures goes { Goes (F.holds folder.old) (F.holds folder.new) (F.passed folder.old) (F.passed folder.new) (Mends count) }
    ensures unmarked { OnOk result ((held : Held) → F.holds folder.new held → held.is_marked ≡ false) }
    ensures cleared { OnOk result ((held : Held) → F.holds folder.new held → (k : ℕ) → k < count → held.fresh k ≡ None) }
{
    if !folder.is_marked()? {
        clear_all(folder, count)?;
        return Ok(false);
    }
    place_all(folder, count)?;
    folder.unmark()?;
    Ok(true)
}

/// Puts all files of a plan in place, in a folder without the marker. First they are written under their other names; then the marker is made,
/// each gets its own name, and the marker is taken away.
///
/// Where that fails, or this run ends in it, the folder has the old plan, or the new one, or the marker, and then `mend` puts the new one in place.
pub fn put<F: Folder>(folder: &mut F, files: &[&[u8]]) -> io::Result<()>
    ensures goes { Goes (F.holds folder.old) (F.holds folder.new) (F.passed folder.old) (F.passed folder.new) (Puts (length files.now) (plan_at (map (λ file. file.now) files.now))) }
    ensures new { OnOk result ((held : Held) → F.holds folder.new held → IsNew (length files.now) (plan_at (map (λ file. file.now) files.now)) held) }
{
    if let Err(why) = begin(folder, files) {
        give_up(folder, files.len());
        return Err(why);
    }
    place_all(folder, files.len())?;
    folder.unmark()
}

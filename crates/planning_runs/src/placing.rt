//! The folder that the files of a plan are put into.

use crate::refusal::PlanRefusal;
use planning_words::{PLAN_FILES, PlanFolder, is_unfinished, mend, put};
use refusal_texts::Role;
use std::io;

/// Says which tables of a folder were edited, and under which names they are kept.
fn tell_kept(rt: HostRuntime, folder: &str, place: &mut PlanFolder) {
    for table in &place.take_kept() {
        let name = table.name;
        let kept = table.kept.as_str();
        let _ = eprintln!(rt;
            "shift_plan: {name} was edited in the folder {folder}; it is kept as {kept}"
        );
    }
}

/// The refusal where a file of a folder can't be written.
fn unwritten(rt: HostRuntime, folder: &str, place: &PlanFolder, why: io::ErrorKind) -> PlanRefusal {
    let alloc = rt.alloc();
    let name = place.last();
    match format!(in alloc; "{folder}/{name}") {
        Ok(path) => PlanRefusal::unwritten(alloc, Role::Plan, path.as_str(), why),
        Err(none) => PlanRefusal::from(none),
    }
}

/// Puts a plan in place that a run left in a folder to be put in place, which is said, and clears away what a run left that ended before.
fn mended(rt: HostRuntime, folder: &str, place: &mut PlanFolder) -> Result<(), PlanRefusal> {
    let done = mend(place, PLAN_FILES.len());
    tell_kept(rt, folder, place);
    match done {
        Ok(false) => Ok(()),
        Ok(true) => {
            let _ = eprintln!(rt;
                "shift_plan: a run had ended while it put a plan into the folder {folder}; that plan is whole there now"
            );
            Ok(())
        }
        Err(why) => Err(unwritten(rt, folder, place, why.kind())),
    }
}

/// Opens the folder of a plan to write there, and mends it.
pub(crate) fn opened<'a>(rt: HostRuntime, folder: &'a str) -> Result<PlanFolder<'a>, PlanRefusal> {
    match PlanFolder::open(rt, folder) {
        Ok(place) => {
            let mut place = place;
            mended(rt, folder, &mut place)?;
            Ok(place)
        }
        Err(why) => Err(PlanRefusal::unwritten(rt.alloc(), Role::Folder, folder, why.kind())),
    }
}

/// Puts the files of a plan in place in its folder, together.
pub(crate) fn put_files(
    rt: HostRuntime,
    folder: &str,
    place: &mut PlanFolder,
    files: &[&[u8]],
) -> Result<(), PlanRefusal> {
    let done = put(place, files);
    tell_kept(rt, folder, place);
    match done {
        Ok(()) => Ok(()),
        Err(why) => Err(unwritten(rt, folder, place, why.kind())),
    }
}

/// Puts a plan in place in a folder, where a run that ended has left one to be put in place. One that another run is putting there now is left
/// to that run.
pub fn finish_folder(rt: HostRuntime, folder: &str) -> Result<(), PlanRefusal> {
    match is_unfinished(rt, folder) {
        Ok(true) => {}
        Err(why) if why.kind() == io::ErrorKind::OutOfMemory => {
            return Err(PlanRefusal::unwritten(rt.alloc(), Role::Folder, folder, why.kind()));
        }
        // what is no folder is told where it is to be written
        _ => return Ok(()),
    }
    match PlanFolder::open(rt, folder) {
        Ok(place) => {
            let mut place = place;
            mended(rt, folder, &mut place)
        }
        Err(why) if why.kind() == io::ErrorKind::WouldBlock => Ok(()),
        Err(why) => Err(PlanRefusal::unwritten(rt.alloc(), Role::Folder, folder, why.kind())),
    }
}

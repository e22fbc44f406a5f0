//! What the system does with a file: no clause says it.

use planning_words::{
    Folder, PLAN_FILES, PlanFolder, is_unfinished, mend, put, set_aside, write_kept,
};
use std::alloc::{AllocError, Global};
use std::test::Fail;
use std::{fs, io};

#[test]
fn old_journals_keep_names_of_their_own(rt: HostRuntime) -> Result<(), Fail> {
    let alloc = rt.alloc();
    fs::write(&rt, "old.journal", "first")?;
    let first = set_aside(&rt, alloc, "old.journal")?;
    fs::write(&rt, "old.journal", "second")?;
    let second = set_aside(&rt, alloc, "old.journal")?;
    assert_eq!(rt;
        (first.as_str(), second.as_str()),
        ("old.journal.1", "old.journal.2")
    );
    assert_eq!(rt; fs::read_to_string(&rt, "old.journal.1")?.as_str(), "first");
    assert!(rt; !fs::exists(&rt, "old.journal")?);
    Ok(())
}

#[test]
fn what_stands_there_is_kept(rt: HostRuntime) -> Result<(), Fail> {
    fs::write(&rt, "kept.csv", "by hand")?;
    let kept = write_kept(rt, ".", "kept.csv", b"written")?.ok_or("not kept")?;
    assert_eq!(rt; kept.as_str(), "./kept.csv.1");
    assert_eq!(rt; fs::read_to_string(&rt, "kept.csv.1")?.as_str(), "by hand");
    assert!(rt; write_kept(rt, ".", "kept.csv", b"written")?.is_none());
    assert!(rt; write_kept(rt, ".", "fresh.csv", b"written")?.is_none());
    assert_eq!(rt; fs::read_to_string(&rt, "fresh.csv")?.as_str(), "written");
    Ok(())
}

/// The bytes of the files of a plan that are all the same.
fn plan_of<'a>(alloc: Global, bytes: &'a [u8]) -> Result<Vec<&'a [u8]>, AllocError> {
    let mut files = Vec::new(alloc);
    for _file in PLAN_FILES {
        files.push(bytes)?;
    }
    Ok(files)
}

/// Puts a plan in place whose files are all the same, and answers how many tables were kept.
fn put_plan(rt: HostRuntime, folder: &str, bytes: &[u8]) -> io::Result<usize> {
    let mut place = PlanFolder::open(rt, folder)?;
    mend(&mut place, PLAN_FILES.len())?;
    let files = plan_of(rt.alloc(), bytes)?;
    put(&mut place, files.as_slice())?;
    Ok(place.take_kept().len())
}

#[test]
fn edited_tables_keep_names_of_their_own(rt: HostRuntime) -> Result<(), Fail> {
    fs::create_dir_all(&rt, "tables")?;
    assert_eq!(rt; put_plan(rt, "tables", b"one")?, 0);
    assert_eq!(rt; put_plan(rt, "tables", b"two")?, 0);
    fs::write(&rt, "tables/duties.csv", "mine")?;
    assert_eq!(rt; put_plan(rt, "tables", b"three")?, 1);
    assert_eq!(rt;
        fs::read_to_string(&rt, "tables/duties.csv.1")?.as_str(),
        "mine"
    );
    for name in ["report", "rota.csv", "duties.csv", "cover.csv", "plan.html"] {
        let path = format!(in rt.alloc(); "tables/{name}")?;
        assert_eq!(rt; fs::read_to_string(&rt, path.as_str())?.as_str(), "three");
    }
    Ok(())
}

#[test]
fn what_stands_under_other_names_is_finished_or_cleared_away(rt: HostRuntime) -> Result<(), Fail> {
    fs::create_dir_all(&rt, "begun")?;
    assert_eq!(rt; put_plan(rt, "begun", b"old")?, 0);
    fs::write(&rt, "begun/report.new", "new")?;
    let mut place = PlanFolder::open(rt, "begun")?;
    assert!(rt; !mend(&mut place, PLAN_FILES.len())?);
    assert!(rt; !fs::exists(&rt, "begun/report.new")?);
    assert_eq!(rt; fs::read_to_string(&rt, "begun/report")?.as_str(), "old");
    fs::write(&rt, "begun/report.new", "new")?;
    place.mark()?;
    assert!(rt; is_unfinished(rt, "begun")?);
    assert!(rt; mend(&mut place, PLAN_FILES.len())?);
    assert!(rt; !is_unfinished(rt, "begun")?);
    assert_eq!(rt; fs::read_to_string(&rt, "begun/report")?.as_str(), "new");
    Ok(())
}

#[test]
fn a_folder_is_had_by_one(rt: HostRuntime) -> Result<(), Fail> {
    fs::create_dir_all(&rt, "had")?;
    let place = PlanFolder::open(rt, "had")?;
    match PlanFolder::open(rt, "had") {
        Ok(_) => return Err(Fail::from("two have one folder")),
        Err(why) => assert!(rt; why.kind() == io::ErrorKind::WouldBlock),
    }
    let _had = place;
    Ok(())
}

//! Tables that are read as a document, and the tables of a document.

use instance_tables::{Table, TableBytes, TableTexts, exported, imported};
use planning_runs::{PlanRefusal, read_table, say};
use planning_searches::{hours_wanted, read_instance};
use planning_words::{TableWords, make_folder, write_kept};
use refusal_texts::Role;
use shift_instance::Instance;
use std::alloc::{AllocError, Global};
use std::fs;
use std::io::ErrorKind;

/// The path of a table in a folder.
fn path_in(alloc: Global, folder: &str, table: Table) -> Result<String, AllocError> {
    let name = table.file_name();
    format!(in alloc; "{folder}/{name}")
}

/// The bytes of a table in a folder.
fn table_in(rt: HostRuntime, folder: &str, table: Table) -> Result<Vec<u8>, PlanRefusal> {
    let path = path_in(rt.alloc(), folder, table)?;
    read_table(rt, path.as_str())
}

/// The bytes of the table of break rules in a folder, where it is there.
fn rules_in(rt: HostRuntime, folder: &str) -> Result<Option<Vec<u8>>, PlanRefusal> {
    let path = path_in(rt.alloc(), folder, Table::Rules)?;
    match fs::exists(&rt, path.as_str()) {
        Ok(false) => Ok(None),
        _ => Ok(Some(read_table(rt, path.as_str())?)),
    }
}

/// The bytes of the tables in a folder.
#[derive(Drop)]
struct TableFiles {
    settings: Vec<u8>,
    need: Vec<u8>,
    types: Vec<u8>,
    rules: Option<Vec<u8>>,
}

/// The bytes of the tables in a folder.
fn tables_in(rt: HostRuntime, folder: &str) -> Result<TableFiles, PlanRefusal> {
    let settings = table_in(rt, folder, Table::Settings)?;
    let need = table_in(rt, folder, Table::Need)?;
    let types = table_in(rt, folder, Table::Types)?;
    let rules = rules_in(rt, folder)?;
    Ok(TableFiles {
        settings,
        need,
        types,
        rules,
    })
}

/// The instance of tables.
fn instance_of(alloc: Global, files: &TableFiles) -> Result<Instance, PlanRefusal> {
    let tables = TableBytes {
        settings: files.settings.as_slice(),
        need: files.need.as_slice(),
        types: files.types.as_slice(),
        rules: files.rules.as_ref().map(Vec::as_slice),
    };
    match imported(alloc, &tables) {
        Ok(instance) => Ok(instance),
        Err(why) => Err(PlanRefusal::tables(alloc, &why)),
    }
}

/// The instance of the tables in a folder.
fn instance_of_folder(rt: HostRuntime, folder: &str) -> Result<Instance, PlanRefusal> {
    let files = tables_in(rt, folder)?;
    instance_of(rt.alloc(), &files)
}

/// Says under which name another file that stood in a folder is kept.
fn tell_kept(rt: HostRuntime, name: &str, kept: &str) {
    let kept = kept.strip_prefix("./").unwrap_or(kept);
    let _ = eprintln!(rt; "shift_plan: another {name} stood there; it is {kept} now");
}

/// The refusal where a file of a folder can't be written.
fn unwritten(alloc: Global, role: Role, folder: &str, name: &str, why: ErrorKind) -> PlanRefusal {
    match format!(in alloc; "{folder}/{name}") {
        Ok(path) => PlanRefusal::unwritten(alloc, role, path.as_str(), why),
        Err(none) => PlanRefusal::from(none),
    }
}

/// Writes a file of a folder, and says under which name another one that stood there is kept, if one is.
fn write_file(
    rt: HostRuntime,
    role: Role,
    folder: &str,
    name: &str,
    bytes: &[u8],
) -> Result<(), PlanRefusal> {
    match write_kept(rt, folder, name, bytes) {
        Ok(None) => Ok(()),
        Ok(Some(kept)) => {
            tell_kept(rt, name, kept.as_str());
            Ok(())
        }
        Err(why) => Err(unwritten(rt.alloc(), role, folder, name, why.kind())),
    }
}

/// The folder and the name of a file, by its path.
fn folder_and_name(path: &str) -> (&str, &str) {
    match path.rsplit_once('/') {
        Some(("", name)) => ("/", name),
        Some((folder, name)) => (folder, name),
        None => (".", path),
    }
}

/// What is said of a document that is written.
fn written_text(
    alloc: Global,
    words: &TableWords,
    instance: &Instance,
) -> Result<String, AllocError> {
    let parts = instance.parts();
    let wanted = hours_wanted(alloc, instance)?;
    format!(in alloc;
        "The document is {}. Days: {}, minutes of a slot: {}, hours wanted: {}, types: {}, shifts: {}.\n",
        words.instance,
        parts.days,
        parts.slot_minutes,
        wanted.as_str(),
        parts.types.len(),
        instance.shifts().len()
    )
}

/// Writes the document of an instance as the words say.
fn write_document(
    rt: HostRuntime,
    words: &TableWords,
    instance: &Instance,
) -> Result<(), PlanRefusal> {
    let document = instance_json::canonical(rt.alloc(), instance)?;
    let (folder, name) = folder_and_name(words.instance);
    write_file(rt, Role::Instance, folder, name, document.as_slice())
}

/// Reads the tables in a folder and writes their document.
pub(crate) fn import(rt: HostRuntime, words: &TableWords) -> Result<(), PlanRefusal> {
    let instance = instance_of_folder(rt, words.folder)?;
    write_document(rt, words, &instance)?;
    let text = written_text(rt.alloc(), words, &instance)?;
    say(rt, text.as_str());
    Ok(())
}

/// Makes the folder of the tables, where it isn't there.
fn ready_folder(rt: HostRuntime, folder: &str) -> Result<(), PlanRefusal> {
    match make_folder(&rt, folder) {
        Ok(()) => Ok(()),
        Err(why) => Err(PlanRefusal::unwritten(rt.alloc(), Role::TableFolder, folder, why.kind())),
    }
}

/// Writes a table to a folder.
fn write_table(
    rt: HostRuntime,
    folder: &str,
    table: Table,
    text: &Vec<u8>,
) -> Result<(), PlanRefusal> {
    write_file(rt, Role::Table, folder, table.file_name(), text.as_slice())
}

/// Writes all tables to a folder.
fn write_tables(rt: HostRuntime, folder: &str, texts: &TableTexts) -> Result<(), PlanRefusal> {
    write_table(rt, folder, Table::Settings, &texts.settings)?;
    write_table(rt, folder, Table::Need, &texts.need)?;
    write_table(rt, folder, Table::Types, &texts.types)?;
    write_table(rt, folder, Table::Rules, &texts.rules)
}

/// The tables of the instance of a document in a file.
fn tables_of(rt: HostRuntime, instance: &str) -> Result<TableTexts, PlanRefusal> {
    let read = read_instance(rt, instance)?;
    Ok(exported(rt.alloc(), &read.instance)?)
}

/// Writes the tables of a document to a folder.
pub(crate) fn export(rt: HostRuntime, words: &TableWords) -> Result<(), PlanRefusal> {
    let folder = words.folder;
    let texts = tables_of(rt, words.instance)?;
    ready_folder(rt, folder)?;
    write_tables(rt, folder, &texts)?;
    let text = format!(in rt.alloc();
        "The tables are in the folder {folder}: settings.csv, need.csv, types.csv and rules.csv.\n"
    )?;
    say(rt, text.as_str());
    Ok(())
}

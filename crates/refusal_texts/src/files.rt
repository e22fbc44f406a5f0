//! The sentence for a file that can't be read or written.
ghost use Rattle.std.specs.Prelude.{◌≡◌, ◌++◌, ℕ, List, codes, IfOk, string_bytes};
ghost use Rattle.refusal_texts.specs.Files.{role_text};

use std::alloc::{AllocError, Global};
use std::io::ErrorKind;

/// What a file is to whoever named it.
#[derive(Clone, Copy, PartialEq, Eq, Drop)]
pub enum Role {
    /// The document of an instance.
    Instance,
    /// The report of a search.
    Report,
    /// The journal of a search.
    Journal,
    /// A file of a plan.
    Plan,
    /// The folder of a plan.
    Folder,
    /// A table of an instance.
    Table,
    /// The folder of the tables of an instance.
    TableFolder,
}

impl Role {
    /// The word for such a file.
    fn word(self) -> &'static str
        ensures { result.now ≡ role_text self }
    {
        match self {
            Role::Instance => "the instance",
            Role::Report => "the report",
            Role::Journal => "the journal",
            Role::Plan => "the plan's file",
            Role::Folder => "the plan's folder",
            Role::Table => "the table",
            Role::TableFolder => "the folder of the tables",
        }
    }
}

/// Why a call on a file failed, and what to do.
fn why(kind: ErrorKind) -> &'static str {
    match kind {
        ErrorKind::NotFound => "isn't there; see how it is spelled, and that its folder is there",
        ErrorKind::PermissionDenied => "may not be used: whoever runs this has no leave for it",
        ErrorKind::ReadOnlyFilesystem => "may not be written: its disk is read-only",
        ErrorKind::IsADirectory => "is a folder; name a file",
        ErrorKind::NotADirectory => "is in what is no folder",
        ErrorKind::AlreadyExists => "is there already",
        ErrorKind::StorageFull | ErrorKind::QuotaExceeded => {
            "couldn't be written whole: its disk is full"
        }
        ErrorKind::FileTooLarge => "has become larger than its disk allows",
        ErrorKind::WouldBlock | ErrorKind::ResourceBusy => "is in use: another run has it",
        ErrorKind::InvalidFilename => "has a name that its disk doesn't allow",
        ErrorKind::BrokenPipe => "was closed by whoever reads it",
        ErrorKind::OutOfMemory => "found no memory",
        _ => "failed: the system gives no cause that is known here",
    }
}

/// The sentence of a file: a word for it, its path in quotes, and why a call on it failed.
fn sentence_of(alloc: Global, word: &str, path: &str, why: &str) -> Result<String, AllocError>
    ensures { IfOk result (λ sentence. string_bytes sentence ≡ word.now ++ (codes " `" ++ (path.now ++ (codes "` " ++ why.now)))) }
{
    format!(in alloc; "{word} `{path}` {why}")
}

/// The sentence for whoever named a file on which a call failed: what the file is, its path in quotes, why, and what to do.
pub fn file_sentence(
    alloc: Global,
    role: Role,
    path: &str,
    kind: ErrorKind,
) -> Result<String, AllocError>
    ensures named { IfOk result (λ sentence. (rest : List ℕ) × (string_bytes sentence ≡ role_text role ++ (codes " `" ++ (path.now ++ (codes "` " ++ rest))))) }
{
    sentence_of(alloc, role.word(), path, why(kind))
}

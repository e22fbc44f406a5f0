//! The names of files that stand beside an instance's.

ghost use Rattle.std.specs.Path.{path_buf_bytes, IsWithExtension};
ghost use Rattle.std.specs.Prelude.{◌≡◌, codes, IfOk, IsTrue, ◌↔◌};

use std::alloc::{AllocError, Global};
use std::path::{Path, PathBuf};

/// The name of the journal beside an instance's file: that with the ending `.journal` in place of its own.
pub fn journal_beside(alloc: Global, instance: &str) -> Result<PathBuf, AllocError>
    ensures { IfOk result (λ path. IsWithExtension instance.now (codes "journal") (path_buf_bytes path)) }
{
    Path::new(instance).with_extension(alloc, "journal")
}

/// The name of the folder for the plan beside an instance's file: that with the ending `.plan` in place of its own.
pub fn folder_beside(alloc: Global, instance: &str) -> Result<PathBuf, AllocError>
    ensures { IfOk result (λ path. IsWithExtension instance.now (codes "plan") (path_buf_bytes path)) }
{
    Path::new(instance).with_extension(alloc, "plan")
}

/// The name of the JSON document beside an instance's file: that with the ending `.json` in place of its own.
pub fn document_beside(alloc: Global, instance: &str) -> Result<PathBuf, AllocError>
    ensures { IfOk result (λ path. IsWithExtension instance.now (codes "json") (path_buf_bytes path)) }
{
    Path::new(instance).with_extension(alloc, "json")
}

/// Whether two words name the same file as they stand.
pub fn is_same_file(one: &str, other: &str) -> bool
    ensures { IsTrue result ↔ (one.now ≡ other.now) }
{
    one == other
}

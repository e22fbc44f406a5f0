// Files and the standard streams. They tell nothing of their bytes: what the system does is trusted.
ghost use Rattle.std.specs.Prelude.{◌≡◌, ◌≤◌, None, IfOk, length};

use crate::faults::count_fault;
use crate::{Failed, Sink, Source};
use std::fs::File;
use std::io;
use std::io::Read;
use std::rt::Files;

/// A file of the system, read from its start on. It is opened at the first read.
#[derive(Drop)]
pub struct FileSource<R: Files<File = File> + Drop> {
    rt: R,
    path: String,
    file: Option<File>,
    calls: u64,
    faults: u64,
}

impl<R: Files<File = File> + Drop> FileSource<R> {
    /// The file of this path. It isn't touched before the first read.
    pub fn new(rt: R, path: String) -> FileSource<R>
        ensures calls { ⟦<FileSource<R> as Source>⟧.calls result ≡ 0 }
        ensures faults { ⟦<FileSource<R> as Source>⟧.faults result ≡ 0 }
    {
        FileSource {
            rt,
            path,
            file: None,
            calls: 0,
            faults: 0,
        }
    }
}

// Reads on in the file, opened if it wasn't.
fn read_some<R: Files<File = File>>(
    rt: &R,
    path: &str,
    file: &mut Option<File>,
    into: &mut [u8],
) -> io::Result<usize>
    ensures { IfOk result (λ n. n ≤ length into.new) }
{
    if file.is_none() {
        *file = Some(File::open(rt, path)?);
    }
    match file {
        Some(file) => file.read(into),
        None => Err(io::ErrorKind::NotFound.into()),
    }
}

impl<R: Files<File = File> + Drop> Source for FileSource<R> {
    ghost left = { λ source. None };

    ghost calls = { λ source. source.calls };

    ghost faults = { λ source. source.faults };

    fn read(&mut self, into: &mut [u8]) -> Result<usize, Failed> {
        self.calls = self.calls.saturating_add(1);
        match read_some(&self.rt, self.path.as_str(), &mut self.file, into) {
            Ok(count) => Ok(count),
            Err(_) => Err(count_fault(&mut self.faults)),
        }
    }
}

/// The standard input.
#[derive(Drop)]
pub struct StdSource<R: Input + Drop> {
    rt: R,
    calls: u64,
    faults: u64,
}

impl<R: Input + Drop> StdSource<R> {
    /// The standard input of this runtime.
    pub fn new(rt: R) -> StdSource<R>
        ensures calls { ⟦<StdSource<R> as Source>⟧.calls result ≡ 0 }
        ensures faults { ⟦<StdSource<R> as Source>⟧.faults result ≡ 0 }
    {
        StdSource {
            rt,
            calls: 0,
            faults: 0,
        }
    }
}

impl<R: Input + Drop> Source for StdSource<R> {
    ghost left = { λ source. None };

    ghost calls = { λ source. source.calls };

    ghost faults = { λ source. source.faults };

    fn read(&mut self, into: &mut [u8]) -> Result<usize, Failed> {
        self.calls = self.calls.saturating_add(1);
        match self.rt.reader().read(into) {
            Ok(count) => Ok(count),
            Err(_) => Err(count_fault(&mut self.faults)),
        }
    }
}

/// The standard output.
#[derive(Drop)]
pub struct StdSink<R: Print + Drop> {
    rt: R,
    faults: u64,
}

impl<R: Print + Drop> StdSink<R> {
    /// The standard output of this runtime.
    pub fn new(rt: R) -> StdSink<R>
        ensures { ⟦<StdSink<R> as Sink>⟧.faults result ≡ 0 }
    {
        StdSink { rt, faults: 0 }
    }
}

impl<R: Print + Drop> Sink for StdSink<R> {
    ghost held = { λ sink. None };

    ghost faults = { λ sink. sink.faults };

    fn write(&mut self, bytes: &[u8]) -> Result<usize, Failed> {
        match self.rt.write_some(bytes) {
            Ok(count) if count > 0 || bytes.is_empty() => Ok(count),
            _ => Err(count_fault(&mut self.faults)),
        }
    }
}

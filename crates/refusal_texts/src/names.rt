//! Names that stand more than once in one object of a document.

use crate::encodings::line_and_column;
use crate::texts::Within;
use std::alloc::{AllocError, Global};
use std::fmt;
use std::str::from_utf8;

/// A name that stands more than once in one object.
#[derive(Drop)]
pub struct RepeatedName {
    name: String,
    line: u64,
    again: u64,
}

impl fmt::Display for RepeatedName {
    /// Writes a sentence for a planner.
    fn fmt<W: fmt::Write>(&self, f: &mut fmt::Formatter<W>) -> fmt::Result {
        let RepeatedName { name, line, again } = self;
        write!(
            f,
            "the name `{name}` stands twice in one object, at line {line} and at line {again}: of a name that is repeated the last value counts"
        )
    }
}

/// The place of a name: its first byte, and the byte behind its last one.
#[derive(Clone, Copy, Drop)]
struct Name {
    first: usize,
    end: usize,
    /// Whether it was told that it is repeated.
    is_told: bool,
}

impl Name {
    /// The bytes of the name.
    fn bytes(self, document: &[u8]) -> &[u8] {
        document.get(self.first..self.end).unwrap_or(&[])
    }
}

/// An object or a list that isn't closed yet.
#[derive(Drop)]
struct Open {
    is_object: bool,
    /// Whether the next text is a name.
    awaits_name: bool,
    names: Vec<Name>,
}

impl Open {
    /// An object or a list that was opened just now.
    fn new(alloc: Global, is_object: bool) -> Open {
        Open {
            is_object,
            awaits_name: is_object,
            names: Vec::new(alloc),
        }
    }
}

/// A walk over the bytes of a document.
#[derive(Drop)]
struct Walk<'a> {
    alloc: Global,
    document: &'a [u8],
    within: Within,
    /// Where the last text begins.
    first: usize,
    open: Vec<Open>,
    found: Vec<RepeatedName>,
}

impl<'a> Walk<'a> {
    /// Notes that a name stands again.
    fn tell(&mut self, name: Name, again: Name) -> Result<(), AllocError> {
        let (line, _) = line_and_column(self.document, name.first);
        let (again, _) = line_and_column(self.document, again.first);
        let text = from_utf8(name.bytes(self.document)).unwrap_or("");
        let name = String::from_str(self.alloc, text)?;
        self.found.push(RepeatedName { name, line, again })?;
        Ok(())
    }

    /// Goes on behind a name. It is told once for an object that it is repeated.
    fn end_name(&mut self, name: Name) -> Result<(), AllocError> {
        let document = self.document;
        let Some(open) = self.open.last_mut() else {
            return Ok(());
        };
        open.awaits_name = false;
        let bytes = name.bytes(document);
        let Some(at) = open
            .names
            .iter()
            .position(|other| other.bytes(document) == bytes)
        else {
            open.names.push(name)?;
            return Ok(());
        };
        let before = open.names[at];
        open.names[at].is_told = true;
        if before.is_told {
            return Ok(());
        }
        self.tell(before, name)
    }

    /// Goes on behind a sign outside of texts.
    fn go_on(&mut self, byte: u8) -> Result<(), AllocError> {
        match byte {
            b'{' => self.open.push(Open::new(self.alloc, true))?,
            b'[' => self.open.push(Open::new(self.alloc, false))?,
            b'}' | b']' => {
                let _ = self.open.pop();
            }
            b',' => {
                if let Some(open) = self.open.last_mut() {
                    open.awaits_name = open.is_object;
                }
            }
            _ => {}
        }
        Ok(())
    }

    /// Goes on behind one more byte.
    fn step(&mut self, at: usize, byte: u8) -> Result<(), AllocError> {
        let before = self.within;
        self.within = before.behind(byte);
        match (before, self.within) {
            (Within::Rest, Within::Text) => {
                self.first = at.saturating_add(1);
                Ok(())
            }
            (Within::Rest, _) => self.go_on(byte),
            (Within::Text, Within::Rest) if self.awaits_name() => self.end_name(Name {
                first: self.first,
                end: at,
                is_told: false,
            }),
            _ => Ok(()),
        }
    }

    /// Whether a text that ends now is a name.
    fn awaits_name(&self) -> bool {
        self.open.last().is_some_and(|open| open.awaits_name)
    }
}

/// The names that stand more than once in one object of a document that is JSON, each once for an object, in the order in which they stand
/// again. Names are compared as they are written. The only error is running out of memory.
pub fn repeated_names(alloc: Global, document: &[u8]) -> Result<Vec<RepeatedName>, AllocError> {
    let mut walk = Walk {
        alloc,
        document,
        within: Within::Rest,
        first: 0,
        open: Vec::new(alloc),
        found: Vec::new(alloc),
    };
    for (at, byte) in document.iter().enumerate() {
        walk.step(at, *byte)?;
    }
    Ok(walk.found)
}

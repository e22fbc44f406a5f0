//! Where the canonical texts of two instances differ first, as a place in their documents with both values.

use std::alloc::{AllocError, Global};
use std::str::from_utf8;

/// What a walk over a canonical text has entered and not left.
#[derive(Clone, Copy, Drop)]
enum Open {
    /// An object, at the member whose name stands from one byte to another.
    Object { first: usize, end: usize },
    /// A list, at an entry, counted from 0.
    List { entry: u64 },
}

/// Where a walk over the bytes of a canonical text is.
#[derive(Drop)]
struct Walk {
    open: Vec<Open>,
    /// Whether the next byte is in a text.
    is_in_text: bool,
    /// Whether the last byte of a text was a backslash that isn't itself escaped.
    is_escaped: bool,
    /// Where the last text begins, and where it ends.
    text: (usize, usize),
    /// Where the value or the name begins at which the walk is.
    value: usize,
    /// Whether it is a name.
    is_name: bool,
}

impl Walk {
    /// A walk that begins.
    fn new(alloc: Global) -> Walk {
        Walk {
            open: Vec::new(alloc),
            is_in_text: false,
            is_escaped: false,
            text: (0, 0),
            value: 0,
            is_name: false,
        }
    }

    /// Goes on by a byte of a text.
    fn go_on_in_text(&mut self, at: usize, byte: u8) {
        let ends = byte == b'"' && !self.is_escaped;
        self.is_escaped = byte == b'\\' && !self.is_escaped;
        if ends {
            self.is_in_text = false;
            self.text.1 = at;
        }
    }

    /// Goes on by a sign outside of texts, behind which stands a byte.
    fn go_on_outside(&mut self, next: usize, byte: u8) -> Result<(), AllocError> {
        match byte {
            b'"' => {
                self.is_in_text = true;
                self.text.0 = next;
            }
            b'{' => self.enter(Open::Object {
                first: next,
                end: next,
            })?,
            b'[' => self.enter(Open::List { entry: 0 })?,
            b'}' | b']' => {
                let _ = self.open.pop();
            }
            b':' => self.begin_member(),
            b',' => self.begin_entry(),
            _ => return Ok(()),
        }
        if byte != b'"' {
            self.value = next;
        }
        Ok(())
    }

    /// Enters an object or a list.
    fn enter(&mut self, open: Open) -> Result<(), AllocError> {
        self.is_name = matches!(open, Open::Object { .. });
        self.open.push(open)?;
        Ok(())
    }

    /// Begins the value of a member whose name was read last.
    fn begin_member(&mut self) {
        let (first, end) = self.text;
        self.is_name = false;
        if let Some(open) = self.open.last_mut() {
            *open = Open::Object { first, end };
        }
    }

    /// Begins the next entry of a list, or the next name of an object.
    fn begin_entry(&mut self) {
        let Some(open) = self.open.last_mut() else {
            return;
        };
        if let Open::List { entry } = *open {
            *open = Open::List {
                entry: entry.saturating_add(1),
            };
        } else {
            self.is_name = true;
        }
    }

    /// Goes on by one byte.
    fn go_on(&mut self, at: usize, byte: u8) -> Result<(), AllocError> {
        if self.is_in_text {
            self.go_on_in_text(at, byte);
            return Ok(());
        }
        self.go_on_outside(at.saturating_add(1), byte)
    }

    /// The place of the value at which the walk is, as a person writes it.
    fn place(&self, alloc: Global, text: &[u8]) -> Result<String, AllocError> {
        let mut place = String::new(alloc);
        for open in &self.open {
            match *open {
                Open::Object { first, end } => {
                    if !place.is_empty() {
                        place.push_str(".")?;
                    }
                    place.push_str(shown(text, first, end))?;
                }
                Open::List { entry } => {
                    let entry = format!(in alloc; "[{entry}]")?;
                    place.push_str(entry.as_str())?;
                }
            }
        }
        Ok(place)
    }
}

/// The bytes of a text from one place to another, where they are a text of themselves.
fn shown(text: &[u8], first: usize, end: usize) -> &str {
    from_utf8(text.get(first..end).unwrap_or(&[])).unwrap_or("?")
}

/// What stands at a place, up to the sign behind it: a name, or a value. Of a list and of an object it is said that they are one.
fn found_at(text: &[u8], from: usize) -> &str {
    match text.get(from).copied() {
        Some(b'[') => return "a list",
        Some(b'{') => return "an object",
        Some(b',' | b']' | b'}') => return "nothing",
        _ => {}
    }
    let mut is_in_text = false;
    let mut is_escaped = false;
    for (at, byte) in text.iter().enumerate().skip(from) {
        match *byte {
            b'"' if !is_escaped => is_in_text = !is_in_text,
            b',' | b':' | b']' | b'}' if !is_in_text => return shown(text, from, at),
            _ => {}
        }
        is_escaped = *byte == b'\\' && !is_escaped;
    }
    "nothing"
}

/// Where two canonical texts that differ first at a byte differ: the place in their documents, and what stands there in the one and in the
/// other. The only error is running out of memory.
pub fn difference(
    alloc: Global,
    ours: &[u8],
    theirs: &[u8],
    at: u64,
) -> Result<String, AllocError> {
    let mut walk = Walk::new(alloc);
    for (k, byte) in ours.iter().enumerate().take(at as usize) {
        walk.go_on(k, *byte)?;
    }
    let place = walk.place(alloc, ours)?;
    let here = found_at(ours, walk.value);
    let there = found_at(theirs, walk.value);
    if walk.is_name {
        return format!(in alloc;
            "the two differ first behind {place}: what comes next is {here} in the document, and {there} in the journal's instance"
        );
    }
    if here == there {
        return format!(in alloc;
            "the two differ first in the list at {place}, which has more entries in one of them"
        );
    }
    format!(in alloc;
        "the two differ first at {place}: it is {here} in the document, and {there} in the journal's instance"
    )
}

//! The cells of a line.

use std::alloc::{AllocError, Global};
use std::mem;

/// Where a letter stands in a cell.
#[derive(Clone, Copy, PartialEq, Drop)]
enum Within {
    /// Before the cell's text.
    Begin,
    /// In a text without quotation marks around it.
    Bare,
    /// In a text in quotation marks.
    Quoted,
    /// Behind a quotation mark in such a text, which ends it or is the first of two.
    Mark,
}

/// The cells of a line that is read letter by letter.
#[derive(Drop)]
struct Splitter {
    /// The cells that have ended.
    cells: Vec<String>,
    /// The text of the next one so far.
    cell: String,
    /// Where the next letter stands.
    within: Within,
}

impl Splitter {
    /// Ends a cell.
    fn end(&mut self, alloc: Global) -> Result<(), AllocError> {
        let cell = mem::replace(&mut self.cell, String::new(alloc));
        self.within = Within::Begin;
        self.cells.push(cell)?;
        Ok(())
    }

    /// Adds a letter to the text of a cell.
    fn add(&mut self, letter: char, within: Within) -> Result<(), AllocError> {
        self.within = within;
        self.cell.push(letter)
    }

    /// Reads a letter. Blanks before a text are passed over.
    fn read(&mut self, alloc: Global, separator: char, letter: char) -> Result<(), AllocError> {
        match self.within {
            Within::Begin if letter == '"' => self.within = Within::Quoted,
            Within::Begin if letter.is_whitespace() => {}
            Within::Quoted if letter == '"' => self.within = Within::Mark,
            Within::Quoted => self.add(letter, Within::Quoted)?,
            Within::Mark if letter == '"' => self.add(letter, Within::Quoted)?,
            _ if letter == separator => self.end(alloc)?,
            _ => self.add(letter, Within::Bare)?,
        }
        Ok(())
    }
}

/// The cells of a line. There are none where a quotation mark at the beginning of a cell doesn't end in the line, or where a carriage
/// return stands in it.
pub(crate) fn cells_in(
    alloc: Global,
    separator: char,
    line: &str,
) -> Result<Option<Vec<String>>, AllocError> {
    let mut splitter = Splitter {
        cells: Vec::new(alloc),
        cell: String::new(alloc),
        within: Within::Begin,
    };
    for letter in line.chars() {
        if letter == '\r' {
            return Ok(None);
        }
        splitter.read(alloc, separator, letter)?;
    }
    if splitter.within == Within::Quoted {
        return Ok(None);
    }
    splitter.end(alloc)?;
    let Splitter { cells, .. } = splitter;
    Ok(Some(cells))
}

//! Two texts beside each other.

use break_rules::NoMemory;
use std::alloc::Global;

/// How many bytes the longest line of a text has.
fn width_of(text: &str) -> usize {
    let mut width = 0;
    for line in text.lines() {
        width = line.len().max(width);
    }
    width
}

/// Adds so many spaces.
fn add_spaces(text: &mut String, count: usize) -> Result<(), NoMemory> {
    for _ in 0..count {
        text.push_str(" ")?;
    }
    Ok(())
}

/// Adds a line of each text.
fn add_pair(text: &mut String, left: &str, right: &str, width: usize) -> Result<(), NoMemory> {
    text.push_str(left)?;
    if !right.is_empty() {
        add_spaces(text, width.saturating_sub(left.len()))?;
        text.push_str(right)?;
    }
    text.push_str("\n")
}

/// The lines of two texts beside each other, of the first at the left.
pub fn side_by_side(alloc: Global, left: &str, right: &str) -> Result<String, NoMemory> {
    let width = width_of(left).saturating_add(4);
    let mut rights = right.lines();
    let mut text = String::new(alloc);
    for line in left.lines() {
        add_pair(&mut text, line, rights.next().unwrap_or(""), width)?;
    }
    for line in rights {
        add_pair(&mut text, "", line, width)?;
    }
    Ok(text)
}

//! Long sentences in lines that a terminal shows whole.
use std::alloc::{AllocError, Global};

/// How many bytes a line has at most, where its words allow that.
const WIDTH: usize = 78;

/// What stands before each line of a sentence but its first.
const INDENT: &str = "    ";

/// A sentence in lines, broken at blanks. Each line ends in a line feed.
pub(crate) fn wrapped(alloc: Global, sentence: &str) -> Result<String, AllocError> {
    let mut lines = String::new(alloc);
    let mut width = 0usize;
    for word in sentence.split(' ') {
        let with_word = width.saturating_add(1).saturating_add(word.len());
        if width == 0 {
            width = word.len();
        } else if with_word <= WIDTH {
            lines.push_str(" ")?;
            width = with_word;
        } else {
            lines.push_str("\n")?;
            lines.push_str(INDENT)?;
            width = INDENT.len().saturating_add(word.len());
        }
        lines.push_str(word)?;
    }
    lines.push_str("\n")?;
    Ok(lines)
}

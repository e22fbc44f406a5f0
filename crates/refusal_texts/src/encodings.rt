//! Why a text isn't JSON: its bytes, and the place where it departs from JSON, with what stands there.
use crate::texts::Within;
use serde_json::{Error, Value};
use std::alloc::{AllocError, Global};
use std::str::from_utf8;

/// What to write in place of bytes that are no UTF-8.
const SAVE: &str = "save it as UTF-8 without a byte order mark";

/// Whether a byte is a blank of JSON.
fn is_blank(byte: u8) -> bool {
    byte == b' ' || byte == b'\t' || byte == b'\n' || byte == b'\r'
}

/// What the first bytes of a document say of how it was saved, where it isn't UTF-8 without a mark.
fn encoding_of(document: &[u8]) -> Option<&'static str> {
    match document {
        [0xef, 0xbb, 0xbf, ..] => Some("begins with a byte order mark"),
        [0xff, 0xfe, ..] | [0xfe, 0xff, ..] => Some("is UTF-16"),
        [0, ..] | [_, 0, ..] => Some("is UTF-16 or UTF-32"),
        _ => None,
    }
}

/// The line and the column of a byte, both from 1 on; a column is a character.
pub(crate) fn line_and_column(document: &[u8], at: usize) -> (u64, u64) {
    let mut line = 1u64;
    let mut column = 1u64;
    for byte in document.iter().take(at) {
        match *byte {
            b'\n' => {
                line = line.saturating_add(1);
                column = 1;
            }
            // the bytes of a character behind its first one
            0x80..=0xbf => {}
            _ => column = column.saturating_add(1),
        }
    }
    (line, column)
}

/// The byte at a line and a column, both from 1 on.
fn byte_at(document: &[u8], line: usize, column: usize) -> usize {
    let mut at = 0usize;
    for text in document
        .split(|byte| *byte == b'\n')
        .take(line.saturating_sub(1))
    {
        at = at.saturating_add(text.len()).saturating_add(1);
    }
    at.saturating_add(column.saturating_sub(1))
}

/// The first byte from a place on that is no blank, with its place.
fn first_ink(document: &[u8], at: usize) -> Option<(usize, u8)> {
    let (from, byte) = document
        .iter()
        .enumerate()
        .skip(at)
        .find(|(_, byte)| !is_blank(**byte))?;
    Some((from, *byte))
}

/// The last byte before a place that is no blank.
fn last_ink(document: &[u8], at: usize) -> Option<u8> {
    let mut found = None;
    for byte in document.iter().take(at) {
        if !is_blank(*byte) {
            found = Some(*byte);
        }
    }
    found
}

/// What is wrong where a text departs from JSON, by the byte there and the last one before it.
fn cause(before: Option<u8>, byte: u8) -> &'static str {
    match (before, byte) {
        (Some(b','), b'}' | b']') => "the comma before this bracket is one too many",
        (_, b'/' | b'#') => "JSON has no comments; take them out",
        (_, b'\'') => "texts and names stand in double quotes",
        (_, b'+' | b'.') => "a number begins with a digit, or with - and a digit",
        (Some(b':' | b',' | b'['), b'0'..=b'9' | b'-') => {
            "this is no number of JSON: a number has no zero before its digits and no blank in it"
        }
        (Some(b'['), b'[' | b'{') | (Some(b':'), b'[' | b'{') => {
            "lists and objects lie deeper in one another than 127"
        }
        (Some(b'"'), b'a'..=b'z' | b'A'..=b'Z') => {
            "a comma is missing before it, or a quote is missing or one too many"
        }
        (_, b'a'..=b'z' | b'A'..=b'Z' | b'_') => {
            "names and texts stand in double quotes; of words there are only true, false and null"
        }
        (Some(b'0'..=b'9'), b',' | b'}') => {
            "a number has no comma in it, and numbers in a row stand in [ and ]"
        }
        (Some(b'0'..=b'9'), b':') => "times are numbers of slots, and not written as on a clock",
        (Some(b'}' | b']'), b'"' | b'{' | b'[') => {
            "a comma is missing before it, the bracket before it is of another kind than was opened, or the document ended there"
        }
        (_, b'"' | b'{' | b'[' | b'0'..=b'9' | b'-') => {
            "a comma, a colon or a bracket is missing before it, or one before it is of another kind than was opened"
        }
        (_, b'}' | b']') => {
            "a name or a value is missing before it, or it closes another kind than was opened"
        }
        _ => "a value is missing, or a comma, a colon or a bracket is one too many",
    }
}

/// The places of the brackets and quotes before a place that aren't closed before it, the first opened first.
fn open_before(alloc: Global, document: &[u8], end: usize) -> Result<Vec<usize>, AllocError> {
    let mut open = Vec::new(alloc);
    let mut within = Within::Rest;
    for (at, byte) in document.iter().enumerate().take(end) {
        let next = within.behind(*byte);
        match (within, next, *byte) {
            (Within::Rest, Within::Text, _) | (Within::Rest, _, b'{' | b'[') => open.push(at)?,
            (Within::Text, Within::Rest, _) | (Within::Rest, _, b'}' | b']') => {
                let _ = open.pop();
            }
            _ => {}
        }
        within = next;
    }
    Ok(open)
}

/// What is said of a document that ends before its object does.
fn ends_early(alloc: Global, document: &[u8]) -> Result<String, AllocError> {
    let open = open_before(alloc, document, document.len())?;
    let Some(at) = open.last().copied() else {
        return String::from_str(alloc, " ends too early: a value is missing");
    };
    let (line, column) = line_and_column(document, at);
    let sign = char::from(document.get(at).copied().unwrap_or(b'{'));
    format!(in alloc;
        " ends too early: the `{sign}` at line {line}, column {column} (both from 1 on) isn't closed"
    )
}

/// Whether the object of a document ends before a place.
fn is_behind_the_end(alloc: Global, document: &[u8], at: usize) -> Result<bool, AllocError> {
    let is_closed = matches!(last_ink(document, at), Some(b'}' | b']'));
    Ok(is_closed && open_before(alloc, document, at)?.is_empty())
}

/// What is said of a document that goes on behind its object.
fn ends_late(alloc: Global, document: &[u8], at: usize) -> Result<String, AllocError> {
    let (line, column) = line_and_column(document, at);
    let sign = char::from(document.get(at).copied().unwrap_or(b'}'));
    format!(in alloc;
        " ends too late: its object ends before line {line}, column {column} (both from 1 on), where another `{sign}` stands; take out what is behind the object, or a bracket before closes it too early"
    )
}

/// What is said of a text that departs from JSON at a place.
fn departure(alloc: Global, document: &[u8], fault: &Error) -> Result<String, AllocError> {
    if fault.is_eof() {
        return ends_early(alloc, document);
    }
    let at = byte_at(document, fault.line(), fault.column());
    let Some((from, byte)) = first_ink(document, at) else {
        return ends_early(alloc, document);
    };
    if byte.is_ascii_graphic() && is_behind_the_end(alloc, document, from)? {
        return ends_late(alloc, document, from);
    }
    let (line, column) = line_and_column(document, from);
    let why = cause(last_ink(document, from), byte);
    let sign = char::from(byte);
    if byte.is_ascii_graphic() {
        format!(in alloc;
            " isn't JSON at line {line}, column {column} (both from 1 on), where `{sign}` stands: {why}"
        )
    } else {
        format!(in alloc; " isn't JSON at line {line}, column {column} (both from 1 on): {why}")
    }
}

/// What is said of bytes that are no UTF-8 from a place on.
fn undecoded(alloc: Global, document: &[u8], at: usize) -> Result<String, AllocError> {
    let (line, column) = line_and_column(document, at);
    format!(in alloc; " isn't UTF-8 at line {line}, column {column} (both from 1 on); {SAVE}")
}

/// Why a document isn't JSON, said behind the word for it.
pub(crate) fn why_no_json(alloc: Global, document: &[u8]) -> Result<String, AllocError> {
    if first_ink(document, 0).is_none() {
        return String::from_str(
            alloc,
            " is empty; it must be one JSON object, with slot_minutes, days, need, max_heads, weights and types",
        );
    }
    if let Some(encoding) = encoding_of(document) {
        return format!(in alloc; " {encoding}; {SAVE}");
    }
    match from_utf8(document) {
        Err(fault) => undecoded(alloc, document, fault.valid_up_to()),
        Ok(text) => match Value::from_str(alloc, text) {
            Err(fault) if !fault.is_memory() => departure(alloc, document, &fault),
            _ => String::from_str(alloc, " isn't JSON"),
        },
    }
}

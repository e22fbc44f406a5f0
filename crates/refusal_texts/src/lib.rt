//! Sentences for people whose document, file or journal is refused, or whose journal is full: what is wrong and where, what is
//! allowed, and what to do. And of a document that isn't refused, which names stand more than once in one object.
#![tactic(auto)]

mod differences;
mod documents;
mod encodings;
mod faults;
mod files;
mod found;
mod journals;
mod meanings;
mod names;
mod objects;
mod places;
mod ranges;
mod rules;
mod texts;

pub use differences::difference;
pub use documents::document_sentence;
pub use files::{Role, file_sentence};
pub use journals::{full_sentence, journal_sentence};
pub use names::{RepeatedName, repeated_names};

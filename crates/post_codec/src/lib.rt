//! Posts, the changes of a book that a journal keeps, and their bytes.
//!
//! Numbers are written with the least byte first, and a number below 0 in two's complement. A list of posts is the number of
//! posts in two bytes, and then the posts. Each post is a byte of its kind and two bytes of worker, and then:
//!
//! | Kind | Byte | Then |
//! |---|---|---|
//! | plan | 1 | eight bytes of cost, four of number of rows, and the rows |
//! | priced node | 2 | four bytes of node, and its prices |
//! | split | 3 | four bytes of node, the class, and two bytes of number of its duties |
//! | settled node | 4 | four bytes of node |
//!
//! A row is two bytes of shift, one of day, two of count and its breaks. A class is two bytes of shift, one of day and its
//! breaks. Breaks are one byte of number of breaks, and two of start and two of length for each. Prices are two bytes of scale,
//! four of number of slots and five for the price of each, and four of number of cuts and five for the price of each. Journals of
//! the first version have eight bytes in place of five.
#![tactic(auto)]

mod fault;
mod post;
mod price_width;
mod reading;
mod writing;

ghost use Rattle.post_codec.specs.declared.price_width.PriceWidth.{PriceWidth as AWidth};
ghost use Rattle.post_codec.specs.Fields.{FieldsSpell};
ghost use Rattle.post_codec.specs.Spelling.{EachSpellsOnce, EachIsSpelledOnce};

pub use fault::{CodecFault, Stop};
pub use post::Post;
pub use price_width::PriceWidth;
pub use reading::{read, read_by, read_v1};
pub use writing::write;

/// A law: by each width of a price, no bytes spell two lists of posts, no list has two spellings, and a list's fields are its
/// spelling in pieces.
pub fn one_spelling()
    ensures lists { (width : AWidth) → EachSpellsOnce width }
    ensures spellings { (width : AWidth) → EachIsSpelledOnce width }
    ensures fields { (width : AWidth) → FieldsSpell width }
{}

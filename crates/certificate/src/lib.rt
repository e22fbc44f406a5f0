//! Certificates of a search, and their text.
//!
//! A text has one line after another, each with a line feed: the title `shift-report 1`, `status optimal`, `status stopped` or
//! `status bound`, `cost C`, `bound L`, `rows K`, K lines `row SHIFT DAY COUNT BREAKS`, `proof M`, M proof lines and `end`.
//! Where there is no plan, `-` stands for the cost and for the number of rows. Breaks are `-` where there are none, else
//! `start+length` joined by `,`. Behind `end` any number of lines may stand that begin with `#`.
//!
//! A proof line is `split NODE SHIFT DAY BREAKS M`, `priced NODE SCALE SLOTS CUTS` or `settled NODE`. SLOTS are the prices of the
//! slots joined by `,`, at least one. CUTS are `-` where there are none, else the prices of the cuts joined by `,`.
//!
//! Numbers are decimal, without a leading zero, and without a sign but for a `-` before a slot's price below 0.
#![tactic(auto)]

mod fault;
mod history;
pub mod laws;
mod line_reader;
mod proof_lines;
mod proof_words;
mod proof_writing;
mod reading;
mod slot_words;
mod words;
mod writing;

pub use fault::CertText;
pub use history::of_history;
pub use line_reader::LineReader;
pub use proof_lines::{Line, Lines};
pub use reading::read;
use shift_instance::Rows;
pub use writing::write;

/// The most bytes that a text with its notes may have where it is read from outside.
pub const BUNDLE_MAX: u64 = 268_435_456;

/// What a certificate says of its plan.
#[derive(Clone, Copy, PartialEq, Eq, Drop)]
pub enum CertStatus {
    /// The plan costs the bound: no legal rota is said to cost less.
    Optimal,
    /// The search was stopped before that: the bound is below the cost of the plan.
    Stopped,
    /// There is a bound, and no plan.
    Bound,
}

/// What a search found: a plan, a bound below which it says that no legal rota costs, and a proof of that.
#[derive(Drop)]
pub struct Cert {
    /// What is said of the plan.
    pub status: CertStatus,
    /// The cost of the plan and its rows.
    pub plan: Option<(u64, Rows)>,
    /// The bound.
    pub bound: u64,
    /// The proof lines.
    pub lines: Lines,
}

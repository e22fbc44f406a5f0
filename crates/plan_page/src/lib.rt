//! A plan as one page to look at and to print: hypertext with pictures in it, which takes nothing from elsewhere.
#![tactic(auto)]

mod bars;
mod cells;
mod chart;
mod days;
mod escaping;
mod head;
mod overview;
mod page;
mod pictures;
mod sections;
mod stretches;

pub use page::{PageTexts, plan_page};
pub use sections::Section;

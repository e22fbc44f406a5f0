//! Plans for people: the search for one over a journal, the judgement on what it found or on a report that stands, why there is no plan,
//! and the files of one with what is said of it. A plan may get other rows in the place of its own. Where there is none, a cause has the
//! number that the program ends with, and the sentence that says so. Documents, reports and tables are read whole or refused. A search
//! ends before it is finished by its time or by a line of standard input.
#![tactic(auto)]

mod beginning;
mod beside;
mod judging;
mod listening;
mod other_rows;
mod placing;
mod plan;
mod reading;
mod refusal;
mod search;
mod sheets;
mod standings;

pub use beginning::{begun, shown_on};
pub use beside::Beside;
pub use judging::{Unshown, judged_plan};
pub use listening::enter_ends;
pub use other_rows::with_rows;
pub use placing::finish_folder;
pub use plan::JudgedPlan;
pub use reading::{read_document, read_report, read_table};
pub use refusal::{Cause, PlanRefusal};
pub use search::{Planned, search_plan};
pub use sheets::{ready_folder, say, show_plan};
pub use standings::standing;

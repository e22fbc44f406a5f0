//! What a run for a planner is asked for and what it goes by: the words of the command line, the files of a plan, how far a search has
//! come, and when it is to end. The words ask for a plan, for a report to be shown or judged, for its breaks to be planned anew, for two
//! plans to be compared, for the rules of an instance, or for tables to be read or written. The files are the journal of a search, which
//! one run alone has, the folder of a plan, whose files are put in place together, and files that are written whole, with what stood
//! there kept.
#![tactic(auto)]

mod breaks;
mod keeping;
mod kept_files;
mod line;
mod locked_journal;
mod names;
mod numbers;
mod placing;
mod plan_file;
mod plan_folder;
mod progress;
mod system_folder;
mod tables;
mod until;
mod verbs;
mod wanted;
mod watched;
mod whole_files;
mod words;

pub use breaks::BreaksWords;
pub use keeping::{CompareWords, LikeWords};
pub use kept_files::write_kept;
pub use line::{Reached, gap_of, progress_line};
pub use locked_journal::{LockFault, LockedJournal, set_aside};
pub use names::{document_beside, folder_beside, is_same_file, journal_beside};
pub use placing::{mend, put};
pub use plan_file::{PLAN_FILES, PlanFile};
pub use plan_folder::Folder;
pub use progress::{Progress, TimeLimits};
pub use system_folder::{KeptTable, PlanFolder, is_unfinished};
pub use tables::TableWords;
pub use until::Until;
pub use wanted::{
    CheckWords, PlanWords, RulesWords, ShowWords, StopOn, Unasked, Wanted, wanted_by,
};
pub use watched::{Shown, Watched};
pub use whole_files::make_folder;

//! The files of a plan and their names.

/// A file in the folder of a plan.
#[derive(Clone, Copy, PartialEq, Eq, Drop)]
pub enum PlanFile {
    /// The report of the search.
    Report,
    /// The rota, to be hung up.
    Rota,
    /// What was written last to the rota.
    RotaWritten,
    /// The table of the duties.
    Duties,
    /// What was written last to the table of the duties.
    DutiesWritten,
    /// The table of the slots.
    Cover,
    /// What was written last to the table of the slots.
    CoverWritten,
    /// The page.
    Page,
}

/// The files of a plan, in the order in which they are put in place. A table comes before what was written last to it, so that one that was
/// edited is told by the other.
pub const PLAN_FILES: [PlanFile; 8] = [
    PlanFile::Report,
    PlanFile::Rota,
    PlanFile::RotaWritten,
    PlanFile::Duties,
    PlanFile::DutiesWritten,
    PlanFile::Cover,
    PlanFile::CoverWritten,
    PlanFile::Page,
];

impl PlanFile {
    /// Its name in the folder.
    pub fn name(self) -> &'static str {
        match self {
            PlanFile::Report => "report",
            PlanFile::Rota => "rota.csv",
            PlanFile::RotaWritten => ".written/rota.csv",
            PlanFile::Duties => "duties.csv",
            PlanFile::DutiesWritten => ".written/duties.csv",
            PlanFile::Cover => "cover.csv",
            PlanFile::CoverWritten => ".written/cover.csv",
            PlanFile::Page => "plan.html",
        }
    }

    /// The file with what was written last to it, if people may edit it.
    pub(crate) fn written(self) -> Option<PlanFile> {
        match self {
            PlanFile::Rota => Some(PlanFile::RotaWritten),
            PlanFile::Duties => Some(PlanFile::DutiesWritten),
            PlanFile::Cover => Some(PlanFile::CoverWritten),
            _ => None,
        }
    }
    /// Whether it is what was written last to another file.
    pub(crate) fn is_copy(self) -> bool {
        matches!(
            self,
            PlanFile::RotaWritten | PlanFile::DutiesWritten | PlanFile::CoverWritten
        )
    }
}

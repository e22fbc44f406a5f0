//! Laws of guarded texts. Each function's contract is the law; the functions change nothing.
ghost use Rattle.table_records.specs.Guarding.{GuardsComeOff};

/// A guarded text is read as the text that was guarded.
pub fn guards_come_off()
    ensures { GuardsComeOff }
{}

//! Laws of tables, as contracts of functions with empty bodies.
ghost use Rattle.rota_writer.specs.Notes.{TablesAreNotes, TextsTakeTables};

/// The table of rows, for a valid instance, is lines of notes. So a certificate's text with a table behind it is a text of that
/// certificate, and of no other (`certificate::laws::one_text`).
pub fn tables_are_notes()
    ensures notes { TablesAreNotes }
    ensures texts { TextsTakeTables }
{}

//! The words that ask for tables to be read or written.

use clap::ArgMatches;

/// The words that ask for the document of tables, or for the tables of a document.
#[derive(Clone, Copy, Drop)]
pub struct TableWords<'a> {
    /// The file of the instance document.
    pub instance: &'a str,
    /// The folder of the tables.
    pub folder: &'a str,
}

/// What the words behind `import` or `export` ask for.
pub(crate) fn table_words<'a>(matches: &ArgMatches<'a>) -> TableWords<'a> {
    TableWords {
        // required words are there
        instance: matches.get_str("INSTANCE").unwrap_or(""),
        folder: matches.get_str("FOLDER").unwrap_or(""),
    }
}

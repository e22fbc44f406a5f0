//! Records of comma-separated values, one after another.
ghost use Rattle.std.specs.Prelude.{◌≡◌, ◌++◌, [], IfOk, map, string_bytes};
ghost use Rattle.csv.specs.Writing.{default_writer, row_text};

use csv::{Writer, WriterBuilder};
use std::alloc::{AllocError, Global};
use std::marker::Model;

/// The bytes of texts.
fn bytes_of(alloc: Global, texts: &[String]) -> Result<Vec<&[u8]>, AllocError>
    ensures { IfOk result (λ fields. map (λ f. f.now) fields.items ≡ map string_bytes texts.now) }
{
    let mut fields = Vec::new(alloc);
    for text in texts {
        fields.push(text.as_bytes())?;
    }
    Ok(fields)
}

/// A text of records that grows. Contracts see the text.
#[derive(Drop)]
pub struct Records {
    writer: Writer<Vec<u8>>,
}

impl Model for Records {
    ghost use Rattle.std.specs.Prelude.{List, ℕ, ◌++◌};
    ghost use Rattle.csv.specs.Writing.{writer_pending, writer_under};

    ghost Value = { List ℕ };

    ghost view = { λ r. (writer_under r.writer).items ++ writer_pending r.writer };

    ghost use Rattle.table_records.specs.Written.{IsBetweenRecords};

    ghost invariant = { λ r. IsBetweenRecords r.writer };
}

impl Records {
    /// The text without a record.
    pub fn new(alloc: Global) -> Records
        ensures { result ≡ [] }
    {
        Records {
            writer: WriterBuilder::new().from_writer(Vec::new(alloc)),
        }
    }

    /// The text with one record more.
    pub fn with(self, fields: &[&[u8]]) -> Result<Records, AllocError>
        ensures { IfOk result (λ r. r ≡ self ++ row_text default_writer (map (λ f. f.now) fields.now)) }
    {
        let Records { mut writer } = self;
        match writer.write_fields(fields) {
            Ok(()) => Ok(Records { writer }),
            Err(_) => Err(AllocError),
        }
    }

    /// The text with one record more, of texts.
    pub fn with_texts(self, alloc: Global, texts: &[String]) -> Result<Records, AllocError>
        ensures { IfOk result (λ r. r ≡ self ++ row_text default_writer (map string_bytes texts.now)) }
    {
        let fields = bytes_of(alloc, texts)?;
        self.with(fields.as_slice())
    }

    /// The text, as bytes.
    pub fn into_bytes(self) -> Result<Vec<u8>, AllocError>
        ensures { IfOk result (λ text. text.items ≡ self) }
    {
        match self.writer.into_inner() {
            Ok(text) => Ok(text),
            Err(_) => Err(AllocError),
        }
    }
}

//! Names of fields.
ghost use Rattle.std.specs.Prelude.{◌≡◌, IfOk};
ghost use Rattle.instance_json.specs.Departures.{shown};

use std::alloc::{AllocError, Global};
use std::fmt;
use std::marker::Model;
use std::str::from_utf8;

/// The most bytes of a name that a refusal shows.
const NAME_MAX: usize = 64;

/// The name of a field, as a refusal shows it.
#[derive(Debug, Drop)]
pub struct FieldName {
    text: String,
}

impl Model for FieldName {
    ghost use Rattle.std.specs.Prelude.{ℕ, List, string_bytes};

    ghost Value = { List ℕ };

    ghost view = { λ n. string_bytes n.text };
}

impl fmt::Display for FieldName {
    ghost use Rattle.std.specs.Prelude.{Some};

    ghost output = { λ n. Some n };

    fn fmt<W: fmt::Write>(&self, f: &mut fmt::Formatter<W>) -> fmt::Result {
        f.write_str(self.text.as_str())
    }
}

impl FieldName {
    /// The name itself.
    pub fn as_str(&self) -> &str
        ensures { result.now ≡ self.now }
    {
        self.text.as_str()
    }

    /// A name, whatever its length.
    pub(crate) fn new(alloc: Global, name: &str) -> Result<FieldName, AllocError>
        ensures { IfOk result (λ n. n ≡ name.now) }
    {
        Ok(FieldName {
            text: String::from_str(alloc, name)?,
        })
    }

    /// The longest beginning of a name that has at most `NAME_MAX` bytes and ends at a character's end.
    pub(crate) fn beginning(alloc: Global, name: &str) -> Result<FieldName, AllocError>
        ensures { IfOk result (λ n. n ≡ shown name.now) }
    {
        let bytes = name.as_bytes();
        let front = &bytes[..bytes.len().min(NAME_MAX)];
        match from_utf8(front) {
            Ok(text) => FieldName::new(alloc, text),
            Err(cut) => match from_utf8(&front[..cut.valid_up_to()]) {
                Ok(text) => FieldName::new(alloc, text),
                Err(_) => unreachable!(),
            },
        }
    }
}

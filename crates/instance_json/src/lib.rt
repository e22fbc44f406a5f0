//! The JSON document of an instance: what is read as an instance, and the one text that an instance is written as; and
//! instances that are made from a number.
#![tactic(auto)]

mod departures;
mod document;
mod fields;
mod generating;
pub mod laws;
mod name;
mod reading;
mod round_trip;
mod text;

pub use generating::generate;
pub use name::FieldName;
pub use reading::read;
pub use round_trip::read_back;
use shift_instance::InstanceFault;
use std::alloc::AllocError;
use std::error::Error;
use std::fmt;
pub use text::canonical;

/// The most bytes that a document may have.
pub const INSTANCE_MAX: usize = 1_048_576;

/// Why a text isn't read as an instance. `at` is 0 for the document and its weights, and 1 more than a type's place in
/// `types`, from 0 on, for that type and its breaks.
#[derive(Debug, Drop)]
pub enum ReadRefusal {
    /// It has more than `INSTANCE_MAX` bytes.
    TooLong,
    /// It isn't UTF-8, or isn't JSON.
    NotJson,
    /// A required field is missing.
    Missing { at: u64, field: FieldName },
    /// There is a field of a name that no field has; `field` is its first 64 bytes at most.
    UnknownField { at: u64, field: FieldName },
    /// The value of a field, or a value in it, is of another kind.
    WrongKind { at: u64, field: FieldName },
    /// The numbers of the document make no instance. Never holds `NoMemory`.
    Invalid(InstanceFault),
    /// No memory was left.
    NoMemory,
}

impl From<AllocError> for ReadRefusal {
    ghost use Rattle.std.specs.Prelude.{◌≡◌};
    ghost use Rattle.instance_json.specs.declared.ReadRefusal.TheVariants.{NoMemory};

    ghost from_gives = { λ _ e. e ≡ NoMemory };

    fn from(_refused: AllocError) -> ReadRefusal {
        ReadRefusal::NoMemory
    }
}

impl From<InstanceFault> for ReadRefusal {
    ghost use Rattle.std.specs.Prelude.{◌≡◌};
    ghost use Rattle.instance_json.specs.Reading.{refusal_of};

    ghost from_gives = { λ fault e. e ≡ refusal_of fault };

    fn from(fault: InstanceFault) -> ReadRefusal {
        match fault {
            InstanceFault::NoMemory => ReadRefusal::NoMemory,
            fault => ReadRefusal::Invalid(fault),
        }
    }
}

impl fmt::Display for ReadRefusal {
    ghost use Rattle.std.specs.Prelude.{Some};
    ghost use Rattle.instance_json.specs.RefusalText.{refusal_text};

    ghost output = { λ e. Some (refusal_text e) };

    /// Writes the refusal's number and its fields, separated by single spaces.
    fn fmt<W: fmt::Write>(&self, f: &mut fmt::Formatter<W>) -> fmt::Result {
        match self {
            ReadRefusal::TooLong => f.write_str("1"),
            ReadRefusal::NotJson => f.write_str("2"),
            ReadRefusal::Missing { at, field } => write!(f, "3 {at} {field}"),
            ReadRefusal::UnknownField { at, field } => write!(f, "4 {at} {field}"),
            ReadRefusal::WrongKind { at, field } => write!(f, "5 {at} {field}"),
            ReadRefusal::Invalid(fault) => write!(f, "6 {fault}"),
            ReadRefusal::NoMemory => f.write_str("no memory"),
        }
    }
}

impl Error for ReadRefusal {}

//! What is wrong with a refused document, in words for whoever wrote it: what stands there, and what may stand there. The place
//! isn't told here, and nothing is claimed of the words.

use crate::encodings::why_no_json;
use crate::found::value_of;
use crate::objects::{misshapen, missing, unknown};
use crate::ranges::invalid;
use instance_json::{INSTANCE_MAX, ReadRefusal};
use std::alloc::{AllocError, Global};

/// What is said of a document that is too long.
fn too_long(alloc: Global, document: &[u8]) -> Result<String, AllocError> {
    let len = document.len();
    if len <= INSTANCE_MAX {
        return String::from_str(
            alloc,
            " has more than 1,048,576 bytes, which is the most that is allowed; spaces and line ends may be left out",
        );
    }
    format!(in alloc;
        " has {len} bytes, and at most 1,048,576 are allowed; spaces and line ends may be left out"
    )
}

/// Says what is wrong with a document that is refused so, as a text that goes on behind the place of the refusal: what stands
/// there, read from the document again, and what may stand there, with ranges and units. The only error is running out
/// of memory.
pub(crate) fn what_is_wrong(
    alloc: Global,
    document: &[u8],
    refusal: &ReadRefusal,
) -> Result<String, AllocError> {
    match refusal {
        ReadRefusal::TooLong => too_long(alloc, document),
        ReadRefusal::NotJson => why_no_json(alloc, document),
        ReadRefusal::Missing { at: _, field } => missing(alloc, field.as_str()),
        ReadRefusal::UnknownField { at, field } => {
            let value = value_of(alloc, document)?;
            unknown(alloc, value.as_ref(), *at, field.as_str())
        }
        ReadRefusal::WrongKind { at, field } => {
            let value = value_of(alloc, document)?;
            misshapen(alloc, value.as_ref(), *at, field.as_str())
        }
        ReadRefusal::Invalid(fault) => {
            let value = value_of(alloc, document)?;
            invalid(alloc, value.as_ref(), fault)
        }
        ReadRefusal::NoMemory => {
            String::from_str(alloc, "there was no memory to read the document")
        }
    }
}

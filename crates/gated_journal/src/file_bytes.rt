// The bytes of a whole journal.
ghost use Rattle.std.specs.Prelude.{◌≡◌, ◌+◌, ◌^◌, ◌<◌, ◌≤◌, List, ℕ, [], ◌∷◌, ◌++◌, length, map, IfOk, OnOk};
ghost use Rattle.gated_journal.specs.Format.{framed, fresh, mark, spelled};

use std::alloc::{AllocError, Global};

const MARK: [u8; 8] = [b'S', b'H', b'I', b'F', b'T', b'J', b'2', b'\n'];

// The length of some bytes, and the bytes.
fn push_framed(file: &mut Vec<u8>, bytes: &[u8]) -> Result<(), AllocError>
    requires { length bytes.now < 2 ^ 32 }
    ensures { OnOk result (file.new.items ≡ file.old.items ++ framed bytes.now) }
{
    let size = bytes.len() as u32;
    file.extend_from_slice(&size.to_le_bytes())?;
    file.extend_from_slice(bytes)
}

// The mark and the header.
fn marked(alloc: Global, head: &[u8]) -> Result<Vec<u8>, AllocError>
    requires { length head.now < 2 ^ 32 }
    ensures { IfOk result (λ bytes. bytes.items ≡ mark ++ framed head.now) }
{
    let mut bytes = Vec::from_slice(alloc, &MARK)?;
    push_framed(&mut bytes, head)?;
    Ok(bytes)
}

/// The bytes of a journal without records.
pub(crate) fn first_file(alloc: Global, head: &[u8]) -> Result<Vec<u8>, AllocError>
    requires { length head.now < 2 ^ 32 }
    ensures { IfOk result (λ bytes. bytes.items ≡ fresh head.now) }
{
    let mut bytes = marked(alloc, head)?;
    bytes.push(0)?;
    Ok(bytes)
}

/// The bytes of a journal with records.
pub(crate) fn whole_file(
    alloc: Global,
    head: &[u8],
    records: &[Vec<u8>],
) -> Result<Vec<u8>, AllocError>
    requires { length (spelled head.now (map (λ v. v.items) records.now)) < 2 ^ 32 }
    ensures { IfOk result (λ bytes. bytes.items ≡ spelled head.now (map (λ v. v.items) records.now) ++ 0 ∷ []) }
{
    let mut bytes = marked(alloc, head)?;
    let mut rest = records;
    'records: while let [record, tail @ ..] = rest {
        bytes.push(1)?;
        push_framed(&mut bytes, record)?;
        rest = tail;
    }
    bytes.push(0)?;
    Ok(bytes)
}

//! Texts that a spreadsheet would calculate, and how tables have them.
ghost use Rattle.std.specs.Prelude.{◌≡◌, IfOk, string_bytes};
ghost use Rattle.table_records.specs.Guarding.{begins_guarded, guarded, unguarded};

use std::alloc::{AllocError, Global};

/// Whether a text that begins with this byte is guarded.
fn begins_guarded(first: u8) -> bool
    ensures { result ≡ begins_guarded first }
{
    first == b'=' || first == b'+' || first == b'-' || first == b'@' || first == b'\''
}

/// A text as a table has it: with an apostrophe before it where it begins with `=`, `+`, `-` or `@`, since a spreadsheet would calculate
/// it, or with an apostrophe, which would be taken for a guard.
pub fn guarded(alloc: Global, text: &str) -> Result<String, AllocError>
    ensures { IfOk result (λ shown. string_bytes shown ≡ guarded text.now) }
{
    let mut shown = String::new(alloc);
    if let [first, ..] = text.as_bytes() {
        if begins_guarded(*first) {
            shown.push_str("'")?;
        }
    }
    shown.push_str(text)?;
    Ok(shown)
}

/// The text that a table has so: without the apostrophe that guards it. A text that isn't guarded stays as it is.
pub fn unguarded(text: &[u8]) -> &[u8]
    ensures { result.now ≡ unguarded text.now }
{
    let [first, rest @ ..] = text else {
        return text;
    };
    match rest {
        [second, ..] if *first == b'\'' && begins_guarded(*second) => rest,
        _ => text,
    }
}

//! Text that stands in hypertext.
ghost use Rattle.std.specs.Prelude.{◌≡◌, ◌++◌, OnOk, string_bytes};
ghost use Rattle.plan_page.specs.Escaping.{escaped, escaped_char};

use break_rules::NoMemory;

/// Adds a character as hypertext shows it.
#[tactic(auto, unfolding(crate::specs::Escaping::escaped_char))]
fn add_char(page: &mut String, c: char) -> Result<(), NoMemory>
    ensures { OnOk result (string_bytes page.new ≡ string_bytes page.old ++ escaped_char c) }
{
    match c {
        '&' => page.push_str("&amp;"),
        '<' => page.push_str("&lt;"),
        '>' => page.push_str("&gt;"),
        '"' => page.push_str("&quot;"),
        '\'' => page.push_str("&#39;"),
        _ => page.push(c),
    }
}

/// Adds a text as hypertext shows it: characters that mean something there stand by their names.
pub(crate) fn add_escaped(page: &mut String, text: &str) -> Result<(), NoMemory>
    ensures { OnOk result (string_bytes page.new ≡ string_bytes page.old ++ escaped text.now) }
{
    for c in text.chars() {
        add_char(page, c)?;
    }
    Ok(())
}

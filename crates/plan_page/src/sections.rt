//! Texts of their own on a page.
ghost use Rattle.std.specs.Prelude.{◌≡◌, ◌++◌, OnOk, string_bytes};
ghost use Rattle.plan_page.specs.Sections.{section_begin, section_between, section_end, section_text, sections_text};

use crate::escaping::add_escaped;
use break_rules::NoMemory;

/// A text of its own on a page.
#[derive(Drop)]
pub struct Section {
    /// Its title.
    pub title: String,
    /// Its lines, which the page shows as they stand, in letters of one width.
    pub text: String,
}

/// Adds what stands before the title of a text.
#[tactic(auto, unfolding(crate::specs::Sections::section_begin))]
fn begin_section(page: &mut String) -> Result<(), NoMemory>
    ensures { OnOk result (string_bytes page.new ≡ string_bytes page.old ++ section_begin) }
{
    page.push_str("<section>\n<h2>")
}

/// Adds what stands between the title and the lines of a text.
#[tactic(auto, unfolding(crate::specs::Sections::section_between))]
fn begin_lines(page: &mut String) -> Result<(), NoMemory>
    ensures { OnOk result (string_bytes page.new ≡ string_bytes page.old ++ section_between) }
{
    page.push_str("</h2>\n<pre>")
}

/// Ends a text.
#[tactic(auto, unfolding(crate::specs::Sections::section_end))]
fn end_section(page: &mut String) -> Result<(), NoMemory>
    ensures { OnOk result (string_bytes page.new ≡ string_bytes page.old ++ section_end) }
{
    page.push_str("</pre>\n</section>\n")
}

/// Adds a text of its own.
#[tactic(auto, unfolding(crate::specs::Sections::section_text))]
fn add_section(page: &mut String, section: &Section) -> Result<(), NoMemory>
    ensures { OnOk result (string_bytes page.new ≡ string_bytes page.old ++ section_text section.now) }
{
    begin_section(page)?;
    add_escaped(page, section.title.as_str())?;
    begin_lines(page)?;
    add_escaped(page, section.text.as_str())?;
    end_section(page)
}

/// Adds texts of their own, from the first.
pub(crate) fn add_sections(page: &mut String, sections: &[Section]) -> Result<(), NoMemory>
    ensures { OnOk result (string_bytes page.new ≡ string_bytes page.old ++ sections_text sections.now) }
{
    for section in sections {
        add_section(page, section)?;
    }
    Ok(())
}

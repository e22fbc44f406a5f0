//! What stands beside a plan on its page.

ghost use Rattle.std.specs.Prelude.{◌≡◌, IfOk, IsTrue, length};
ghost use Rattle.shift_instance.specs.Rota.{are_legal_rows};

use day_names::{NamedDay, day_names, short_day_names};
use plan_page::{PageTexts, Section};
use plan_tables::Attendance;
use rota_sheets::{breaks_text, heads_text};
use rule_sentences::rules_text;
use shift_instance::{Instance, Rows};
use short_cover::short_text;
use std::alloc::{AllocError, Global};

/// How many slots below their need the page names at most.
const SHORT_ON_PAGE: usize = 100;

/// What the gap says, and what it doesn't.
const OF_THE_GAP: &str =
    " The gap says by how much a legal plan could be cheaper at most; it doesn't say that one is.";

/// What is known of an instance beside its numbers.
#[derive(Clone, Copy, Drop)]
pub struct Beside<'a> {
    /// The path of the instance's file.
    pub instance: &'a str,
    /// The bytes of that file.
    pub document: &'a [u8],
    /// What the first day of the planning period is, if that is known.
    pub first: Option<NamedDay>,
    /// What a planner should know of the instance, a sentence each.
    pub notes: &'a [String],
}

impl<'a> Beside<'a> {
    /// The names of the days behind their numbers, if they have any.
    fn names_behind(&self, alloc: Global, instance: &Instance) -> Result<Vec<String>, AllocError> {
        match self.first {
            Some(first) => day_names(alloc, first, instance.days()),
            None => Ok(Vec::new(alloc)),
        }
    }

    /// What the days are called: by their names, or else by their numbers.
    fn names(&self, alloc: Global, instance: &Instance) -> Result<Vec<String>, AllocError>
        ensures { IfOk result (λ names. length names.items ≡ instance.now.days) }
    {
        match self.first {
            Some(first) => day_names(alloc, first, instance.days()),
            None => day_numbers(alloc, instance.days()),
        }
    }

    /// What the days are called in few letters: by their names, or else by their numbers.
    fn short_names(&self, alloc: Global, instance: &Instance) -> Result<Vec<String>, AllocError>
        ensures { IfOk result (λ names. length names.items ≡ instance.now.days) }
    {
        match self.first {
            Some(first) => short_day_names(alloc, first, instance.days()),
            None => day_numbers(alloc, instance.days()),
        }
    }

    /// The notes, a line each.
    fn note_lines(&self, alloc: Global) -> Result<String, AllocError> {
        let mut text = String::new(alloc);
        for note in self.notes {
            text.push_str("- ")?;
            text.push_str(note.as_str())?;
            text.push_str("\n")?;
        }
        Ok(text)
    }
}

/// Days by their numbers, counted from 1.
fn day_numbers(alloc: Global, days: u8) -> Result<Vec<String>, AllocError>
    ensures { IfOk result (λ names. length names.items ≡ days) }
{
    let mut names = Vec::new(alloc);
    for day in 0..days {
        let number = u16::from(day) + 1;
        names.push(format!(in alloc; "day {number}")?)?;
    }
    Ok(names)
}

/// Names as they are lent.
fn lent<'a>(alloc: Global, names: &'a [String]) -> Result<Vec<&'a str>, AllocError>
    ensures { IfOk result (λ texts. length texts.items ≡ length names.now) }
{
    let mut texts = Vec::new(alloc);
    for name in names {
        texts.push(name.as_str())?;
    }
    Ok(texts)
}

/// A text of its own with a title.
fn section(alloc: Global, title: &str, text: String) -> Result<Section, AllocError> {
    Ok(Section {
        title: String::from_str(alloc, title)?,
        text,
    })
}

/// The text above the days: how well the slots are covered.
fn above(alloc: Global, instance: &Instance, rows: &Rows) -> Result<Vec<Section>, AllocError>
    requires { IsTrue (are_legal_rows instance.now rows.now) }
{
    let attendance = Attendance::new(alloc, instance, rows)?;
    let cover = short_text(alloc, instance, &attendance, SHORT_ON_PAGE)?;
    let mut sections = Vec::new(alloc);
    sections.push(section(alloc, "Cover", cover)?)?;
    Ok(sections)
}

/// The texts below the days: the duties by shift and day, the breaks by time of day, the rules, and the notes.
fn below(
    alloc: Global,
    instance: &Instance,
    rows: &Rows,
    beside: &Beside,
) -> Result<Vec<Section>, AllocError>
    requires { IsTrue (are_legal_rows instance.now rows.now) }
{
    let short_names = beside.short_names(alloc, instance)?;
    let names = beside.names(alloc, instance)?;
    let short_names = lent(alloc, short_names.as_slice())?;
    let names = lent(alloc, names.as_slice())?;
    let heads = heads_text(alloc, instance, rows, short_names.as_slice())?;
    let breaks = breaks_text(alloc, instance, rows, names.as_slice())?;
    let rules = rules_text(alloc, instance)?;
    let mut sections = Vec::new(alloc);
    sections.push(section(alloc, "Heads by shift and day", heads)?)?;
    sections.push(section(alloc, "Breaks by time of day", breaks)?)?;
    sections.push(section(alloc, "Rules", rules)?)?;
    if !beside.notes.is_empty() {
        sections.push(section(alloc, "Notes", beside.note_lines(alloc)?)?)?;
    }
    Ok(sections)
}

/// The name of a file without its folders, by its path.
fn file_name(path: &str) -> &str {
    match path.rsplit_once('/') {
        Some((_, name)) => name,
        None => path,
    }
}

/// What the page of legal rows says beside them, with a line on how the plan stands.
pub(crate) fn page_texts(
    alloc: Global,
    instance: &Instance,
    rows: &Rows,
    beside: &Beside,
    standing: &str,
    has_gap: bool,
) -> Result<PageTexts, AllocError>
    requires { IsTrue (are_legal_rows instance.now rows.now) }
{
    let mut line = String::from_str(alloc, standing)?;
    if has_gap {
        line.push_str(OF_THE_GAP)?;
    }
    Ok(PageTexts {
        heading: String::from_str(alloc, file_name(beside.instance))?,
        standing: line,
        days: beside.names_behind(alloc, instance)?,
        above: above(alloc, instance, rows)?,
        below: below(alloc, instance, rows, beside)?,
    })
}

//! The rules of an instance, said back.

use planning_runs::{Cause, PlanRefusal};
use planning_searches::{read_instance, tell_notes};
use planning_words::RulesWords;
use rule_sentences::rules_text;
use shift_instance::Instance;
use std::io::{self, Write};

/// Writes a text to standard output.
fn say(rt: HostRuntime, text: &str) -> io::Result<()> {
    let mut out = rt.stdout();
    out.write_all(text.as_bytes())?;
    out.flush()
}

/// Says the rules of an instance on standard output.
fn say_rules(rt: HostRuntime, instance: &Instance) -> Result<(), PlanRefusal> {
    let text = rules_text(rt.alloc(), instance)?;
    match say(rt, text.as_str()) {
        Ok(()) => Ok(()),
        Err(_) => Err(PlanRefusal::said(
            Cause::Unwritten,
            String::from_str(rt.alloc(), "standard output takes no more"),
        )),
    }
}

/// Says the rules of the instance that the words name on standard output, and on standard error what a planner should know of it.
pub(crate) fn rules(rt: HostRuntime, words: &RulesWords) -> Result<(), PlanRefusal> {
    let read = read_instance(rt, words.instance)?;
    say_rules(rt, &read.instance)?;
    let _notes = tell_notes(rt, &read)?;
    Ok(())
}

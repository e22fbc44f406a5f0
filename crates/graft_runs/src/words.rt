//! The words of the command line.
ghost use Rattle.std.specs.Prelude.{◌≡◌, ◌≤◌, ◌-◌, ◌^◌, ◌∷◌, [], IfSome, map, string_bytes};
ghost use Rattle.std.specs.Option.{option_map};
ghost use Rattle.graft_runs.specs.Words.{asked, below_of, breaks_of, nodes_of, number_within, request_of, steps_of, thorough_of, timed_of};

use crate::numbers::number_within;
use check_runs::{Files, may_be_file};

/// The most steps of a run.
const STEPS_MOST: u64 = 1_000_000_000;

/// The most nodes of a list.
const NODES_MOST: u64 = 1_000_000_000;

/// The most seconds of a run.
const SECONDS_MOST: u64 = 1_000_000_000;

/// How long a thorough search goes on that leaves some node open.
#[derive(Clone, Copy, Drop)]
pub enum Budget {
    /// For so many steps.
    Steps(u64),
    /// For so many seconds, which whoever runs it measures.
    Seconds(u64),
}

/// What is done with a report.
#[derive(Clone, Copy, Drop)]
pub enum Command {
    /// What lies below a node is searched for so many steps, and what comes of it is grafted into the report.
    Below { node: u32, steps: u64 },
    /// The same by the thorough adviser, for so long.
    Thorough { node: u32, budget: Budget },
    /// The breaks of its rows are planned anew, in so many steps.
    Breaks { steps: u64 },
    /// Its open nodes are listed, no more than so many.
    Nodes { most: u64 },
}

/// What the words of a command line ask for.
#[derive(Clone, Copy, Drop)]
pub struct Request<'a> {
    /// The command.
    pub command: Command,
    /// Its files.
    pub files: Files<'a>,
}

/// A command with its files, where both words may name files.
fn request_with<'a>(instance: &'a str, report: &'a str, command: Command) -> Option<Request<'a>>
    ensures { option_map (λ r. record { command = r.command; files = record { instance = r.files.instance.now; report = r.files.report.now } }) result ≡ asked instance.now report.now command }
{
    if may_be_file(instance) && may_be_file(report) {
        let files = Files { instance, report };
        Some(Request { command, files })
    } else {
        None
    }
}

/// The number of a node.
fn node_of(word: &str) -> Option<u32>
    ensures { result ≡ number_within (2 ^ 32 - 1) word.now }
{
    let node = number_within(u64::from(u32::MAX), word)?;
    Some(node as u32)
}

/// The command `below` of a node and a number of steps.
fn below(node: &str, steps: &str) -> Option<Command>
    ensures command { result ≡ below_of node.now steps.now }
    ensures few { IfSome result (λ c. steps_of c ≤ 10 ^ 9) }
{
    let node = node_of(node)?;
    let steps = number_within(STEPS_MOST, steps)?;
    Some(Command::Below { node, steps })
}

/// The thorough search below a node for a number of steps.
fn thorough(node: &str, steps: &str) -> Option<Command>
    ensures command { result ≡ thorough_of node.now steps.now }
    ensures few { IfSome result (λ c. steps_of c ≤ 10 ^ 9) }
{
    let node = node_of(node)?;
    let steps = number_within(STEPS_MOST, steps)?;
    let budget = Budget::Steps(steps);
    Some(Command::Thorough { node, budget })
}

/// The thorough search below a node for a number of seconds.
fn timed(node: &str, seconds: &str) -> Option<Command>
    ensures command { result ≡ timed_of node.now seconds.now }
    ensures few { IfSome result (λ c. steps_of c ≤ 10 ^ 9) }
{
    let node = node_of(node)?;
    let seconds = number_within(SECONDS_MOST, seconds)?;
    let budget = Budget::Seconds(seconds);
    Some(Command::Thorough { node, budget })
}

/// The command `breaks` of a number of steps.
fn breaks(steps: &str) -> Option<Command>
    ensures command { result ≡ breaks_of steps.now }
    ensures few { IfSome result (λ c. steps_of c ≤ 10 ^ 9) }
{
    let steps = number_within(STEPS_MOST, steps)?;
    Some(Command::Breaks { steps })
}

/// The command `nodes` of a number of nodes.
fn nodes(most: &str) -> Option<Command>
    ensures command { result ≡ nodes_of most.now }
    ensures few { IfSome result (λ c. steps_of c ≤ 10 ^ 9) }
{
    let most = number_within(NODES_MOST, most)?;
    Some(Command::Nodes { most })
}

/// What `breaks INSTANCE REPORT STEPS` and `nodes INSTANCE REPORT N` ask for.
fn of_four<'a>(name: &str, instance: &'a str, report: &'a str, number: &str) -> Option<Request<'a>>
    ensures asked { option_map (λ r. record { command = r.command; files = record { instance = r.files.instance.now; report = r.files.report.now } }) result ≡ request_of (name.now ∷ instance.now ∷ report.now ∷ number.now ∷ []) }
    ensures few { IfSome result (λ r. steps_of r.command ≤ 10 ^ 9) }
{
    if name == "breaks" {
        request_with(instance, report, breaks(number)?)
    } else if name == "nodes" {
        request_with(instance, report, nodes(number)?)
    } else {
        None
    }
}

/// What `below INSTANCE REPORT NODE STEPS` asks for.
fn of_five<'a>(
    name: &str,
    instance: &'a str,
    report: &'a str,
    node: &str,
    steps: &str,
) -> Option<Request<'a>>
    ensures asked { option_map (λ r. record { command = r.command; files = record { instance = r.files.instance.now; report = r.files.report.now } }) result ≡ request_of (name.now ∷ instance.now ∷ report.now ∷ node.now ∷ steps.now ∷ []) }
    ensures few { IfSome result (λ r. steps_of r.command ≤ 10 ^ 9) }
{
    if name == "below" {
        request_with(instance, report, below(node, steps)?)
    } else {
        None
    }
}

/// What `below INSTANCE REPORT NODE STEPS --thorough` asks for.
fn of_six<'a>(
    name: &str,
    instance: &'a str,
    report: &'a str,
    node: &str,
    steps: &str,
    last: &str,
) -> Option<Request<'a>>
    ensures asked { option_map (λ r. record { command = r.command; files = record { instance = r.files.instance.now; report = r.files.report.now } }) result ≡ request_of (name.now ∷ instance.now ∷ report.now ∷ node.now ∷ steps.now ∷ last.now ∷ []) }
    ensures few { IfSome result (λ r. steps_of r.command ≤ 10 ^ 9) }
{
    if name == "below" && last == "--thorough" {
        request_with(instance, report, thorough(node, steps)?)
    } else {
        None
    }
}

/// What `below INSTANCE REPORT NODE --seconds T --thorough` asks for.
fn of_seven<'a>(
    name: &str,
    instance: &'a str,
    report: &'a str,
    node: &str,
    flag: &str,
    seconds: &str,
    last: &str,
) -> Option<Request<'a>>
    ensures asked { option_map (λ r. record { command = r.command; files = record { instance = r.files.instance.now; report = r.files.report.now } }) result ≡ request_of (name.now ∷ instance.now ∷ report.now ∷ node.now ∷ flag.now ∷ seconds.now ∷ last.now ∷ []) }
    ensures few { IfSome result (λ r. steps_of r.command ≤ 10 ^ 9) }
{
    if name == "below" && flag == "--seconds" && last == "--thorough" {
        request_with(instance, report, timed(node, seconds)?)
    } else {
        None
    }
}

/// What `below INSTANCE REPORT NODE STEPS`, `below INSTANCE REPORT NODE STEPS --thorough`, `below INSTANCE REPORT NODE --seconds T --thorough`,
/// `breaks INSTANCE REPORT STEPS` and `nodes INSTANCE REPORT N` ask for, and `None` of any other words.
#[tactic(auto, using(crate::proofs::Within::other_words))]
pub fn request_of(words: &[String]) -> Option<Request<'_>>
    ensures asked { option_map (λ r. record { command = r.command; files = record { instance = r.files.instance.now; report = r.files.report.now } }) result ≡ request_of (map string_bytes words.now) }
    ensures few { IfSome result (λ r. steps_of r.command ≤ 10 ^ 9) }
{
    match words {
        [name, instance, report, number] => of_four(
            name.as_str(),
            instance.as_str(),
            report.as_str(),
            number.as_str(),
        ),
        [name, instance, report, node, steps] => of_five(
            name.as_str(),
            instance.as_str(),
            report.as_str(),
            node.as_str(),
            steps.as_str(),
        ),
        [name, instance, report, node, steps, last] => of_six(
            name.as_str(),
            instance.as_str(),
            report.as_str(),
            node.as_str(),
            steps.as_str(),
            last.as_str(),
        ),
        [name, instance, report, node, flag, seconds, last] => of_seven(
            name.as_str(),
            instance.as_str(),
            report.as_str(),
            node.as_str(),
            flag.as_str(),
            seconds.as_str(),
            last.as_str(),
        ),
        _ => None,
    }
}

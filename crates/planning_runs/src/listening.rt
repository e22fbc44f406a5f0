//! A search that ends at a line of standard input.

use planning_words::{Progress, StopOn};
use std::io::{IsTerminal, Read};
use std::sync::Arc;
use std::thread::Threads;
use std::{fs, thread};

/// Whether this program is in the foreground of its terminal, as Linux tells it. The system would stop a program in the background that reads
/// from its terminal.
fn is_in_foreground(rt: HostRuntime) -> bool {
    let Ok(stat) = fs::read_to_string(&rt, "/proc/self/stat") else {
        return false;
    };
    // behind the program's name, in parentheses: its state, its parent, its group, its session, its terminal, and the group in front
    let Some((_, behind)) = stat.as_str().rsplit_once(')') else {
        return false;
    };
    let mut fields = behind.split_ascii_whitespace();
    let group = fields.nth(2);
    let in_front = fields.nth(2);
    group.is_some() && group == in_front
}

/// Waits for a line of standard input, or its end.
fn await_line(rt: HostRuntime) {
    let mut input = rt.stdin();
    for _ in 0..u64::MAX {
        let mut byte = [0u8; 1];
        match input.read(&mut byte) {
            Ok(1) if byte[0] != b'\n' => {}
            _ => return,
        }
    }
}

/// At what else than its time a search is to end: what the words say, or else at Enter where standard input is a terminal.
fn stop_of(rt: HostRuntime, said: Option<StopOn>) -> Option<StopOn> {
    match said {
        None if rt.stdin().is_terminal() && is_in_foreground(rt) => Some(StopOn::Enter),
        said => said,
    }
}

/// Has a line of standard input end a search, in a thread that nobody waits for: it is cut off when the program ends. Answers whether a
/// line ends the search now.
fn listen<R: Threads>(rt: HostRuntime, threads: &R, progress: &Arc<Progress>) -> bool {
    let Ok(progress) = Arc::try_clone(progress) else {
        return false;
    };
    let listener = thread::spawn(threads, move || {
        await_line(rt);
        progress.ask_for_end();
    });
    listener.is_ok()
}

/// Whether somebody's line of standard input ends a search from now on, so that the line of progress is to say it. The words say at what else
/// than its time the search is to end, or leave it to the terminal; `false` too where a line ends the search, and nobody is told so.
pub fn enter_ends<R: Threads>(
    host: HostRuntime,
    rt: &R,
    said: Option<StopOn>,
    progress: &Arc<Progress>,
) -> bool {
    let stop_on = stop_of(host, said);
    let listens = stop_on.is_some() && listen(host, rt, progress);
    listens && stop_on == Some(StopOn::Enter)
}

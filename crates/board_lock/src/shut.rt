// What shuts a board.
ghost use Rattle.std.specs.Prelude.{◌≡◌};
ghost use Rattle.board_lock.specs.Shut.{shut_by};

use search_core::{CommitFault, Shutting};

/// What has shut a board after a commit was refused, where this had shut it before.
pub(crate) fn shut_by(fault: &CommitFault, before: Option<Shutting>) -> Option<Shutting>
    ensures { result ≡ shut_by fault.now before }
{
    match fault {
        CommitFault::DiskFault => Some(Shutting::DiskFault),
        CommitFault::Full { end, limit } => Some(Shutting::Full {
            end: *end,
            limit: *limit,
        }),
        _ => before,
    }
}

//! The certificate of a search's history.
ghost use Rattle.std.specs.Prelude.{◌≡◌, ◌++◌, ◌∷◌, [], length, map, All, Some, IfOk, OnOk, string_bytes};
ghost use Rattle.certificate.specs.History.{lines_of};
ghost use Rattle.certificate.specs.LineText.{lines_text, proof_line, FitsLine};

use crate::proof_lines::Lines;
use crate::proof_writing::{add_priced, add_settled, add_split};
use crate::{Cert, CertStatus};
use break_rules::NoMemory;
use post_codec::Post;
use shift_instance::Rows;
use std::alloc::Global;

/// Adds the proof line of a post, if it has one, and says how many that is.
fn add_post(text: &mut String, post: &Post) -> Result<usize, NoMemory>
    ensures count { IfOk result (λ count. count ≡ length (lines_of (post.now ∷ []))) }
    ensures fits { OnOk result (All FitsLine (lines_of (post.now ∷ []))) }
    ensures added { OnOk result (string_bytes text.new ≡ string_bytes text.old ++ lines_text (map proof_line (lines_of (post.now ∷ [])))) }
{
    match post {
        Post::Plan { .. } => return Ok(0),
        Post::Priced { node, prices, .. } => add_priced(text, *node, prices)?,
        Post::Split { node, class, m, .. } => add_split(text, *node, class, *m)?,
        Post::Settled { node, .. } => add_settled(text, *node)?,
    }
    Ok(1)
}

/// The proof lines of posts.
fn lines_of(alloc: Global, posts: &[Post]) -> Result<Lines, NoMemory>
    ensures { IfOk result (λ lines. lines ≡ lines_of posts.now) }
{
    let mut text = String::new(alloc);
    let mut count = 0;
    for post in posts {
        count += add_post(&mut text, post)?;
    }
    Ok(Lines::of_text(text.into_bytes(), count))
}

/// The certificate of a search: its best plan with its cost, the bound, and a proof line for each post of its history that is no
/// plan, in their order. The only refusal is running out of memory.
pub fn of_history(
    alloc: Global,
    posts: &[Post],
    status: CertStatus,
    best: &Rows,
    cost: u64,
    bound: u64,
) -> Result<Cert, NoMemory>
    ensures status { IfOk result (λ cert. cert.status ≡ status) }
    ensures plan { IfOk result (λ cert. cert.plan ≡ Some (cost, best.now)) }
    ensures bound { IfOk result (λ cert. cert.bound ≡ bound) }
    ensures lines { IfOk result (λ cert. cert.lines ≡ lines_of posts.now) }
{
    let lines = lines_of(alloc, posts)?;
    let rows = best.clone()?;
    Ok(Cert {
        status,
        plan: Some((cost, rows)),
        bound,
        lines,
    })
}

// The posts of a log, as its records hold them, as clauses see them.
ghost use Rattle.std.specs.Prelude.{◌≡◌, List, [], ◌∷◌, ◌++◌};
ghost use Rattle.std.specs.Borrow.{ftrue};
ghost use Rattle.post_codec.specs.declared.post.Post.{Post};

use post_codec::Post;
use std::marker::Model;

/// It takes no memory and does nothing at run time. Alone it says nothing of a file: a log's condition ties it to its journal's
/// records.
#[derive(Drop)]
pub struct Batched {
    pub ghost opening: { List Post },
    pub ghost batches: { List (List Post) },
}

impl Model for Batched {
    ghost also_owns = { λ _. ftrue };
}

// It owns nothing.
unsafe impl Send for Batched {}

impl Batched {
    // These posts at the opening, and no record since.
    pub(crate) fn opened(_posts: &[Post]) -> Batched
        ensures { (result.opening ≡ _posts.now) × (result.batches ≡ []) }
    {
        Batched {}
    }

    // One record more, with these posts.
    pub(crate) fn with(_before: &Batched, _posts: &[Post]) -> Batched
        ensures { (result.opening ≡ _before.now.opening) × (result.batches ≡ _before.now.batches ++ _posts.now ∷ []) }
    {
        Batched {}
    }
}

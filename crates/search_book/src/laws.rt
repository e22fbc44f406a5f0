//! The law of files. The function's contract is the law; it does nothing.
ghost use Rattle.std.specs.Prelude.{◌≡◌, ◌^◌, ◌<◌, List, ℕ};
ghost use Rattle.post_codec.specs.declared.post.Post.{Post};
ghost use Rattle.shift_instance.specs.Problem.{Problem};
ghost use Rattle.search_book.specs.Posts.{StandsForPosts};

/// A file stands for one list of posts of an instance at most.
pub fn one_history()
    ensures { (limit : ℕ) (i : Problem) (posts others : List Post) (file : List ℕ) → limit < 2 ^ 32 → StandsForPosts limit i posts file → StandsForPosts limit i others file → posts ≡ others }
{}

//! Posts in order.
use break_rules::Sequence;
use post_codec::Post;

/// Posts, in their order.
pub type Posts = Sequence<Post>;

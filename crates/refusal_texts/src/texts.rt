//! Which bytes of a document stand in texts.

/// Where a walk over the bytes of a document is.
#[derive(Clone, Copy, PartialEq, Eq)]
pub(crate) enum Within {
    /// In a text.
    Text,
    /// Behind a backslash in a text.
    Escape,
    /// Outside of texts.
    Rest,
}

impl Within {
    /// Where the walk is behind one more byte.
    pub(crate) fn behind(self, byte: u8) -> Within {
        match (self, byte) {
            (Within::Text, b'\\') => Within::Escape,
            (Within::Text, b'"') => Within::Rest,
            (Within::Rest, b'"') => Within::Text,
            (Within::Escape, _) => Within::Text,
            (within, _) => within,
        }
    }
}

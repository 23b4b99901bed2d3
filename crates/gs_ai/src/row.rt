use crate::part::{Part, Role};
use gs_chars::{List, Text};

/// A row of a table of application identifiers.
pub struct AiRow {
    /// The digits of the application identifier.
    pub code: Text,
    /// The parts of its value.
    pub parts: List<Part>,
    /// Its role in an identity.
    pub role: Role,
    /// The codes of the qualifiers of a key, in the order in which they are in a link.
    pub qualifiers: List<Text>,
    /// Whether a link may have the value with 8, 12 or 13 digits instead of 14.
    pub short: bool,
    /// The value that means none, or the empty text if there is no such value.
    pub none: Text,
}

// by hand, so that a function that drops a row calls this: a derived drop is written out at each of its exits
impl Drop for AiRow {
    fn drop(self) {
        let AiRow {
            code: _,
            parts: _,
            role: _,
            qualifiers: _,
            short: _,
            none: _,
        } = self;
    }
}

use crate::checked_text::CheckedText;
use gs_chars::List;

/// A parameter of a link, the letters of its name in lower case.
pub struct Param {
    /// The name, with its letters in lower case.
    pub name: CheckedText,
    /// The value, which is empty if none is written.
    pub value: CheckedText,
}

// by hand, so that a function that drops one calls this one: a derived drop is written out at each of its exits
impl Drop for Param {
    fn drop(self) {
        let Param { name: _, value: _ } = self;
    }
}

/// A link as written: its target URI, and its parameters in their order.
pub struct WrittenLink {
    /// The reference.
    pub href: CheckedText,
    /// The parameters.
    pub params: List<Param>,
}

// by hand, so that a function that drops one calls this one: a derived drop is written out at each of its exits
impl Drop for WrittenLink {
    fn drop(self) {
        let WrittenLink { href: _, params: _ } = self;
    }
}

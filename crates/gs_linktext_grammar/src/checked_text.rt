ghost use Rattle.std.specs.Prelude.{◌≡◌, IfOk, IfSome, IfNone, true, false};
ghost use Rattle.std.specs.Prelude.{Some, bytes_eq, refl};
ghost use Rattle.std.specs.Cmp.{partial_equiv_from_equiv};
ghost use Rattle.std.specs.Cmp.Lexicographic.{slice_cmp, nat_list_eq_equiv, nat_list_cmp_total, texts_ties, texts_po};
ghost use Rattle.std.specs.Ordering.{nat_cmp};
ghost use Rattle.std.specs.Str.{is_utf8};

use gs_chars::{Memory, Text};
use std::alloc::Global;
use std::cmp::Ordering;
use std::marker::Model;
use std::str;

/// A text that is UTF-8, which contracts see as its bytes.
pub struct CheckedText {
    text: Text,
}

// by hand, so that a function that drops one calls this one: a derived drop is written out at each of its exits
impl Drop for CheckedText {
    fn drop(self) {
        let CheckedText { text: _ } = self;
    }
}

impl Model for CheckedText {
    ghost use Rattle.std.specs.Prelude.{◌≡◌, List, ℕ, true};
    ghost use Rattle.std.specs.Str.{is_utf8};

    ghost Value = { List ℕ };

    ghost view = { λ a. a.text };

    ghost invariant = { λ a. is_utf8 a.text ≡ true };
}

/// Returns whether the bytes are UTF-8.
pub fn is_utf8(bytes: &[u8]) -> bool
    ensures { result ≡ is_utf8 bytes.now }
{
    match str::from_utf8(bytes) {
        Ok(_) => true,
        Err(_) => false,
    }
}

impl CheckedText {
    /// Returns the text if it is UTF-8. Does not allocate.
    pub fn new(text: Text) -> Option<CheckedText>
        ensures some { IfSome result (λ checked. (checked ≡ text) × (is_utf8 text ≡ true)) }
        ensures none { IfNone result (is_utf8 text ≡ false) }
    {
        if is_utf8(text.as_bytes()) {
            return Some(CheckedText { text });
        }
        None
    }

    /// Returns the bytes of the text.
    pub fn as_bytes(&self) -> &[u8]
        ensures value { result.now ≡ self.now }
        ensures shape { is_utf8 self.now ≡ true }
    {
        self.text.as_bytes()
    }

    /// Returns a text of the same bytes. Fails only with `Memory`.
    pub fn copy(&self, alloc: Global) -> Result<Text, Memory>
        ensures value { IfOk result (λ text. text ≡ self.now) }
        ensures shape { is_utf8 self.now ≡ true }
    {
        self.text.copy(alloc)
    }
}

impl CheckedText {
    /// Returns an equal text. Fails only with `Memory`.
    pub fn copied(&self, alloc: Global) -> Result<CheckedText, Memory>
        ensures { IfOk result (λ text. text ≡ self.now) }
    {
        Ok(CheckedText {
            text: self.text.copy(alloc)?,
        })
    }
}

impl PartialEq for CheckedText {
    ghost eq = { bytes_eq };

    ghost laws = { partial_equiv_from_equiv nat_list_eq_equiv };

    fn eq(&self, other: &CheckedText) -> bool {
        self.as_bytes() == other.as_bytes()
    }
}

impl Eq for CheckedText {
    ghost laws = { nat_list_eq_equiv };
}

impl PartialOrd for CheckedText {
    ghost partial_cmp = { λ a b. Some (slice_cmp nat_cmp a b) };

    ghost laws = { texts_po };

    fn partial_cmp(&self, other: &CheckedText) -> Option<Ordering> {
        Some(self.cmp(other))
    }
}

impl Ord for CheckedText {
    ghost cmp = { slice_cmp nat_cmp };

    ghost total = { nat_list_cmp_total };

    ghost matches_partial_cmp = { λ a b. refl };

    ghost matches_eq = { texts_ties };

    fn cmp(&self, other: &CheckedText) -> Ordering {
        self.as_bytes().cmp(other.as_bytes())
    }
}

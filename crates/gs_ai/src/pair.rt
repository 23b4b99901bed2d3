ghost use Rattle.std.specs.Prelude.{◌≡◌, IfOk};

use gs_chars::{CowText, Memory, Text};
use std::alloc::Global;

/// An application identifier and its value, each lent or its own.
#[derive(Drop)]
pub struct Pair<'a> {
    /// The digits of the application identifier.
    pub code: CowText<'a>,
    /// The value as in an element string.
    pub value: CowText<'a>,
}

impl Pair<'_> {
    /// Returns a pair of the same code and value that lends none. Fails only with `Memory`.
    pub fn copy(&self, alloc: Global) -> Result<Pair<'static>, Memory>
        ensures { IfOk result (λ pair. pair ≡ self.now) }
    {
        Ok(Pair {
            code: CowText::from(Text::from_bytes(alloc, self.code.as_bytes())?),
            value: CowText::from(Text::from_bytes(alloc, self.value.as_bytes())?),
        })
    }
}

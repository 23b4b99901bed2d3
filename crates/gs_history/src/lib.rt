//! Records of moved bytes and of passed names, which only contracts see.
//!
//! A `History` or a `Names` takes no bytes, and its calls do nothing at run time. Such a record says something only by a contract that
//! names what the caller sees: an adapter's says that its record grew by the first bytes of the caller's buffer.
//!
//! # Differences from the system
//!
//! - A record has no bound.
#![tactic(auto)]

ghost use Rattle.std.specs.Prelude.{◌≡◌, ◌==◌, ◌++◌, Bool, false, ℕ, List, [], ◌∷◌, take};
ghost use Rattle.std.specs.Coded.{coded_bool, coded_list, coded_ℕ};

use std::marker::{Model, PhantomData};

/// Bytes that were moved, in order, and whether the last move was of none. Only contracts see them.
pub struct History {
    marker: PhantomData<()>,
    pub ghost given: { List ℕ } by { coded_list coded_ℕ },
    pub ghost ended: { Bool } by { coded_bool },
}

impl Model for History {
    ghost use base.Fml.{ftrue};

    ghost also_owns = { λ _. ftrue };
}

impl Drop for History {
    fn drop(self) {
        let History { marker: _ } = self;
    }
}

impl History {
    /// Returns the history of no bytes.
    pub fn new() -> History
        ensures { (result.given ≡ []) × (result.ended ≡ false) }
    {
        History {
            marker: PhantomData,
        }
    }

    /// Adds the first `number` of the bytes at the end, or all if they are fewer.
    pub fn add(&mut self, bytes: &[u8], number: usize)
        ensures { (self.new.given ≡ self.old.given ++ take number bytes.now)
            × (self.new.ended ≡ (number == 0)) }
    {}
}

/// Names that were passed, in order. Only contracts see them.
pub struct Names {
    marker: PhantomData<()>,
    pub ghost given: { List (List ℕ) } by { coded_list (coded_list coded_ℕ) },
}

impl Model for Names {
    ghost use base.Fml.{ftrue};

    ghost also_owns = { λ _. ftrue };
}

impl Drop for Names {
    fn drop(self) {
        let Names { marker: _ } = self;
    }
}

impl Names {
    /// Returns an empty list of names.
    pub fn new() -> Names
        ensures { result.given ≡ [] }
    {
        Names {
            marker: PhantomData,
        }
    }

    /// Adds the name at the end.
    pub fn add(&mut self, name: &[u8])
        ensures { self.new.given ≡ self.old.given ++ name.now ∷ [] }
    {}
}

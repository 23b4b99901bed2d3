ghost use Rattle.std.specs.Prelude.{◌≡◌, ◌≢◌, ◌<◌, ◌≤◌, ◌^◌, ◌++◌, ℕ, true, IfSome, IfNone};
ghost use Rattle.gs_ai.specs.Parts.{WritesNoRole, number_text, is_part, part_text, role_text, least_length, greatest_length, is_of_part, is_open};
ghost use Rattle.gs_ai.specs.Tables.{is_key};
ghost use Rattle.gs_ai.specs.TablesSupport.{is_asked};

use gs_chars::CharSet;

/// A part of the value of an application identifier.
#[derive(Clone, Copy, Debug)]
pub enum Part {
    /// The digit 0.
    Zero,
    /// That many digits, from 1 to 18.
    Num(u8),
    /// That many digits, from 2 to 18; the last is the check digit of the others.
    NumCheck(u8),
    /// 1 to that many digits, at most 18.
    NumUpTo(u8),
    /// 0 to that many digits, at most 18.
    NumOpt(u8),
    /// 1 to that many characters of the set of 82, at most 90.
    Set(u8),
    /// 0 to that many characters of the set of 82, at most 90.
    SetOpt(u8),
    /// A date of 6 digits, YYMMDD, in which the day may be 00.
    Date,
    /// A text that is not in the list.
    Other,
}

/// The role of an application identifier in an identity.
#[derive(Clone, Copy, Debug)]
pub enum Role {
    /// It names a thing.
    Key,
    /// It separates the things of one key.
    Qualifier,
    /// It says something about the thing.
    Attribute,
    /// Any other text.
    Other,
}

/// Returns the number from 1 to 99 that the text is in decimal, without leading zeros.
fn read_number(text: &[u8]) -> Option<u8>
    ensures read { IfSome result (λ k. (0 < k) × (k < 100) × (number_text k ≡ text.now)) }
    ensures none { IfNone result ((k : ℕ) → 0 < k → k < 100 → number_text k ≡ text.now → ⊥) }
{
    match text {
        [ones @ b'1'..=b'9'] => Some(*ones - b'0'),
        [tens @ b'1'..=b'9', ones @ b'0'..=b'9'] => Some(10 * (*tens - b'0') + (*ones - b'0')),
        _ => None,
    }
}

/// Returns the number from `least` to `greatest` between the two texts.
fn read_between(text: &[u8], before: &[u8], after: &[u8], least: u8, greatest: u8) -> Option<u8>
    requires from_one { 0 < least }
    requires to_99 { greatest < 100 }
    ensures read { IfSome result (λ k. (least ≤ k) × (k ≤ greatest)
        × (before.now ++ number_text k ++ after.now ≡ text.now)) }
    ensures none { IfNone result ((k : ℕ) → least ≤ k → k ≤ greatest
        → before.now ++ number_text k ++ after.now ≡ text.now → ⊥) }
{
    let number = text.strip_prefix(before)?.strip_suffix(after)?;
    let k = read_number(number)?;
    if least <= k && k <= greatest {
        Some(k)
    } else {
        None
    }
}

impl Part {
    /// Returns the part that is written so, and `Other` if and only if no part of the list is.
    pub fn read(text: &[u8]) -> Part
        ensures read { result ≢ Part.Other
            → (is_part result ≡ true) × (part_text result ≡ text.now) }
        ensures other { result ≡ Part.Other
            → (p : Part) → is_part p ≡ true → part_text p ≡ text.now → ⊥ }
    {
        if text == b"zero".as_slice() {
            return Part::Zero;
        }
        if text == b"date".as_slice() {
            return Part::Date;
        }
        if let Some(k) = read_between(text, b"n", b"", 1, 18) {
            return Part::Num(k);
        }
        if let Some(k) = read_between(text, b"n", b"c", 2, 18) {
            return Part::NumCheck(k);
        }
        if let Some(k) = read_between(text, b"n..", b"", 1, 18) {
            return Part::NumUpTo(k);
        }
        if let Some(k) = read_between(text, b"n..", b"?", 1, 18) {
            return Part::NumOpt(k);
        }
        if let Some(k) = read_between(text, b"x..", b"", 1, 90) {
            return Part::Set(k);
        }
        match read_between(text, b"x..", b"?", 1, 90) {
            Some(k) => Part::SetOpt(k),
            None => Part::Other,
        }
    }

    /// Returns whether the part is one of the list, with a count that is allowed.
    pub(crate) fn is_listed(self) -> bool
        ensures { result ≡ is_part self }
    {
        match self {
            Part::Zero | Part::Date => true,
            Part::Num(k) | Part::NumUpTo(k) | Part::NumOpt(k) => 1 <= k && k <= 18,
            Part::NumCheck(k) => 2 <= k && k <= 18,
            Part::Set(k) | Part::SetOpt(k) => 1 <= k && k <= 90,
            Part::Other => false,
        }
    }

    /// Returns whether the part is written with `..`.
    pub(crate) fn is_open(self) -> bool
        ensures { result ≡ is_open self }
    {
        matches!(
            self,
            Part::NumUpTo(_) | Part::NumOpt(_) | Part::Set(_) | Part::SetOpt(_)
        )
    }

    /// Returns the fewest characters of the part.
    pub(crate) fn least(self) -> usize
        ensures value { result ≡ least_length self }
        ensures small { result < 256 }
    {
        match self {
            Part::Num(k) | Part::NumCheck(k) => usize::from(k),
            Part::Zero | Part::NumUpTo(_) | Part::Set(_) => 1,
            Part::Date => 6,
            Part::NumOpt(_) | Part::SetOpt(_) | Part::Other => 0,
        }
    }

    /// Returns the most characters of the part.
    pub(crate) fn greatest(self) -> usize
        ensures value { result ≡ greatest_length self }
        ensures small { result < 256 }
    {
        match self {
            Part::Num(k) | Part::NumCheck(k) | Part::NumUpTo(k) | Part::NumOpt(k) => usize::from(k),
            Part::Set(k) | Part::SetOpt(k) => usize::from(k),
            Part::Zero => 1,
            Part::Date => 6,
            Part::Other => 0,
        }
    }

    /// Returns whether the character may be in the part.
    pub(crate) fn holds(self, c: u8) -> bool
        ensures { result ≡ is_of_part self c }
    {
        match self {
            Part::Zero => c == b'0',
            Part::Num(_) | Part::NumCheck(_) | Part::NumUpTo(_) | Part::NumOpt(_) | Part::Date => {
                CharSet::Digits.holds(c)
            }
            Part::Set(_) | Part::SetOpt(_) => CharSet::Set82.holds(c),
            Part::Other => false,
        }
    }
}

impl Role {
    /// Returns the role that is written so, and `Other` if and only if none is.
    pub fn read(text: &[u8]) -> Role
        ensures read { result ≢ Role.Other → role_text result ≡ text.now }
        ensures other { result ≡ Role.Other → WritesNoRole text.now }
    {
        if text == b"key".as_slice() {
            Role::Key
        } else if text == b"qualifier".as_slice() {
            Role::Qualifier
        } else if text == b"attribute".as_slice() {
            Role::Attribute
        } else {
            Role::Other
        }
    }

    /// Returns whether the role is that of a key.
    pub(crate) fn is_key(self) -> bool
        ensures { result ≡ is_key self }
    {
        matches!(self, Role::Key)
    }

    /// Returns whether the role is the requested one, that of a key or of a qualifier.
    pub(crate) fn is_asked(self, asked: Role) -> bool
        ensures { result ≡ is_asked asked self }
    {
        match asked {
            Role::Key => self.is_key(),
            Role::Qualifier => matches!(self, Role::Qualifier),
            Role::Attribute | Role::Other => false,
        }
    }
}

use thiserror::Error;

/// Why a list of items makes no option.
#[derive(Clone, Copy, Debug, PartialEq, Eq, Drop, Error)]
pub enum OptFault {
    /// The item of this number, the first one that breaks a bound or is not of the level.
    #[error("item {0} breaks a bound or is not of the level")]
    BadItem(usize),
    /// No item is bad, and their sizes add up to more than `MOST_SYMBOLS` symbols.
    #[error("the items have more than 512 symbols")]
    Size,
}

/// Why an item does not hold a value. The reasons are tried in this order.
#[derive(Clone, Copy, Debug, PartialEq, Eq, Error)]
pub enum Why {
    /// A character is not a digit, or not in the set of 82.
    #[error("a character is not a digit, or not of the 82")]
    Char,
    /// The number of characters is not allowed, or packed they have no room in the bits; of a decimal text this is the empty
    /// one.
    #[error("the length is not allowed")]
    Length,
    /// A decimal text has a leading zero before other digits.
    #[error("a leading zero")]
    Zero,
    /// The number is above the greatest, or has no room in the bits.
    #[error("the number is too large")]
    Large,
}

/// Why values are not written.
#[derive(Clone, Copy, Debug, PartialEq, Eq, Error)]
pub enum WriteFault {
    /// The item of this number is the first that does not hold its value.
    #[error("item {item} does not hold its value: {why}")]
    CannotHold { item: usize, why: Why },
    /// Memory ran out.
    #[error("out of memory")]
    Memory,
}

use thiserror::Error;

/// Why rows are not a table. Rows are counted from 0.
#[derive(Clone, Copy, Debug, PartialEq, Error)]
pub enum AiFault {
    /// The row is invalid regardless of the others, or lists a code that is not that of a qualifier.
    #[error("row {0} of the application identifiers is invalid")]
    BadAi(usize),
    /// The code of the first row begins that of the second, a later one, or the reverse.
    #[error("of the codes of rows {0} and {1} one begins the other")]
    CodePrefix(usize, usize),
    /// The row lists the code of a key as a qualifier.
    #[error("row {0} lists the code of a key as a qualifier")]
    KeyIsQualifier(usize),
    /// The row's code has a predefined length, which the row does not keep.
    #[error("row {0} does not have the predefined length of its code")]
    PredefinedLength(usize),
    /// Out of memory.
    #[error("out of memory")]
    Memory,
}

/// Why a value is invalid for its application identifier.
#[derive(Clone, Copy, Debug, PartialEq, Error)]
pub enum ValueFault {
    /// No row has the code.
    #[error("no row has the application identifier")]
    Unknown,
    /// The value is too short or too long.
    #[error("the value is too short or too long")]
    Length,
    /// The character at this index is the first that is not allowed.
    #[error("the character of the value at byte {0} is not allowed")]
    Char(usize),
    /// The check digit is wrong.
    #[error("the check digit is wrong")]
    Check,
    /// The month or the day is out of range.
    #[error("the month or the day is out of range")]
    Date,
}

/// The error at a place of an element string or of a link.
#[derive(Clone, Copy, Debug, PartialEq, Error)]
pub enum ElementWhy {
    /// The value is invalid for its application identifier.
    #[error("{0}")]
    Value(ValueFault),
    /// A percent sign without two hexadecimal digits.
    #[error("a percent sign without two hexadecimal digits")]
    Escape,
    /// A bracket with a code is missing, or has no end.
    #[error("a bracket with an application identifier is missing or has no end")]
    Bracket,
}

/// The number of bytes before the first invalid element, and its error.
#[derive(Clone, Copy, Debug, PartialEq, Error)]
#[error("{why}, in the element at byte {at}")]
pub struct ElementFault {
    /// The number of bytes before the place.
    pub at: usize,
    /// The error.
    pub why: ElementWhy,
}

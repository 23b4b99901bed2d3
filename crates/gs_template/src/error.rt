use thiserror::Error;

/// The errors of a template. Offsets count its bytes from 0.
#[derive(Clone, Copy, Debug, PartialEq, Error)]
pub enum PlaceFault {
    /// The brace at this place is outside a place: no 2 to 4 digits and a closing brace follow it, or it ends none.
    #[error("a brace outside a place at byte {0}")]
    Brace(usize),
    /// The place that begins here has the code of neither the key nor a qualifier of it.
    #[error("the AI of neither the key nor a key qualifier in the place at byte {0}")]
    Code(usize),
}

use crate::documents::Rendered;
use gs_chars::{CowText, Text};

/// The answer to a request.
#[derive(Drop)]
pub(crate) enum Answer<'a> {
    /// The resolver's description.
    Description(&'a [u8]),
    /// A linkset, in the form in which it is sent.
    Linkset(Rendered),
    /// Several links to choose from, as the text of a linkset in JSON.
    Choices(Text),
    /// The reference of the one link to go on to.
    Redirect(CowText<'a>),
    /// The request is bad.
    BadRequest,
    /// There is nothing.
    NotFound,
    /// The method is not allowed.
    NotAllowed,
}

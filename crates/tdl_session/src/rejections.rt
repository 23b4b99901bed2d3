ghost use Rattle.std.specs.Prelude.{◌≡◌};
ghost use Rattle.tdl_session.specs.Rejections.{IsFound, IsWhySaid, at_byte, element_rejection, epc_rejection, hex_rejection, ident_rejection, of_kind, rejection_of, value_rejection};

use crate::status::{MEMORY, NO, OK};
use gs_ai::{ElementFault, ElementWhy, ValueFault};
use gs_bits::HexFault;
use gs_chars::Text;
use gs_epc::EpcFault;
use gs_ident::IdentFault;
use gs_translate::Reason;

/// No place in a text.
const NOWHERE: usize = usize::MAX;

/// The number of a rejection's kind, and its place in the text.
#[derive(Clone, Copy)]
pub struct Found {
    /// The number of the kind, in the order of docs/MESSAGES.md; 0 if there is no rejection.
    pub kind: u32,
    /// The byte of the text, or the greatest number if the kind has no place.
    pub at: usize,
    /// The character of the value, or the greatest number.
    pub character: usize,
}

/// Returns a kind that has no place.
pub fn of_kind(kind: u32) -> Found
    ensures { result ≡ of_kind kind }
{
    Found {
        kind,
        at: NOWHERE,
        character: NOWHERE,
    }
}

/// Returns a kind with its place.
fn at_byte(kind: u32, at: usize) -> Found
    ensures { result ≡ at_byte kind at }
{
    Found {
        kind,
        at,
        character: NOWHERE,
    }
}

/// Returns the kind of an error of hexadecimal digits.
fn hex_rejection(error: HexFault) -> Found
    ensures { result ≡ hex_rejection error }
{
    match error {
        HexFault::OddDigits => of_kind(2),
        HexFault::Full => of_kind(3),
        HexFault::BadDigit(at) => at_byte(4, at),
    }
}

/// Returns the kind of an error of a tag or an EPC URI.
fn epc_rejection(error: EpcFault) -> Found
    ensures { result ≡ epc_rejection error }
{
    match error {
        EpcFault::Hex(error) => hex_rejection(error),
        EpcFault::NoReading => of_kind(5),
        EpcFault::Memory => of_kind(0),
    }
}

/// Returns the kind of an error of a value, in the element at this place.
fn value_rejection(at: usize, error: ValueFault) -> Found
    ensures { result ≡ value_rejection at error }
{
    match error {
        ValueFault::Unknown => at_byte(9, at),
        ValueFault::Length => at_byte(11, at),
        ValueFault::Char(character) => Found {
            kind: 12,
            at,
            character,
        },
        ValueFault::Check => at_byte(13, at),
        ValueFault::Date => at_byte(14, at),
    }
}

/// Returns the kind of an error of an element.
fn element_rejection(error: ElementFault) -> Found
    ensures { result ≡ element_rejection error }
{
    match error.why {
        ElementWhy::Value(why) => value_rejection(error.at, why),
        ElementWhy::Escape => at_byte(10, error.at),
        ElementWhy::Bracket => at_byte(8, error.at),
    }
}

/// Returns the kind of an error of elements that have no identity.
fn ident_rejection(error: &IdentFault) -> Found
    ensures { result ≡ ident_rejection error.now }
{
    match error {
        IdentFault::Repeat(_) => of_kind(15),
        IdentFault::NoKey => of_kind(16),
        IdentFault::TwoKeys(_) => of_kind(17),
        IdentFault::Memory => of_kind(0),
    }
}

/// Returns the kind of a reason.
fn rejection_of(reason: &Reason) -> Found
    ensures { result ≡ rejection_of reason.now }
{
    match reason {
        Reason::Long => of_kind(1),
        Reason::Epc(error) => epc_rejection(*error),
        Reason::Element(error) => element_rejection(*error),
        Reason::NotHttp => of_kind(6),
        Reason::NoKeyPath => of_kind(7),
        Reason::Ident(error) => ident_rejection(error),
        Reason::NoKind => of_kind(18),
        Reason::Extra(_) => of_kind(19),
        Reason::Missing(_) => of_kind(20),
        Reason::NoOption => of_kind(21),
        Reason::CannotHold(_, _) => of_kind(22),
        Reason::NoClass => of_kind(23),
        Reason::MissingElement => of_kind(20),
        Reason::NoWord => of_kind(24),
        Reason::Extended => of_kind(25),
        Reason::Toggle => of_kind(26),
        Reason::Words { said: _, bits: _ } => of_kind(27),
        Reason::Line => of_kind(28),
        Reason::TooLong => of_kind(29),
        Reason::Memory => of_kind(0),
    }
}

/// Returns the status of an answer, and the kind of its rejection.
pub(crate) fn why_of(answer: &Result<Text, Reason>) -> (u32, Found)
    ensures { IsWhySaid answer.now result.1 result.0 }
{
    match answer {
        Ok(_) => (OK, of_kind(0)),
        Err(Reason::Memory) => (MEMORY, of_kind(0)),
        Err(reason) => (NO, rejection_of(reason)),
    }
}

/// Returns the status, and tells what was found.
pub fn tell_found(
    status: u32,
    found: Found,
    kind: &mut u32,
    at: &mut usize,
    character: &mut usize,
) -> u32
    ensures status { result ≡ status }
    ensures found { IsFound found kind.new at.new character.new }
{
    *kind = found.kind;
    *at = found.at;
    *character = found.character;
    status
}

ghost use Rattle.std.specs.Prelude.{◌≡◌};

use gs_chars::{CowText, Text};
use std::marker::Model;

/// The contents of a tag or an EPC URI (TDS 2.0, section 6.3): the fields of an option of a table set.
#[derive(Drop)]
pub struct Epc {
    /// The index of the kind.
    pub kind: usize,
    /// The name of the encoding, empty for a pure identity.
    pub encoding: Text,
    /// The filter value, none for a pure identity.
    pub filter: Option<u8>,
    /// The number of digits of the GS1 Company Prefix, 1 to 12.
    pub gcp: u8,
    /// The GS1 Company Prefix.
    pub prefix: Text,
    /// The reference of the key, with the indicator or extension digit at the start; empty if the company prefix leaves nothing.
    pub rest: Text,
    /// The number of the piece, empty for a kind without pieces.
    pub piece: Text,
    /// The number of pieces, empty for a kind without pieces.
    pub total: Text,
    /// The serial, empty for a kind without one.
    pub serial: Text,
}

/// The contents of a tag or an EPC URI, each text lent: the fields of `Epc`. The rest owns its text if the value of a key does
/// not have it in one piece.
#[derive(Drop)]
pub struct EpcRef<'a> {
    /// The index of the kind.
    pub kind: usize,
    /// The name of the encoding, empty for a pure identity.
    pub encoding: &'a [u8],
    /// The filter value, none for a pure identity.
    pub filter: Option<u8>,
    /// The number of digits of the GS1 Company Prefix, 1 to 12.
    pub gcp: u8,
    /// The GS1 Company Prefix.
    pub prefix: &'a [u8],
    /// The reference of the key, with the indicator or extension digit at the start; empty if the company prefix leaves nothing.
    pub rest: CowText<'a>,
    /// The number of the piece, empty for a kind without pieces.
    pub piece: &'a [u8],
    /// The number of pieces, empty for a kind without pieces.
    pub total: &'a [u8],
    /// The serial, empty for a kind without one.
    pub serial: &'a [u8],
}

impl<'a> Model for EpcRef<'a> {
    ghost use Rattle.gs_epc.specs.declared.epc.Epc.{Epc};

    ghost Value = { Epc };

    ghost view = { λ t. record {
      kind = t.kind;
      encoding = t.encoding.now;
      filter = t.filter;
      gcp = t.gcp;
      prefix = t.prefix.now;
      rest = t.rest;
      piece = t.piece.now;
      total = t.total.now;
      serial = t.serial.now;
    } };
}

/// Returns an EPC, lent.
pub(crate) fn lent(epc: &Epc) -> EpcRef<'_>
    ensures { result ≡ epc.now }
{
    EpcRef {
        kind: epc.kind,
        encoding: epc.encoding.as_bytes(),
        filter: epc.filter,
        gcp: epc.gcp,
        prefix: epc.prefix.as_bytes(),
        rest: CowText::lent(epc.rest.as_bytes()),
        piece: epc.piece.as_bytes(),
        total: epc.total.as_bytes(),
        serial: epc.serial.as_bytes(),
    }
}

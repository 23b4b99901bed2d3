ghost use Rattle.std.specs.Prelude.{◌≡◌};
ghost use Rattle.std.specs.List.{after_first, before_first};
ghost use Rattle.gs_chars.specs.Characters.{is_byte};
ghost use Rattle.gs_dlink.specs.Uris.{path_of, query_of};

use gs_chars::{after, place_of};

/// Returns the text before the first such byte, or all of the text.
pub(crate) fn before(text: &[u8], byte: u8) -> &[u8]
    ensures { result.now ≡ before_first (is_byte byte) text.now }
{
    &text[..place_of(text, byte)]
}

/// Returns the text after the first such byte, or the empty text.
pub(crate) fn behind(text: &[u8], byte: u8) -> &[u8]
    ensures { result.now ≡ after_first (is_byte byte) text.now }
{
    after(text, place_of(text, byte))
}

/// Returns the path of a target.
pub(crate) fn path_of(target: &[u8]) -> &[u8]
    ensures { result.now ≡ path_of target.now }
{
    before(before(target, b'#'), b'?')
}

/// Returns the query of a target.
pub(crate) fn query_of(target: &[u8]) -> &[u8]
    ensures { result.now ≡ query_of target.now }
{
    behind(before(target, b'#'), b'?')
}

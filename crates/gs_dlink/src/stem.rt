ghost use Rattle.std.specs.Prelude.{◌≡◌, true, IfOk};
ghost use Rattle.gs_ident.specs.Links.{spelled};
ghost use Rattle.gs_dlink.specs.Stems.{are_stem_bytes, begins_authority, ends_in_slash, stem_ok};

use gs_chars::{Memory, Text};
use gs_ident::{Identity, spell};
use std::alloc::Global;

/// Returns whether each byte may be in a stem: bytes from 33 to 126 except `?` and `#`.
fn are_stem_bytes(stem: &[u8]) -> bool
    ensures { result ≡ are_stem_bytes stem.now }
{
    stem.iter()
        .all(|c| c.is_ascii_graphic() && *c != b'?' && *c != b'#')
}

/// Returns whether a byte that is not a slash follows `http://` or `https://` at the start of the stem.
fn begins_authority(stem: &[u8]) -> bool
    ensures { result ≡ begins_authority stem.now }
{
    if stem.starts_with(b"http://") {
        stem.len() > 7 && stem[7] != b'/'
    } else {
        stem.starts_with(b"https://") && stem.len() > 8 && stem[8] != b'/'
    }
}

/// Returns whether the last byte is a slash.
fn ends_in_slash(stem: &[u8]) -> bool
    ensures { result ≡ ends_in_slash stem.now }
{
    !stem.is_empty() && stem[stem.len() - 1] == b'/'
}

/// Returns whether a link may be written under the stem. A stem has 1 to 1,024 bytes from 33 to 126. It begins with `http://`
/// or `https://` in lower case and a byte that is not a slash. It has no `?` and no `#`, and does not end in a slash.
#[tactic(auto, unfolding(crate::specs::Stems::stem_ok))]
pub fn stem_ok(stem: &[u8]) -> bool
    ensures { result ≡ stem_ok stem.now }
{
    stem.len() <= 1024 && are_stem_bytes(stem) && begins_authority(stem) && !ends_in_slash(stem)
}

/// Returns the link of the identity under the stem (GS1 Digital Link URI Syntax, section 4). Fails only with `Memory`. `stem_ok`
/// allows the stem.
pub fn write_link(alloc: Global, stem: &[u8], identity: &Identity<'_>) -> Result<Text, Memory>
    requires { stem_ok stem.now ≡ true }
    ensures { IfOk result (λ text. text ≡ spelled stem.now identity.now) }
{
    spell(alloc, stem, identity)
}

ghost use Rattle.std.specs.Prelude.{◌≡◌, ◌≢◌, All, ◌+◌, ◌<◌, ◌≤◌, ◌^◌, IfOk, IfErr, IfSome, IsTrue, Some, map, length};
ghost use Rattle.std.specs.Char.{to_ascii_lowercase};
ghost use Rattle.gs_ident.specs.Identities.{IsInOrder};
ghost use Rattle.gs_dlink.specs.Answers.{IsLink, IsTarget, is_rooted, link_error, target_answer, target_error, written_answer};
ghost use Rattle.gs_dlink.specs.Uris.{authority_end, has_scheme, scheme_end};
ghost use Rattle.gs_dlink.specs.Values.{IsPlaced};
ghost use Rattle.gs_dlink.specs.ValuesSupport.{written_of};
ghost use Rattle.gs_chars.specs.Answers.{OrError};

use crate::error::LinkFault;
use crate::path::key_path;
use crate::query::{authority_len, push_query};
use crate::value::{WrittenPair, read_pair};
use gs_ai::{AiTable, Pair};
use gs_chars::{List, after, place_of};
use std::alloc::Global;

/// Returns the pairs that a link names: those of its key path, then those of its query (GS1 Digital Link URI Syntax, section
/// 3). The first error is the answer: `NotHttp`, `NoKeyPath`, then pair by pair `Unknown`, `Escape` and the errors of the
/// value. Its place is that of the pair's code in the text. May return `Memory` instead.
pub fn read_link<'a>(
    alloc: Global,
    table: &AiTable,
    uri: &'a [u8],
) -> Result<Vec<Pair<'a>>, LinkFault>
    ensures pairs { IfOk result (λ pairs. IsLink table.now uri.now pairs.items) }
    ensures in_order { IfOk result (λ pairs. All (IsInOrder table.now) pairs.items) }
    ensures error { IfErr result (λ e. e ≢ LinkFault.Memory → link_error table.now uri.now ≡ Some e) }
{
    let Some(at) = authority_end(uri) else {
        return Err(LinkFault::NotHttp);
    };
    let pairs = read_at(alloc, table, at, &uri[at..])?;
    Ok(pairs.into_vec())
}

/// Returns the same for the target of a request: a path with its query (RFC 9112, section 3.2.1). It never answers `NotHttp`.
pub fn read_target<'a>(
    alloc: Global,
    table: &AiTable,
    target: &'a [u8],
) -> Result<Vec<Pair<'a>>, LinkFault>
    ensures pairs { IfOk result (λ pairs. IsTarget table.now target.now pairs.items) }
    ensures in_order { IfOk result (λ pairs. All (IsInOrder table.now) pairs.items) }
    ensures error { IfErr result (λ e. e ≢ LinkFault.Memory
        → target_error table.now target.now ≡ Some e) }
{
    let pairs = read_at(alloc, table, 0, target)?;
    Ok(pairs.into_vec())
}

/// Returns whether the text begins with the scheme, whose letters are lower case, case-insensitively.
fn has_scheme(text: &[u8], scheme: &[u8]) -> bool
    requires { map to_ascii_lowercase scheme.now ≡ scheme.now }
    ensures test { result ≡ has_scheme scheme.now text.now }
    ensures within { IsTrue result → length scheme.now ≤ length text.now }
{
    scheme.len() <= text.len() && text[..scheme.len()].eq_ignore_ascii_case(scheme)
}

/// Returns the place after `http://` or `https://`, with which the text begins.
fn scheme_end(text: &[u8]) -> Option<usize>
    ensures end { result ≡ scheme_end text.now }
    ensures within { IfSome result (λ end. end ≤ length text.now) }
{
    if has_scheme(text, b"http://") {
        Some(7)
    } else if has_scheme(text, b"https://") {
        Some(8)
    } else {
        None
    }
}

/// Returns the place after the authority of a text that begins with `http://` or `https://` and an authority.
fn authority_end(text: &[u8]) -> Option<usize>
    ensures end { result ≡ authority_end text.now }
    ensures within { IfSome result (λ end. end ≤ length text.now) }
{
    let scheme = scheme_end(text)?;
    let len = authority_len(&text[scheme..]);
    if len == 0 { None } else { Some(scheme + len) }
}

/// Returns whether the path is empty or begins with a slash.
fn is_rooted(path: &[u8]) -> bool
    ensures { result ≡ is_rooted path.now }
{
    match path {
        [first, ..] => *first == b'/',
        [] => true,
    }
}

/// Returns the pairs of a path with its query that are at a place in the whole text, or the first error.
#[tactic(auto, unfolding(crate::specs::Answers::target_answer))]
fn read_at<'a>(
    alloc: Global,
    table: &AiTable,
    at: usize,
    text: &'a [u8],
) -> Result<List<Pair<'a>>, LinkFault>
    requires { at + length text.now < 2 ^ 63 }
    ensures { OrError LinkFault.Memory result (target_answer table.now at text.now) }
{
    let text = &text[..place_of(text, b'#')];
    let end = place_of(text, b'?');
    let path = &text[..end];
    if !is_rooted(path) {
        return Err(LinkFault::NoKeyPath);
    }
    let Some(mut written) = key_path(alloc, table, at, path)? else {
        return Err(LinkFault::NoKeyPath);
    };
    push_query(table, &mut written, at + end + 1, after(text, end))?;
    read_pairs(alloc, table, written.as_slice())
}

/// Returns the pairs that are written so, or the first error of one.
fn read_pairs<'a>(
    alloc: Global,
    table: &AiTable,
    written: &[WrittenPair<'a>],
) -> Result<List<Pair<'a>>, LinkFault>
    requires { All (IsPlaced table.now) written.now }
    ensures { OrError LinkFault.Memory result (written_answer table.now (map written_of written.now)) }
{
    let Ok(mut pairs) = Vec::with_capacity(alloc, written.len()) else {
        return Err(LinkFault::Memory);
    };
    for pair in written {
        let pair = read_pair(alloc, table, pair)?;
        let Ok(()) = pairs.push(pair) else {
            return Err(LinkFault::Memory);
        };
    }
    Ok(List::from_vec(pairs))
}

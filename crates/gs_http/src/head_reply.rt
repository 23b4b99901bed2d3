ghost use Rattle.std.specs.Prelude.{◌≡◌, ◌≤◌, Bool, List, None, Some, IfOk, length};
ghost use Rattle.gs_ai.specs.declared.row.AiRow.{AiRow};
ghost use Rattle.gs_links.specs.declared.link.Link.{Link};
ghost use Rattle.gs_http.specs.declared.resolver.Settings.{Settings as How};
ghost use Rattle.gs_http.specs.LentValues.{asked_by};
ghost use Rattle.gs_http.specs.Replies.{IsReply, closes, reply_of};
ghost use Rattle.gs_http.specs.Sites.{room_for};

use crate::answer::Answer;
use crate::heads::{MOST_FIELDS, is_rejected, request_at, whole_head};
use crate::replies::{Reply, reply_bytes};
use crate::request::Request;
use crate::resolver::{Resolver, Settings, Site};
use crate::routing::{answer_to, is_head};
use gs_ai::AiTable;
use gs_chars::Memory;
use gs_links::Store;
use httparse::spans::EMPTY_HEADER_SPAN;
use std::alloc::Global;

/// Returns the reply to a head that is not that of a request which is answered.
#[tactic(auto, unfolding(crate::specs::Replies::reply_of))]
pub(crate) fn rejection(alloc: Global) -> Result<Reply, Memory>
    ensures { (table : List AiRow) (links : List Link) (settings : How) (last : Bool)
        → IfOk result (λ reply. reply ≡ reply_of table links settings None last) }
{
    Ok(Reply {
        bytes: reply_bytes(alloc, false, true, &Answer::BadRequest)?,
        close: true,
    })
}

/// Returns whether the connection ends with the reply to a request.
fn closes(last: bool, request: &Request<'_>) -> bool
    ensures { result ≡ closes last (asked_by request.now) }
{
    last || request.minor == 0 || request.said.closes
}

/// Returns the reply to a request.
#[tactic(auto, unfolding(crate::specs::Replies::reply_of))]
fn reply_to(
    alloc: Global,
    resolver: &Resolver<'_>,
    room: &mut [u32],
    request: &Request<'_>,
    last: bool,
) -> Result<Reply, Memory>
    requires { room_for resolver.now.links ≤ length room.old }
    ensures { IfOk result (λ reply. reply ≡ reply_of resolver.now.table resolver.now.links
        resolver.now.settings (Some (asked_by request.now)) last) }
{
    let answer = answer_to(alloc, resolver, room, request)?;
    let close = closes(last, request);
    let bytes = reply_bytes(alloc, is_head(request.method), close, &answer)?;
    Ok(Reply { bytes, close })
}

/// Returns the reply of a resolver to a head: as `reply`, with room for the numbers of links that `Resolver::room` makes.
pub fn reply_with(
    alloc: Global,
    resolver: &Resolver<'_>,
    room: &mut [u32],
    head: &[u8],
    last: bool,
) -> Result<Reply, Memory>
    requires { room_for resolver.now.links ≤ length room.old }
    ensures { IfOk result
        (IsReply resolver.now.table resolver.now.links resolver.now.settings head.now last) }
{
    let mut spans = [EMPTY_HEADER_SPAN; MOST_FIELDS];
    let Some(parts) = whole_head(head, &mut spans) else {
        return rejection(alloc);
    };
    let request = request_at(head, &spans, parts);
    if is_rejected(&request) {
        return rejection(alloc);
    }
    reply_to(alloc, resolver, room, &request, last)
}

/// Returns the reply to the head of a request (RFC 9112, section 2.1), whose bytes are all of `head`. The first case that
/// applies decides:
///
/// - 400 that closes the connection: the bytes are not a head of at most 64 fields, have a bare line feed, or announce a body.
/// - 405: the method is neither `GET` nor `HEAD`.
/// - 400: the target does not begin with a slash.
/// - The resolver description file, or 404 without one: its path is the target's.
/// - 404: the path names no key.
/// - 400: any other error of the target.
/// - 404: no link is chosen.
/// - A linkset of the chosen links: the request asks for one.
/// - 307: one link is chosen.
/// - 300 with their document: several links are chosen.
///
/// `last` says that the connection ends with this reply. Fails only with `Memory`.
pub fn reply(
    alloc: Global,
    table: &AiTable,
    store: &Store,
    settings: &Settings,
    head: &[u8],
    last: bool,
) -> Result<Reply, Memory>
    ensures { IfOk result (IsReply table.now store.now settings.now head.now last) }
{
    let site = Site {
        table,
        store,
        settings,
    };
    let (resolver, mut room) = Resolver::with_room(alloc, &site)?;
    reply_with(alloc, &resolver, room.as_mut_slice(), head, last)
}

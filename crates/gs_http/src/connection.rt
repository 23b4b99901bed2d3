ghost use Rattle.std.specs.Prelude.{◌≡◌, ◌-◌, ◌<◌, ◌≤◌, ◌==◌, length, true, Bool, List, None, Some, take};
ghost use Rattle.gs_http.specs.ServedStreams.{IsServed, after_serving};
ghost use Rattle.gs_http.specs.Sites.{room_for};
ghost use Rattle.gs_ai.specs.declared.row.AiRow.{AiRow};
ghost use Rattle.gs_links.specs.declared.link.Link.{Link};
ghost use Rattle.gs_http.specs.declared.resolver.Settings.{Settings as How};
ghost use Rattle.gs_http.specs.Turns.{Answered, Delivers, LetsGo, Turned};
ghost use Rattle.gs_http.specs.ConnectedSupport.{Sends};

use crate::buffer::{Buffer, Filled, fill};
use crate::head_reply::{rejection, reply_with};
use crate::replies::Reply;
use crate::resolver::{Resolver, Settings, Site};
use gs_ai::AiTable;
use gs_links::Store;
use gs_port::{Conn, Whole, WriteAnswer};
use std::alloc::Global;

/// The most replies that are made of a connection.
const MOST: usize = 1000;

/// How serving a connection ended.
#[derive(Clone, Copy, Debug, PartialEq, Eq)]
pub enum Served {
    /// All was answered: up to the end of the stream, or to a reply that ends the connection.
    Done,
    /// A read failed, and was counted.
    ReadFault,
    /// A write failed, and was counted.
    WriteFault,
    /// Out of memory.
    Memory,
}

/// Writes all the bytes, in as many pieces as the connection takes.
fn send<C: Conn>(conn: &mut C, bytes: &[u8]) -> Whole
    requires current { (C.state conn.old).is_open ≡ true }
    ensures { Sends result bytes.now (C.state conn.old) (C.state conn.new) }
{
    let mut done = 0;
    while done < bytes.len() {
        match conn.write(&bytes[done..]) {
            WriteAnswer::Took(taken) => done += taken,
            WriteAnswer::Failed => return Whole::SinkFault,
            WriteAnswer::Memory => return Whole::Memory,
        }
    }
    Whole::Done
}

/// Writes a reply. Returns how serving ended, or `None` if the connection stays.
fn deliver<C: Conn>(conn: &mut C, reply: &Reply) -> Option<Served>
    requires current { (C.state conn.old).is_open ≡ true }
    ensures { Delivers result reply.now (C.state conn.old) (C.state conn.new) }
{
    match send(conn, reply.bytes.as_bytes()) {
        Whole::SinkFault => return Some(Served::WriteFault),
        Whole::Memory => return Some(Served::Memory),
        Whole::Done => {}
    }
    if reply.close {
        Some(Served::Done)
    } else {
        None
    }
}

/// Answers bytes that are not a head, whatever follows, as `deliver` does.
fn reject<C: Conn>(alloc: Global, conn: &mut C) -> Option<Served>
    requires current { (C.state conn.old).is_open ≡ true }
    ensures { (table : List AiRow) (links : List Link) (settings : How) (last : Bool)
        → Answered table links settings result None last (C.state conn.old) (C.state conn.new) }
{
    match rejection(alloc) {
        Ok(reply) => deliver(conn, &reply),
        Err(_) => Some(Served::Memory),
    }
}

/// Answers the head with which the bytes begin, in place, as `deliver` does. Lets go of it if the connection stays.
fn answer_head<C: Conn>(
    alloc: Global,
    conn: &mut C,
    resolver: &Resolver<'_>,
    room: &mut [u32],
    bytes: &mut Buffer,
    len: usize,
    last: bool,
) -> Option<Served>
    requires current { (C.state conn.old).is_open ≡ true }
    requires room { room_for resolver.now.links ≤ length room.old }
    requires within { len ≤ length bytes.old }
    ensures answered { Answered resolver.now.table resolver.now.links resolver.now.settings result
        (Some (take len bytes.old)) last (C.state conn.old) (C.state conn.new) }
    ensures lets_go { LetsGo result len bytes.old bytes.new }
{
    let head = &bytes.as_slice()[..len];
    let Ok(reply) = reply_with(alloc, resolver, room, head, last) else {
        return Some(Served::Memory);
    };
    match deliver(conn, &reply) {
        Some(served) => Some(served),
        None => {
            bytes.let_go(len);
            None
        }
    }
}

/// Reads up to the end of a head and replies to it, as `deliver` does.
fn answer_next<C: Conn>(
    alloc: Global,
    conn: &mut C,
    resolver: &Resolver<'_>,
    room: &mut [u32],
    bytes: &mut Buffer,
    last: bool,
) -> Option<Served>
    requires current { (C.state conn.old).is_open ≡ true }
    requires room { room_for resolver.now.links ≤ length room.old }
    requires few { length bytes.old ≤ 12287 }
    ensures { Turned resolver.now.table resolver.now.links resolver.now.settings result last
        bytes.old bytes.new (C.state conn.old) (C.state conn.new) }
{
    match fill(conn, bytes) {
        Filled::Ended => Some(Served::Done),
        Filled::Failed => Some(Served::ReadFault),
        Filled::Memory => Some(Served::Memory),
        Filled::Headless => reject(alloc, conn),
        Filled::Head(len) => answer_head(alloc, conn, resolver, room, bytes, len, last),
    }
}

/// Returns whether the reply of a turn is the last that may come.
#[tactic(auto, using(crate::proofs::Connections::last_turn))]
fn is_last(turn: usize) -> bool
    requires { turn < 1000 }
    ensures { result ≡ (1000 - turn == 1) }
{
    turn + 1 == MOST
}

/// Answers the heads of the current connection as `serve_one` does, with the room for numbers of links that `Resolver::room`
/// makes.
pub fn serve_with<C: Conn>(
    alloc: Global,
    conn: &mut C,
    resolver: &Resolver<'_>,
    room: &mut [u32],
) -> Served
    requires current { (C.state conn.old).is_open ≡ true }
    requires room { room_for resolver.now.links ≤ length room.old }
    ensures served { IsServed 1000 resolver.now.table resolver.now.links resolver.now.settings result
        (C.state conn.old) (C.state conn.new) }
    ensures rest { C.state conn.new ≡ after_serving result (C.state conn.new) (C.state conn.old) }
{
    let mut bytes = Buffer::new(alloc);
    for turn in 0..MOST {
        match answer_next(alloc, conn, resolver, room, &mut bytes, is_last(turn)) {
            None => {}
            Some(served) => return served,
        }
    }
    // the last reply that may come ends the connection
    unreachable!()
}

/// Answers the heads of the current connection in order, up to the end of the stream or to the first reply that ends it. The
/// 1,000th reply does. Bytes without a head within 8,192 bytes or before the end of the stream get one such reply. The
/// connection stays open. `Done`: all replies were written, and nothing else. After the other results a prefix of them was
/// written. Returns `ReadFault` or `WriteFault` only if a read or a write failed and was counted.
#[tactic(auto, using(crate::proofs::Connections::nothing_done))]
pub fn serve_one<C: Conn>(
    alloc: Global,
    conn: &mut C,
    table: &AiTable,
    store: &Store,
    settings: &Settings,
) -> Served
    requires { (C.state conn.old).is_open ≡ true }
    ensures served { IsServed 1000 table.now store.now settings.now result
        (C.state conn.old) (C.state conn.new) }
    ensures rest { C.state conn.new ≡ after_serving result (C.state conn.new) (C.state conn.old) }
{
    let site = Site {
        table,
        store,
        settings,
    };
    let Ok((resolver, mut room)) = Resolver::with_room(alloc, &site) else {
        return Served::Memory;
    };
    serve_with(alloc, conn, &resolver, room.as_mut_slice())
}

ghost use Rattle.std.specs.Prelude.{◌≡◌, ◌≤◌, ◌<◌, ◌+◌, [], true, false, drop, length, ℕ, List, None, Option, take};
ghost use Rattle.std.specs.Prelude.{IfSome};
ghost use Rattle.gs_http.specs.ConnectedSupport.{Begins, Comes, Fetches, NothingLeft, is_failed, is_not_read};
ghost use Rattle.gs_http.specs.Streams.{head_end};

use gs_port::{Conn, ReadAnswer};
use memchr::memmem;
use std::alloc::Global;
use std::marker::Model;

/// The most bytes of a head.
const LONGEST: usize = 8192;

/// Room for the most bytes that one read moves.
static BLOCK: [u8; 4096] = [0; 4096];

/// The result of a read.
#[derive(Clone, Copy)]
enum More {
    /// Bytes.
    Got,
    /// Nothing is left.
    End,
    /// The read failed.
    NotRead,
    /// Out of memory; nothing was read.
    NoRoom,
}

/// Moves the next bytes of the connection after those that were read, at most 4,096 of them.
#[tactic(auto, using(crate::proofs::Readings::fetches_none))]
fn read_more<C: Conn>(conn: &mut C, bytes: &mut Vec<u8>) -> More
    requires current { (C.state conn.old).is_open ≡ true }
    requires few { length bytes.old.items < 8192 }
    ensures fetches { Fetches bytes.old.items bytes.new.items (is_not_read result) (C.state conn.old)
        (C.state conn.new) }
    ensures comes { Comes result bytes.old.items bytes.new.items (C.state conn.new).left }
    ensures few { length bytes.new.items ≤ length bytes.old.items + 4096 }
{
    let len = bytes.len();
    let Ok(()) = bytes.extend_from_slice(&BLOCK) else {
        return More::NoRoom;
    };
    match conn.read(&mut bytes.as_mut_slice()[len..]) {
        ReadAnswer::Failed => {
            bytes.truncate(len);
            More::NotRead
        }
        ReadAnswer::Got(moved) => {
            bytes.truncate(len + moved);
            if moved == 0 { More::End } else { More::Got }
        }
    }
}

/// Drops the first bytes.
fn drop_front(bytes: &mut Vec<u8>, len: usize)
    requires { len ≤ length bytes.old.items }
    ensures { bytes.new.items ≡ drop len bytes.old.items }
{
    let rest = bytes.len() - len;
    bytes.copy_within(len.., 0);
    bytes.truncate(rest);
}

/// The bytes that were read from a connection. Contracts see those that are still held. They are moved only before more is read,
/// and not for each head.
#[derive(Drop)]
pub(crate) struct Buffer {
    bytes: Vec<u8>,
    /// The number of bytes at the start that were dropped.
    gone: usize,
}

impl Model for Buffer {
    ghost use Rattle.std.specs.Prelude.{◌≤◌, ℕ, List, drop, length};

    ghost Value = { List ℕ };

    ghost view = { λ a. drop a.gone a.bytes.items };

    ghost invariant = { λ a. a.gone ≤ length a.bytes.items };
}

impl Buffer {
    /// Returns an empty buffer.
    pub(crate) fn new(alloc: Global) -> Buffer
        ensures { result ≡ [] }
    {
        Buffer {
            bytes: Vec::new(alloc),
            gone: 0,
        }
    }

    /// Returns the bytes.
    pub(crate) fn as_slice(&self) -> &[u8]
        ensures { result.now ≡ self.now }
    {
        &self.bytes.as_slice()[self.gone..]
    }

    /// Returns the number of bytes.
    pub(crate) fn len(&self) -> usize
        ensures { result ≡ length self.now }
    {
        self.as_slice().len()
    }

    /// Drops the first bytes.
    pub(crate) fn let_go(&mut self, len: usize)
        requires { len ≤ length self.old }
        ensures { self.new ≡ drop len self.old }
    {
        self.gone += len;
    }

    /// Moves the next bytes of a connection after these, at most 4,096 of them.
    fn read_more<C: Conn>(&mut self, conn: &mut C) -> More
        requires current { (C.state conn.old).is_open ≡ true }
        requires few { length self.old < 8192 }
        ensures fetches { Fetches self.old self.new (is_not_read result)
            (C.state conn.old) (C.state conn.new) }
        ensures comes { Comes result self.old self.new (C.state conn.new).left }
        ensures few { length self.new ≤ length self.old + 4096 }
    {
        drop_front(&mut self.bytes, self.gone);
        self.gone = 0;
        read_more(conn, &mut self.bytes)
    }
}

/// The start of the bytes that were read of a connection.
#[derive(Clone, Copy)]
pub(crate) enum Filled {
    /// There are none, and nothing is left.
    Ended,
    /// A head of this length.
    Head(usize),
    /// No head, whatever follows.
    Headless,
    /// A read failed before the end of a head came.
    Failed,
    /// Out of memory.
    Memory,
}

/// Returns the place after the first empty line.
#[tactic(auto, using(crate::proofs::Fronts::finds))]
fn head_end(text: &[u8]) -> Option<usize>
    ensures end { result ≡ head_end text.now }
    ensures within { IfSome result (λ end. end ≤ length text.now) }
{
    match memmem::find(text, b"\r\n\r\n") {
        Some(place) => Some(place + 4),
        None => None,
    }
}

/// Returns the length of the head with which the bytes begin.
fn head_len(bytes: &[u8]) -> Option<usize>
    ensures len { result ≡ head_end (take 8192 bytes.now) }
    ensures within { IfSome result (λ len. len ≤ length bytes.now) }
{
    head_end(&bytes[..bytes.len().min(LONGEST)])
}

/// Classifies the bytes if nothing is left after them and they do not begin with a head.
fn at_end(bytes: &[u8]) -> Filled
    requires { head_end (take 8192 bytes.now) ≡ None }
    ensures begins { (left : Option (List ℕ)) → NothingLeft left → Begins result bytes.now left }
    ensures count { is_failed result ≡ false }
{
    if bytes.is_empty() {
        Filled::Ended
    } else {
        Filled::Headless
    }
}

/// Reads until the bytes begin with a head, or none can follow. Reads nothing if they already begin with one.
#[tactic(auto, using(crate::proofs::Readings::fetches_further))]
pub(crate) fn fill<C: Conn>(conn: &mut C, bytes: &mut Buffer) -> Filled
    requires current { (C.state conn.old).is_open ≡ true }
    requires few { length bytes.old ≤ 12287 }
    ensures fetches { Fetches bytes.old bytes.new (is_failed result) (C.state conn.old) (C.state conn.new) }
    ensures begins { Begins result bytes.new (C.state conn.new).left }
    ensures few { length bytes.new ≤ 12287 }
{
    'filling: loop {
        if let Some(len) = head_len(bytes.as_slice()) {
            return Filled::Head(len);
        }
        if LONGEST <= bytes.len() {
            return Filled::Headless;
        }
        match bytes.read_more(conn) {
            More::Got => {}
            More::End => return at_end(bytes.as_slice()),
            More::NotRead => return Filled::Failed,
            More::NoRoom => return Filled::Memory,
        }
    }
}

//! What the tests do with files and connections, and the outcome.

ghost use Rattle.std.specs.Prelude.{◌≡◌, false, true};

use gs_port::{AcceptAnswer, Conn, Door, FileFault, Files, ReadAnswer, WriteAnswer, read_file};
use std::alloc::Global;

/// The most bytes that a call of `read_file` may request.
const LARGEST: usize = 16_777_216;

/// Reads a file and returns the number of its bytes, and whether it failed.
pub fn outcome<F: Files>(alloc: Global, files: &mut F, name: &str, max: usize) -> (usize, bool) {
    match read_file(alloc, files, name, max.min(LARGEST)) {
        Ok(text) => (text.as_bytes().len(), false),
        Err(FileFault::Over(text)) => (text.as_bytes().len(), false),
        Err(FileFault::Failed) => (0, true),
        Err(FileFault::Memory) => (0, false),
    }
}

/// Accepts a connection, replies with the bytes of one read, and finishes it.
pub fn echo_once<D: Door>(door: &mut D) -> AcceptAnswer
    requires none_open { (D.state door.old).is_open ≡ false }
    requires listening { (D.state door.old).aside.opened ≡ true }
{
    let answer = door.accept();
    let mut block = [0; 16];
    match answer {
        AcceptAnswer::Accepted => {}
        _ => return answer,
    }
    if let ReadAnswer::Got(moved) = door.read(&mut block) {
        door.write(&block[..moved]);
    }
    door.finish();
    answer
}

/// Reads until a read gives nothing, at most `most` times. Returns how often one gave bytes.
fn reads_given<C: Conn>(conn: &mut C, most: usize) -> usize
    requires { (C.state conn.old).is_open ≡ true }
    ensures open { (C.state conn.new).is_open ≡ true }
    ensures aside { (C.state conn.new).aside ≡ (C.state conn.old).aside }
{
    if most == 0 {
        return 0;
    }
    let mut block = [0; 16];
    match conn.read(&mut block) {
        ReadAnswer::Got(moved) if moved > 0 => reads_given(conn, most - 1).saturating_add(1),
        _ => 0,
    }
}

/// Writes until a write fails, at most `most` times. Returns how often one took bytes.
fn writes_taken<C: Conn>(conn: &mut C, most: usize) -> usize
    requires { (C.state conn.old).is_open ≡ true }
    ensures open { (C.state conn.new).is_open ≡ true }
    ensures aside { (C.state conn.new).aside ≡ (C.state conn.old).aside }
{
    if most == 0 {
        return 0;
    }
    match conn.write(b"ten") {
        WriteAnswer::Took(_) => writes_taken(conn, most - 1).saturating_add(1),
        _ => 0,
    }
}

/// Accepts a connection, reads and writes it that often, and finishes it. Returns how often a read and a write moved bytes.
pub fn moves_of<D: Door>(door: &mut D, reads: usize, writes: usize) -> (usize, usize)
    requires none_open { (D.state door.old).is_open ≡ false }
    requires listening { (D.state door.old).aside.opened ≡ true }
    ensures none_open { (D.state door.new).is_open ≡ false }
    ensures listening { (D.state door.new).aside.opened ≡ true }
{
    match door.accept() {
        AcceptAnswer::Accepted => {}
        _ => return (0, 0),
    }
    let given = reads_given(door, reads);
    let taken = writes_taken(door, writes);
    door.finish();
    (given, taken)
}

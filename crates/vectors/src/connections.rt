//! Calls of gs_port and gs_port_memory over connections in memory. A turn reads at most 4 bytes, and writes the bytes read. Its
//! answer is the bytes that the read moved, or that it failed, and then how many bytes the write took, or that it failed.
//!
//! - `pair CUT FAILS BYTES / CUT FAILS`: the answers of three turns over a source and a sink, then the bytes that the sink
//!   holds.
//! - `door CUT FAILS INPUT..`: the answer of an open and, if it is opened, of each of three accepts, or the three turns of the
//!   connection. The connection is then finished. Last the number of finished connections, and the bytes written to each.

ghost use Rattle.std.specs.Prelude.{◌≡◌, false, true, is_some};

use crate::line::{Done, Line};
use crate::objects::{door_of, section, sink_of, source_of};
use crate::outside::add_taken;
use gs_chars::Text;
use gs_port::{AcceptAnswer, Conn, Door, MemSink, MemSource, OpenAnswer, Pair, ReadAnswer};
use gs_port_memory::MemDoor;
use std::alloc::Global;

/// Writes the answer of a turn.
fn add_turn<C: Conn>(line: &mut Line, conn: &mut C)
    requires { (C.state conn.old).is_open ≡ true }
    ensures open { (C.state conn.new).is_open ≡ true }
    ensures aside { (C.state conn.new).aside ≡ (C.state conn.old).aside }
{
    let mut block = [0; 4];
    match conn.read(&mut block) {
        ReadAnswer::Got(n) => {
            line.bytes(&block[..n]);
            add_taken(line, conn.write(&block[..n]));
        }
        ReadAnswer::Failed => line.plain("Failed"),
    }
}

/// Writes the answers of three turns.
fn add_turns<C: Conn>(line: &mut Line, conn: &mut C)
    requires { (C.state conn.old).is_open ≡ true }
    ensures open { (C.state conn.new).is_open ≡ true }
    ensures aside { (C.state conn.new).aside ≡ (C.state conn.old).aside }
{
    add_turn(line, conn);
    add_turn(line, conn);
    add_turn(line, conn);
}

/// Writes the answers of three turns over a source and a sink.
fn add_paired(line: &mut Line, source: &mut MemSource, sink: &mut MemSink) {
    add_turns(line, &mut Pair::new(source, sink));
}

/// Makes a call of `pair`.
pub fn pair(alloc: Global, line: &mut Line, args: &[Text]) -> Done {
    let from = section(args, 0)?;
    let to = section(args, 1)?;
    let mut source = source_of(alloc, from)?;
    let mut sink = sink_of(alloc, to)?;
    add_paired(line, &mut source, &mut sink);
    line.bytes(sink.bytes());
    Ok(())
}

/// Writes the answer of an accept, or the turns of the connection, which is finished then.
fn add_visit(line: &mut Line, door: &mut MemDoor)
    requires none_open { is_some door.old.current ≡ false }
    requires listening { door.old.opened ≡ true }
    ensures none_open { is_some door.new.current ≡ false }
    ensures listening { door.new.opened ≡ true }
{
    match door.accept() {
        AcceptAnswer::Accepted => {
            add_turns(line, door);
            door.finish();
        }
        AcceptAnswer::Closed => line.plain("Closed"),
        AcceptAnswer::Failed => line.plain("Failed"),
    }
}

/// Writes the number of finished connections, and the bytes written to each.
pub fn add_finished(line: &mut Line, door: &MemDoor) {
    line.debug(door.finished());
    for i in 0..door.finished() {
        line.bytes(door.written(i));
    }
}

/// Writes the answers of three visits at an open listener, and its state after them.
fn add_visits(line: &mut Line, door: &mut MemDoor)
    requires none_open { is_some door.old.current ≡ false }
    requires listening { door.old.opened ≡ true }
{
    add_visit(line, door);
    add_visit(line, door);
    add_visit(line, door);
    add_finished(line, door);
}

/// Makes a call of `door`.
pub fn door(alloc: Global, line: &mut Line, args: &[Text]) -> Done {
    let mut door = door_of(alloc, args)?;
    match door.open("memory") {
        OpenAnswer::Opened => add_visits(line, &mut door),
        OpenAnswer::Failed => line.plain("Failed"),
        OpenAnswer::Memory => line.want_memory(),
    }
    Ok(())
}

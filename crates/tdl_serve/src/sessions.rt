ghost use Rattle.std.specs.Prelude.{◌≡◌, ◌+◌, ◌++◌, ◌-◌, ◌<◌, ◌≤◌, ◌^◌, [], ◌∷◌, IfOk, false, length, string_bytes, true};
ghost use Rattle.gs_http.specs.Sites.{room_for};
ghost use Rattle.gs_port.specs.Outputs.{Writes};
ghost use Rattle.tdl_lines.specs.Printers.{WritesLine};
ghost use Rattle.tdl_lines.specs.Statuses.{is_status};
ghost use Rattle.tdl_serve.specs.Doors.{CountsErrors, ServeRan, served_line};
ghost use Rattle.tdl_serve.specs.Turns.{OpenServed, SessionDid, TellsError, after_turns, error_number, is_failed};

use gs_chars::Memory;
use gs_http::{Resolver, Served, Site, serve_with};
use gs_port::{AcceptAnswer, Door, OpenAnswer, Sink};
use std::alloc::Global;
use tdl_lines::{Status, print_line};

/// Returns whether serving a connection ended by an error, or `Memory`.
fn errored(served: Served) -> Result<bool, Memory>
    ensures { TellsError result served }
{
    match served {
        Served::Done => Ok(false),
        Served::ReadFault | Served::WriteFault => Ok(true),
        Served::Memory => Err(Memory),
    }
}

/// Serves the open connection, and finishes it. Returns whether that ended by an error, or `Memory`.
fn serve_open<D: Door>(
    alloc: Global,
    resolver: &Resolver<'_>,
    room: &mut [u32],
    door: &mut D,
) -> Result<bool, Memory>
    requires current { (D.state door.old).is_open ≡ true }
    requires room { room_for resolver.now.links ≤ length room.old }
    ensures { OpenServed resolver.now result (D.state door.old) (D.state door.new) }
{
    let served = serve_with(alloc, door, resolver, room);
    door.finish();
    errored(served)
}

/// The numbers of finished connections, and of those that ended by an error.
#[derive(Clone, Copy)]
struct Tally {
    finished: u32,
    errors: u32,
}

/// Returns the line of a tally.
fn line_of(alloc: Global, tally: Tally) -> Result<String, Memory>
    ensures { IfOk result (λ line. string_bytes line ≡ served_line tally.finished tally.errors) }
{
    let Tally { finished, errors } = tally;
    Ok(format!(in alloc; "served {finished} faults {errors}\n")?)
}

/// Writes the line of a tally.
fn print_tally<K: Sink>(alloc: Global, tally: Tally, output: &mut K) -> Status
    ensures { WritesLine Status.Done (served_line tally.finished tally.errors) result
        (K.state output.old) (K.state output.new) }
{
    match line_of(alloc, tally) {
        Ok(line) => print_line(output, line.as_bytes(), Status::Done),
        Err(Memory) => Status::Memory,
    }
}

/// Returns the number of errors after one more connection.
fn with_error(errors: u32, errored: bool) -> u32
    requires { errors < 2 ^ 32 - 1 }
    ensures { result ≡ errors + error_number errored }
{
    if errored { errors + 1 } else { errors }
}

/// Serves the connections that arrive, until `count` are finished. Returns their numbers, `ReadFault` if one could not be
/// accepted and the listener counted an error, or `Memory`.
fn serve_turns<D: Door>(
    alloc: Global,
    resolver: &Resolver<'_>,
    room: &mut [u32],
    count: u32,
    door: &mut D,
) -> Result<Tally, Status>
    requires room { room_for resolver.now.links ≤ length room.old }
    requires none_open { (D.state door.old).is_open ≡ false }
    requires listening { (D.state door.old).aside.opened ≡ true }
    ensures did { SessionDid result resolver.now count (D.state door.old) (D.state door.new) }
    ensures rest { D.state door.new ≡ after_turns (is_failed result) (D.state door.new) (D.state door.old) }
{
    let mut errors = 0;
    for finished in 0..count {
        match door.accept() {
            AcceptAnswer::Accepted => {}
            AcceptAnswer::Closed => return Ok(Tally { finished, errors }),
            AcceptAnswer::Failed => return Err(Status::ReadFault),
        }
        match serve_open(alloc, resolver, room, door) {
            Ok(errored) => errors = with_error(errors, errored),
            Err(Memory) => return Err(Status::Memory),
        }
    }
    Ok(Tally {
        finished: count,
        errors,
    })
}

/// Makes the resolver and its room once, and serves the connections that arrive, until `count` are finished.
fn serve_all<D: Door>(
    alloc: Global,
    site: &Site<'_>,
    count: u32,
    door: &mut D,
) -> Result<Tally, Status>
    requires none_open { (D.state door.old).is_open ≡ false }
    requires listening { (D.state door.old).aside.opened ≡ true }
    ensures did { SessionDid result site.now count (D.state door.old) (D.state door.new) }
    ensures rest { D.state door.new ≡ after_turns (is_failed result) (D.state door.new) (D.state door.old) }
{
    let Ok((resolver, mut room)) = Resolver::with_room(alloc, site) else {
        return Err(Status::Memory);
    };
    serve_turns(alloc, &resolver, room.as_mut_slice(), count, door)
}

/// Opens the listener once, at the address, and serves the connections that arrive, one at a time. It ends after `count`
/// connections, or if no more will arrive. An error on a connection ends only that connection. Then `serve` writes the line
/// `served N faults M` and returns `Done`. The numbers are those of finished connections and of those that ended by an error.
///
/// `ReadFault` is returned only if the listener could not be opened, or a connection not be accepted, and the listener's own
/// count rose. Nothing is written then. `WriteFault` is returned only if the output's count rose. No connection stays open,
/// even with `Memory`. No other status is returned.
pub fn serve<D: Door, K: Sink>(
    alloc: Global,
    site: &Site<'_>,
    address: &str,
    count: u32,
    door: &mut D,
    output: &mut K,
) -> Status
    requires { (D.state door.old).is_open ≡ false }
    ensures ran { Writes (is_status result Status.WriteFault) (K.state output.old) (K.state output.new)
        (λ out. ServeRan site.now count (D.state door.old) (D.state door.new) out result) }
    ensures opens { (D.state door.new).aside.addresses ≡ (D.state door.old).aside.addresses ++ address.now ∷ [] }
    ensures door_count { CountsErrors result (D.state door.old).aside (D.state door.new).aside }
    ensures closed { (D.state door.new).is_open ≡ false }
    ensures same_ends { (D.state door.new).ends ≡ (D.state door.old).ends }
{
    match door.open(address) {
        OpenAnswer::Opened => {}
        OpenAnswer::Failed => return Status::ReadFault,
        OpenAnswer::Memory => return Status::Memory,
    }
    match serve_all(alloc, site, count, door) {
        Ok(tally) => print_tally(alloc, tally, output),
        Err(status) => status,
    }
}

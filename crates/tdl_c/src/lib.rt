//! The library for C: sessions, each in a handle that the caller keeps.
//!
//! - `tdl_open` opens a session into a handle, and `tdl_close` closes it.
//! - `tdl_translate` translates a text by a session, and `tdl_translate_lines` each line of a text.
//! - `tdl_why` gives the kind of a rejection as a number, and its place.
//! - `tdl_retarget` gives a session other forms and options. `tdl_share` opens a session over the tables that another has loaded.
//! - `tdl_load_classes` gives a session classes; `tdl_class_canon` and `tdl_class_uri` translate by them. `tdl_dump_read` and
//!   `tdl_dump_write` answer dumps of tags.
//! - `tdl_version_number` is the version of the library.
//!
//! # Differences from the standards
//!
//! - No standard has such a library.
#![tactic(auto)]

ghost use Rattle.std.specs.Prelude.{◌≡◌, None};
ghost use Rattle.tdl_c.specs.Calls.{AreCalled, IsAsked, IsBoxed, IsCalled, IsClassing, IsExplained, IsOpening, IsRetargeting, IsShared};
ghost use Rattle.tdl_session.specs.LineAnswers.{IsClassCanonReply, IsClassUriReply, IsDumpReadReply, IsDumpWriteReply};

mod handle;
mod parts;

pub use handle::Handle;
use std::alloc::Global;
use std::mem::replace;
use tdl_session::{
    CLOSED, Choice, OK, Session, Unopened, nothing, of_kind, open, status_of, tell, tell_found,
};

/// The version of the library: 10,000 times the first number of VERSION, 100 times the second, and the third.
const VERSION: u32 = 10_000;

/// Opens a session in the place of what the handle had. It has the chosen forms and options, the tables of a document or the
/// built-in ones if it is empty, and a list of company prefix lengths, which may be empty. Returns `OK`, or what is rejected
/// first, and the handle is then as it was. The printed reason against a document is put into `out` if there is room for it, and
/// its length into `len`, which is 0 with any other status.
#[unsafe(no_mangle)]
pub extern "C" fn tdl_open(
    alloc: Global,
    handle: &mut Handle,
    choice: &Choice,
    encoding: &[u8],
    stem: &[u8],
    tables: &[u8],
    prefixes: &[u8],
    out: &mut [u8],
    len: &mut usize,
) -> u32
    ensures { IsOpening choice.now encoding.now stem.now tables.now prefixes.now
        handle.old.session handle.new.session out.old out.new len.new result }
{
    let opened = open(alloc, choice, encoding, stem, tables, prefixes);
    match boxed(alloc, opened) {
        Ok(session) => {
            *handle = Handle::of(session);
            nothing(OK, len)
        }
        Err(why) => tell(alloc, why, out, len),
    }
}

/// Returns the session on the heap, or why it is not opened.
fn boxed(alloc: Global, opened: Result<Session, Unopened>) -> Result<Box<Session, Global>, Unopened>
    ensures { IsBoxed opened result }
{
    match opened {
        Ok(session) => match Box::new(alloc, session) {
            Ok(session) => Ok(session),
            Err(_) => Err(Unopened::Memory),
        },
        Err(why) => Err(why),
    }
}

/// Gives the session of the handle other forms and options; its tables and company prefix lengths stay. Returns `OK`, or
/// `ARGUMENT`, `MEMORY`, and `CLOSED` if the handle has no session; it is then as it was.
#[unsafe(no_mangle)]
pub extern "C" fn tdl_retarget(
    alloc: Global,
    handle: &mut Handle,
    choice: &Choice,
    encoding: &[u8],
    stem: &[u8],
) -> u32
    ensures { IsRetargeting choice.now encoding.now stem.now
        handle.old.session handle.new.session result }
{
    let Some(session) = replace(handle, Handle::closed(alloc)).into_box() else {
        return CLOSED;
    };
    let other = session.as_ref().retargeted(alloc, choice, encoding, stem);
    match boxed(alloc, other) {
        Ok(other) => {
            *handle = Handle::of(other);
            OK
        }
        Err(why) => {
            *handle = Handle::of(session);
            status_of(why)
        }
    }
}

/// Opens a session of these forms and options in the place of what the handle had. It shares the tables and the company prefix
/// lengths of the session of the other handle, which stays as it was. Returns `OK`, or `ARGUMENT`, `MEMORY`, and `CLOSED` if the
/// other has no session; the handle is then as it was.
#[unsafe(no_mangle)]
pub extern "C" fn tdl_share(
    alloc: Global,
    handle: &mut Handle,
    other: &mut Handle,
    choice: &Choice,
    encoding: &[u8],
    stem: &[u8],
) -> u32
    ensures same { other.new.session ≡ other.old.session }
    ensures shared { IsShared choice.now encoding.now stem.now other.old.session
        handle.old.session handle.new.session result }
{
    let Some(session) = replace(other, Handle::closed(alloc)).into_box() else {
        return CLOSED;
    };
    let made = session.as_ref().retargeted(alloc, choice, encoding, stem);
    *other = Handle::of(session);
    match boxed(alloc, made) {
        Ok(made) => {
            *handle = Handle::of(made);
            OK
        }
        Err(why) => status_of(why),
    }
}

/// Puts the translation of a text by the session of the handle into the buffer, or the printed reason why it is rejected, and the
/// length of this answer into `len`. If there is no room for it, the buffer stays as it was. Returns one of `OK`, `NO`, `SMALL`,
/// `MEMORY`, and `CLOSED` if the handle has no session.
#[unsafe(no_mangle)]
pub extern "C" fn tdl_translate(
    alloc: Global,
    handle: &mut Handle,
    text: &[u8],
    out: &mut [u8],
    len: &mut usize,
) -> u32
    ensures same { handle.new.session ≡ handle.old.session }
    ensures answer { IsCalled handle.old.session text.now out.old out.new len.new result }
{
    match replace(handle, Handle::closed(alloc)).into_box() {
        Some(session) => {
            let status = session.as_ref().translate(alloc, text, out, len);
            *handle = Handle::of(session);
            status
        }
        None => nothing(CLOSED, len),
    }
}

/// Tells why a text has no translation by the session of the handle: the number of the kind, the byte of the text and the character
/// of the value. Returns `OK` with the kind 0 if it has one, otherwise `NO`, `MEMORY`, and `CLOSED` if the handle has no session.
#[unsafe(no_mangle)]
pub extern "C" fn tdl_why(
    alloc: Global,
    handle: &mut Handle,
    text: &[u8],
    kind: &mut u32,
    at: &mut usize,
    character: &mut usize,
) -> u32
    ensures same { handle.new.session ≡ handle.old.session }
    ensures answer { IsExplained handle.old.session text.now kind.new at.new character.new result }
{
    match replace(handle, Handle::closed(alloc)).into_box() {
        Some(session) => {
            let status = session.as_ref().why(alloc, text, kind, at, character);
            *handle = Handle::of(session);
            status
        }
        None => tell_found(CLOSED, of_kind(0), kind, at, character),
    }
}

/// Puts the answer to each line by the session of the handle into the buffer, `ok TEXT` or `no REASON` and a line feed, and the
/// length of all into `len`. If there is no room, the buffer stays as it was. Returns `OK` if each text is translated, `NO` if one
/// is rejected, `SMALL`, `MEMORY`, and `CLOSED` if the handle has no session.
#[unsafe(no_mangle)]
pub extern "C" fn tdl_translate_lines(
    alloc: Global,
    handle: &mut Handle,
    lines: &[u8],
    out: &mut [u8],
    len: &mut usize,
) -> u32
    ensures same { handle.new.session ≡ handle.old.session }
    ensures answer { AreCalled handle.old.session lines.now out.old out.new len.new result }
{
    match replace(handle, Handle::closed(alloc)).into_box() {
        Some(session) => {
            let status = session.as_ref().translate_lines(alloc, lines, out, len);
            *handle = Handle::of(session);
            status
        }
        None => nothing(CLOSED, len),
    }
}

/// Gives the session of the handle the classes of a document, or the built-in ones if it is empty, in the place of those that it
/// has. Returns `OK`, or `CLASSES`, `MEMORY`, and `CLOSED` if the handle has no session; it is then as it was. The printed reason
/// against the document is put into `out` if there is room for it, and its length into `len`, which is 0 with any other status.
#[unsafe(no_mangle)]
pub extern "C" fn tdl_load_classes(
    alloc: Global,
    handle: &mut Handle,
    classes: &[u8],
    out: &mut [u8],
    len: &mut usize,
) -> u32
    ensures { IsClassing classes.now handle.old.session handle.new.session out.old out.new len.new result }
{
    let Some(mut session) = replace(handle, Handle::closed(alloc)).into_box() else {
        return nothing(CLOSED, len);
    };
    let taken = session.as_mut().take_classes(alloc, classes);
    *handle = Handle::of(session);
    match taken {
        Ok(()) => nothing(OK, len),
        Err(why) => tell(alloc, why, out, len),
    }
}

/// Puts the canonical link of a text, a class URI, into the buffer, as `tdl_translate` puts a translation. Returns one of its statuses,
/// and `CLASSES` if the session has no classes.
#[unsafe(no_mangle)]
pub extern "C" fn tdl_class_canon(
    alloc: Global,
    handle: &mut Handle,
    text: &[u8],
    out: &mut [u8],
    len: &mut usize,
) -> u32
    ensures same { handle.new.session ≡ handle.old.session }
    ensures answer { IsAsked IsClassCanonReply handle.old.session text.now out.old out.new len.new result }
{
    match replace(handle, Handle::closed(alloc)).into_box() {
        Some(session) => {
            let status = session.as_ref().class_canon(alloc, text, out, len);
            *handle = Handle::of(session);
            status
        }
        None => nothing(CLOSED, len),
    }
}

/// Puts the class URI of a text, a link, into the buffer, as `tdl_translate` puts a translation. Returns one of its statuses, and
/// `CLASSES` if the session has no classes.
#[unsafe(no_mangle)]
pub extern "C" fn tdl_class_uri(
    alloc: Global,
    handle: &mut Handle,
    text: &[u8],
    out: &mut [u8],
    len: &mut usize,
) -> u32
    ensures same { handle.new.session ≡ handle.old.session }
    ensures answer { IsAsked IsClassUriReply handle.old.session text.now out.old out.new len.new result }
{
    match replace(handle, Handle::closed(alloc)).into_box() {
        Some(session) => {
            let status = session.as_ref().class_uri(alloc, text, out, len);
            *handle = Handle::of(session);
            status
        }
        None => nothing(CLOSED, len),
    }
}

/// Puts the line that shows a text, a dump, into the buffer, as `tdl_translate` puts a translation. Returns one of its statuses.
#[unsafe(no_mangle)]
pub extern "C" fn tdl_dump_read(
    alloc: Global,
    handle: &mut Handle,
    text: &[u8],
    out: &mut [u8],
    len: &mut usize,
) -> u32
    ensures same { handle.new.session ≡ handle.old.session }
    ensures answer { IsAsked IsDumpReadReply handle.old.session text.now out.old out.new len.new result }
{
    match replace(handle, Handle::closed(alloc)).into_box() {
        Some(session) => {
            let status = session.as_ref().dump_read(alloc, text, out, len);
            *handle = Handle::of(session);
            status
        }
        None => nothing(CLOSED, len),
    }
}

/// Puts the dump that a text shows into the buffer, as `tdl_translate` puts a translation. Returns one of its statuses.
#[unsafe(no_mangle)]
pub extern "C" fn tdl_dump_write(
    alloc: Global,
    handle: &mut Handle,
    text: &[u8],
    out: &mut [u8],
    len: &mut usize,
) -> u32
    ensures same { handle.new.session ≡ handle.old.session }
    ensures answer { IsAsked IsDumpWriteReply handle.old.session text.now out.old out.new len.new result }
{
    match replace(handle, Handle::closed(alloc)).into_box() {
        Some(session) => {
            let status = session.as_ref().dump_write(alloc, text, out, len);
            *handle = Handle::of(session);
            status
        }
        None => nothing(CLOSED, len),
    }
}

/// Closes the session of the handle, if it has one.
#[unsafe(no_mangle)]
pub extern "C" fn tdl_close(alloc: Global, handle: &mut Handle)
    ensures { handle.new.session ≡ None }
{
    *handle = Handle::closed(alloc);
}

/// Returns the version of the library, as `VERSION` says.
#[unsafe(no_mangle)]
pub extern "C" fn tdl_version_number() -> u32
    ensures { result ≡ 10000 }
{
    VERSION
}

ghost use Rattle.std.specs.Prelude.{◌≡◌};
ghost use Rattle.tdl_session.specs.Tellings.{IsFaultTold, IsTold, unopened_code};

use crate::buffer::put;
use crate::opening::Unopened;
use crate::status::{ARGUMENT, CLASSES, MEMORY, PREFIXES, TABLES};
use std::alloc::Global;
use tdl_messages::{FileFault, fault_text};

/// Returns the status of a session that is not opened.
pub fn status_of(why: Unopened) -> u32
    ensures { result ≡ unopened_code why }
{
    match why {
        Unopened::Memory => MEMORY,
        Unopened::Argument => ARGUMENT,
        Unopened::Tables(_) => TABLES,
        Unopened::Prefixes(_) => PREFIXES,
        Unopened::Classes(_) => CLASSES,
    }
}

/// Returns the status, and tells that the answer is empty.
pub fn nothing(status: u32, len: &mut usize) -> u32
    ensures status { result ≡ status }
    ensures len { len.new ≡ 0 }
{
    *len = 0;
    status
}

/// Puts the printed reason why a document is rejected into the buffer, if there is room for it, and its length into `len`.
/// Returns the status, or `MEMORY`.
fn tell_fault(alloc: Global, status: u32, fault: &FileFault, out: &mut [u8], len: &mut usize) -> u32
    ensures { IsFaultTold status fault.now out.old out.new len.new result }
{
    match fault_text(alloc, fault) {
        Ok(text) => {
            let _ = put(text.as_slice(), out, len);
            status
        }
        Err(_) => nothing(MEMORY, len),
    }
}

/// Returns the status of a session that is not opened. Puts the printed reason why its tables, prefixes or classes are rejected into the
/// buffer, if there is room for it, and its length into `len`. Returns `MEMORY` instead if there is no memory for the reason.
pub fn tell(alloc: Global, why: Unopened, out: &mut [u8], len: &mut usize) -> u32
    ensures { IsTold why out.old out.new len.new result }
{
    match why {
        Unopened::Memory => nothing(MEMORY, len),
        Unopened::Argument => nothing(ARGUMENT, len),
        Unopened::Tables(error) => tell_fault(alloc, TABLES, &FileFault::Tables(error), out, len),
        Unopened::Prefixes(error) => {
            tell_fault(alloc, PREFIXES, &FileFault::Prefixes(error), out, len)
        }
        Unopened::Classes(error) => {
            tell_fault(alloc, CLASSES, &FileFault::Classes(error), out, len)
        }
    }
}

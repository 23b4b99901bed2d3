ghost use Rattle.std.specs.Prelude.{◌≡◌, ℕ, Bool, List, IfNone, IfOk, IfSome};
ghost use Rattle.gs_epc.specs.Candidates.{HasFilter};
ghost use Rattle.gs_epc.specs.Epcs.{IsOfSet};
ghost use Rattle.gs_membank.specs.Answers.{ReadsShown, ShowsDump};
ghost use Rattle.gs_membank.specs.ShownLines.{IsShownStart, shown_start};

use crate::dump::Dump;
use crate::error::{DumpLineFault, DumpWriteFault};
use gs_chars::{Text, hex_digit, hex_value};
use gs_epc::{EpcFault, read_tag, write_tag};
use gs_tables::TableSet;
use std::alloc::Global;

/// The start of a line, before its tag URI.
#[derive(Clone, Copy)]
struct Start<'a> {
    /// Whether user memory has contents.
    user: bool,
    /// The 8 attribute bits as a number.
    attributes: u8,
    /// The rest of the line.
    rest: &'a [u8],
}

/// Returns the start of a line, if the line begins as one that shows a dump.
fn read_start(line: &[u8]) -> Option<Start<'_>>
    ensures start { IfSome result (λ start.
        IsShownStart line.now start.user start.attributes start.rest.now) }
    ensures none { IfNone result ((user : Bool) (attributes : ℕ) (rest : List ℕ)
        → IsShownStart line.now user attributes rest → ⊥) }
{
    let [b'u', digit, b' ', b'a', high, low, b' ', rest @ ..] = line else {
        return None;
    };
    let user = match digit {
        b'0' => false,
        b'1' => true,
        _ => return None,
    };
    let attributes = 16 * hex_value(*high)? + hex_value(*low)?;
    Some(Start {
        user,
        attributes,
        rest,
    })
}

/// Returns the dump that a line shows, as `show_dump` writes it, with digits in either case. Returns `Line` if and only if the
/// line does not begin with `u`, 0 or 1, a space, `a`, two hexadecimal digits and a space. Otherwise returns `NoReading` if and
/// only if the rest has no derivation in the level of tag URIs, as `gs_epc::read_tag` does.
pub fn read_shown(alloc: Global, set: &TableSet, text: &[u8]) -> Result<Dump, DumpLineFault>
    ensures answer { ReadsShown set.now text.now result }
    ensures of_set { IfOk result (λ dump. IsOfSet set.now dump.epc) }
    ensures filter { IfOk result (λ dump. HasFilter dump.epc.filter) }
{
    let Some(start) = read_start(text) else {
        return Err(DumpLineFault::Line);
    };
    // only for the proof: the options satisfy the rules
    let _ = set.kinds();
    match read_tag(alloc, set, start.rest) {
        Ok(epc) => Ok(Dump {
            user: start.user,
            attributes: start.attributes,
            epc,
        }),
        Err(EpcFault::NoReading) => Err(DumpLineFault::NoReading),
        Err(EpcFault::Memory) => Err(DumpLineFault::Memory),
        // a tag URI is not a hexadecimal text
        Err(EpcFault::Hex(_)) => unreachable!(),
    }
}

/// Returns the start of a line that shows a dump: `u`, the user memory bit, ` a`, the attribute bits in two digits, and a space.
fn shown_start(user: bool, attributes: u8) -> [u8; 7]
    ensures { result ≡ shown_start user attributes }
{
    let digit = if user { b'1' } else { b'0' };
    let high = hex_digit(attributes / 16);
    let low = hex_digit(attributes % 16);
    [b'u', digit, b' ', b'a', high, low, b' ']
}

/// Returns the line that shows a dump, `uU aHH TAG` (TDS 2.0, section 12). It has the user memory bit as 0 or 1, the attribute
/// bits as two upper-case hexadecimal digits, and the EPC tag URI. Returns `NoOption` and `CannotHold` as `gs_epc::write_tag`
/// does, and never `TooLong`. The EPC has a filter value of at most 7.
pub fn show_dump(alloc: Global, set: &TableSet, dump: &Dump) -> Result<Text, DumpWriteFault>
    requires { HasFilter dump.now.epc.filter }
    ensures { ShowsDump set.now dump.now result }
{
    let tag = write_tag(alloc, set, &dump.epc)?;
    let mut line = Text::from_bytes(alloc, &shown_start(dump.user, dump.attributes))?;
    line.extend_from_slice(tag.as_bytes())?;
    Ok(line)
}

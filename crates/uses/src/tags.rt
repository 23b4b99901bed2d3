ghost use Rattle.std.specs.Prelude.{◌≡◌, IfOk, Ok};
ghost use Rattle.gs_epc.specs.declared.epc.Epc.{Epc};
ghost use Rattle.gs_epc.specs.Readings.{ReadsHex};

use gs_chars::Text;
use gs_epc::{EpcFault, read_hex};
use gs_tables::TableSet;
use std::alloc::Global;

/// Returns the GS1 Company Prefix that the bits of a tag have, which are given as hexadecimal digits.
pub fn company_prefix(alloc: Global, tables: &TableSet, bits: &[u8]) -> Result<Text, EpcFault>
    ensures { IfOk result (λ prefix. (epc : Epc) × ReadsHex tables.now bits.now (Ok epc)
        × (prefix ≡ epc.prefix)) }
{
    let epc = read_hex(alloc, tables, bits)?;
    Ok(epc.prefix)
}

ghost use Rattle.std.specs.Prelude.{◌≡◌, IfOk, map};
ghost use Rattle.gs_tables_builtin.specs.BuiltIn.{builtin_kinds, kind};
ghost use Rattle.gs_tables_builtin.specs.BuiltInSupport.{fields_known, kind_known};

use gs_chars::{List, Memory, Text};
use gs_tables_document::KindRow;
use std::alloc::Global;

/// Returns the names of the further fields of a kind: the piece and the total if it has pieces, and otherwise none.
fn fields_of(alloc: Global, in_pieces: bool) -> Result<List<Text>, Memory>
    ensures { IfOk result (λ fields. fields ≡ fields_known in_pieces) }
{
    let mut fields = Vec::new(alloc);
    if in_pieces {
        fields.push(Text::from_bytes(alloc, b"piece")?)?;
        fields.push(Text::from_bytes(alloc, b"total")?)?;
        return Ok(List::from_vec(fields));
    }
    Ok(List::from_vec(fields))
}

/// Returns a kind by its name, the AI of its key and the digits before the company prefix. The place of the serial follows, and
/// whether it has pieces.
fn kind_of(
    alloc: Global,
    name: &[u8],
    key: &[u8],
    lead: u64,
    serial: &[u8],
    in_pieces: bool,
) -> Result<KindRow, Memory>
    ensures { IfOk result (λ row. row
        ≡ kind name.now key.now lead serial.now (fields_known in_pieces)) }
{
    Ok(KindRow {
        name: Text::from_bytes(alloc, name)?,
        key: Text::from_bytes(alloc, key)?,
        lead,
        serial: Text::from_bytes(alloc, serial)?,
        fields: fields_of(alloc, in_pieces)?,
    })
}

/// Returns the kinds of these lines.
fn kinds_of(
    alloc: Global,
    lines: &[(&[u8], &[u8], u64, &[u8], bool)],
) -> Result<List<KindRow>, Memory>
    ensures { IfOk result (λ rows. rows ≡ map kind_known lines.now) }
{
    let mut rows = Vec::new(alloc);
    for (name, key, lead, serial, in_pieces) in lines {
        rows.push(kind_of(alloc, name, key, *lead, serial, *in_pieces)?)?;
    }
    Ok(List::from_vec(rows))
}

/// Returns the built-in kinds.
#[tactic(auto, unfolding(crate::specs::BuiltIn::builtin_kinds))]
pub(crate) fn builtin_kinds(alloc: Global) -> Result<List<KindRow>, Memory>
    ensures { IfOk result (λ rows. rows ≡ builtin_kinds) }
{
    kinds_of(
        alloc,
        &[
            (b"sgtin", b"01", 1, b"21", false),
            (b"sscc", b"00", 1, b"", false),
            (b"sgln", b"414", 0, b"254", false),
            (b"grai", b"8003", 0, b"tail", false),
            (b"giai", b"8004", 0, b"", false),
            (b"gdti", b"253", 0, b"tail", false),
            (b"gsrn", b"8018", 0, b"", false),
            (b"sgcn", b"255", 0, b"tail", false),
            (b"itip", b"8006", 1, b"21", true),
            (b"gsrnp", b"8017", 0, b"", false),
        ],
    )
}

ghost use Rattle.std.specs.Prelude.{◌≡◌, [], List, None, Ok, Some, slice_get, ℕ};
ghost use Rattle.gs_ident.specs.Elements.{Elements};
ghost use Rattle.gs_ident.specs.Identities.{IsMadeWith};
ghost use Rattle.gs_tables_document.specs.declared.document.Kind.{Kind};
ghost use Rattle.gs_tables_document.specs.declared.document.LevelName.{LevelName};
ghost use Rattle.gs_tables.specs.Judgements.{IsLoaded};
ghost use Rattle.gs_tables.specs.Tables.{IsShaped, TableRows};
ghost use Rattle.gs_epc.specs.declared.epc.Epc.{Epc};
ghost use Rattle.gs_epc.specs.Candidates.{HasFilterOn};
ghost use Rattle.gs_epc.specs.Epcs.{IsOfSet};
ghost use Rattle.gs_epc.specs.Layout.{IsLaidOut};
ghost use Rattle.gs_epc.specs.KeyParts.{IsOfKind, epc_at};
ghost use Rattle.gs_epc.specs.Writes.{ReadsText, Writes, same_fields};

use gs_tables::TableSet;

/// States that taking apart undoes laying out. The identity of an EPC of the set, taken apart by its kind and prefix length,
/// gives back its prefix, rest, piece, total and serial.
pub fn taking_apart_undoes_laying_out()
    ensures { (set : TableRows) (epc : Epc) (identity : Elements) → IsShaped set → IsOfSet set epc
        → IsLaidOut set epc identity
        → epc_at set epc.kind identity epc.gcp ≡ Some (record epc { encoding = []; filter = None }) }
{}

/// States that laying out undoes taking apart for an identity of the set's application identifiers. The identity has only the
/// key of a kind and its serial. Its fields, taken apart by any company prefix length, are laid out to that identity.
pub fn laying_out_undoes_taking_apart(set: &TableSet)
    ensures { (kind n : ℕ) (row : Kind) (identity : Elements) (epc : Epc)
        → slice_get set.now.kinds kind ≡ Some row → IsOfKind row identity
        → IsMadeWith set.now.ais identity → epc_at set.now kind identity n ≡ Some epc
        → IsLaidOut set.now epc identity }
{
    // only for the proof: the rows satisfy the rules of application identifiers
    let _ = set.ais().rows();
}

/// States that a text written by loaded tables is read as the same fields, by the encoding of the option that wrote it.
pub fn what_is_written_is_read()
    ensures { (set : TableRows) (level : LevelName) (epc : Epc) (text : List ℕ) → IsLoaded set
        → HasFilterOn level epc.filter → (writes : Writes set level epc text)
        → ReadsText set level text (Ok (same_fields level writes.candidate.info epc)) }
{}

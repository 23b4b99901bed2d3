ghost use Rattle.std.specs.Prelude.{◌≡◌, ◌<◌, ◌*◌, ℕ, Bool, List, map, Err, Ok};
ghost use Rattle.std.specs.Char.{to_ascii_uppercase};
ghost use Rattle.gs_bits.specs.HexText.{bits_of_hex};
ghost use Rattle.gs_grammar.specs.Items.{size_of_all};
ghost use Rattle.gs_tables.specs.Judgements.{IsLoaded};
ghost use Rattle.gs_tables.specs.Tables.{TableRows};
ghost use Rattle.gs_epc.specs.Candidates.{HasFilter};
ghost use Rattle.gs_epc.specs.Epcs.{IsOfSet};
ghost use Rattle.gs_epc.specs.Readings.{IsHex};
ghost use Rattle.gs_membank.specs.declared.dump.Dump.{Dump};
ghost use Rattle.gs_membank.specs.declared.error.DumpFault.{DumpFault};
ghost use Rattle.gs_membank.specs.declared.error.DumpFault.TheVariants.{Memory};
ghost use Rattle.gs_membank.specs.Answers.{IsBank, ReadsDump, ReadsShown, ShowsDump, WritesDump};
ghost use Rattle.gs_membank.specs.ShownLines.{IsShownStart};

/// States that bits are at most one dump by all tables.
pub fn bits_are_one_dump()
    ensures { (set : TableRows) (bits : List ℕ) (one other : Dump) → IsBank set bits one
        → IsBank set bits other → one ≡ other }
{}

/// States that a text that `read_dump` rejects, other than by `Memory`, is not a dump. It has other characters than hexadecimal
/// digits, or its digits are not a dump. So `read_dump` returns a dump if and only if the text's bits are one.
pub fn what_is_rejected_is_no_dump()
    ensures { (set : TableRows) (text : List ℕ) (error : DumpFault) (dump : Dump)
        → ReadsDump set text (Err error) → (error ≡ Memory → ⊥) → IsHex text
        → IsBank set (bits_of_hex text) dump → ⊥ }
{}

/// States that by loaded tables the text that is written of a dump is read as that dump.
pub fn dump_written_is_read()
    ensures { (set : TableRows) (dump : Dump) (text : List ℕ) → IsLoaded set → IsOfSet set dump.epc
        → HasFilter dump.epc.filter → dump.attributes < 256 → WritesDump set dump (Ok text)
        → ReadsDump set text (Ok dump) }
{}

/// States that by loaded tables a dump that is read is written as its text in upper case. This needs an option whose items have
/// as many bits as the control word says.
pub fn dump_read_is_written()
    ensures { (set : TableRows) (text : List ℕ) (dump : Dump) → IsLoaded set → IsHex text
        → (bank : IsBank set (bits_of_hex text) dump)
        → size_of_all bank.says.read.derivation.items ≡ 16 * bank.words
        → WritesDump set dump (Ok (map to_ascii_uppercase text)) }
{}

/// States that the line that shows a dump is read as that dump.
pub fn shown_is_read()
    ensures { (set : TableRows) (dump : Dump) (text : List ℕ) → IsLoaded set → IsOfSet set dump.epc
        → HasFilter dump.epc.filter → dump.attributes < 256 → ShowsDump set dump (Ok text)
        → ReadsShown set text (Ok dump) }
{}

/// States that a text begins as at most one line: with one user memory bit, one number of attribute bits, and one rest.
pub fn texts_begin_as_one_line()
    ensures { (text rest behind : List ℕ) (user other : Bool) (attributes others : ℕ)
        → IsShownStart text user attributes rest → IsShownStart text other others behind
        → (user ≡ other) × (attributes ≡ others) × (rest ≡ behind) }
{}

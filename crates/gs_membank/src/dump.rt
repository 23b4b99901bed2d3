ghost use Rattle.std.specs.Prelude.{◌≡◌, ◌∷◌, ◌++◌, [], ◌*◌, ◌+◌, ◌^◌, ◌<◌, ◌≤◌, ◌↔◌, ℕ, List, length, false, IfErr};
ghost use Rattle.std.specs.Prelude.{IfOk, IsErr, OnOk};
ghost use Rattle.gs_bits.specs.Bits.{bits_of};
ghost use Rattle.gs_bits.specs.HexText.{hex_of_bits};
ghost use Rattle.gs_tables.specs.Tables.{TableRows};
ghost use Rattle.gs_membank.specs.Banks.{BeginsWith, IsPlain, bit_of, control_bits};
ghost use Rattle.gs_membank.specs.Answers.{IsWordError, ReadsDump, WritesDump};
ghost use Rattle.gs_epc.specs.Candidates.{HasFilter};
ghost use Rattle.gs_epc.specs.Epcs.{IsOfSet};
ghost use Rattle.gs_membank.specs.AnswersSupport.{IsHeadOf, RejectsHead};

use crate::error::{DumpFault, DumpWriteFault};
use gs_bits::{BitBuf, Cursor, Short};
use gs_chars::{Memory, Text};
use gs_epc::{Epc, EpcFault, read_hex, write_hex};
use gs_tables::TableSet;
use std::alloc::Global;

/// The contents of the EPC memory bank of a tag from its protocol control word on (TDS 2.0, section 9).
#[derive(Drop)]
pub struct Dump {
    /// Whether user memory has contents.
    pub user: bool,
    /// The 8 attribute bits as a number.
    pub attributes: u8,
    /// The EPC of the encoding after the word, with its encoding and filter value.
    pub epc: Epc,
}

/// The contents of a protocol control word (TDS 2.0, section 9).
#[derive(Clone, Copy)]
struct ControlWord {
    /// The number of words of 16 bits of the encoding after it, at most 31.
    pub words: u8,
    /// Whether user memory has contents.
    pub user: bool,
    /// Whether an extended control word follows.
    pub extended: bool,
    /// Whether the bank holds something other than an EPC.
    pub toggle: bool,
    /// The 8 attribute bits as a number.
    pub attributes: u8,
}

/// Returns the number of the next n bits.
fn take_bits(cursor: &mut Cursor<'_, 64>, n: u32) -> Result<u64, Short>
    requires { n ≤ 64 }
    ensures short { IsErr result ↔ (length cursor.old < n) }
    ensures small { IfOk result (λ number. number < 2 ^ n) }
    ensures joined { IfOk result (λ number. cursor.old ≡ bits_of n number ++ cursor.new) }
{
    // only for the proof: each item is 0 or 1
    let _ = cursor.left();
    let number = cursor.take(n)?;
    Ok(number)
}

/// Returns the control word that the next 16 bits are.
fn take_word(cursor: &mut Cursor<'_, 64>) -> Result<ControlWord, Short>
    ensures short { IsErr result ↔ (length cursor.old < 16) }
    ensures word { IfOk result (λ word. BeginsWith cursor.old word cursor.new) }
{
    Ok(ControlWord {
        words: take_bits(cursor, 5)? as u8,
        user: take_bits(cursor, 1)? == 1,
        extended: take_bits(cursor, 1)? == 1,
        toggle: take_bits(cursor, 1)? == 1,
        attributes: take_bits(cursor, 8)? as u8,
    })
}

/// Checks that a control word is that of an EPC without an extended word. Its number of words must be that of the bits after
/// it.
fn check_word(word: &ControlWord, bits: usize) -> Result<(), DumpFault>
    requires { bits < 2 ^ 16 }
    ensures plain { OnOk result (IsPlain word.now) }
    ensures whole { OnOk result (bits ≡ 16 * word.now.words) }
    ensures rejected { IfErr result (λ error. (set : TableRows) (behind : List ℕ) → length behind ≡ bits
        → IsWordError set word.now behind error) }
{
    if word.extended {
        return Err(DumpFault::Extended);
    }
    if word.toggle {
        return Err(DumpFault::Toggle);
    }
    if bits != 16 * usize::from(word.words) {
        return Err(DumpFault::Words {
            said: word.words,
            bits: bits as u16,
        });
    }
    Ok(())
}

/// Appends the bits of a number, which have room.
fn push_number(number: u64, n: u32, bits: &mut BitBuf<2>)
    requires width { n ≤ 64 }
    requires fits { number < 2 ^ n }
    requires room { length bits.old + n ≤ 16 }
    ensures { bits.new ≡ bits.old ++ bits_of n number }
{
    let _ = bits.push_bits(number, n);
}

/// Appends a bit, which has room.
fn push_flag(set: bool, bits: &mut BitBuf<2>)
    requires { length bits.old + 1 ≤ 16 }
    ensures { bits.new ≡ bits.old ++ bit_of set ∷ [] }
{
    push_number(if set { 1 } else { 0 }, 1, bits);
}

/// Returns the four hexadecimal digits of a control word.
fn word_digits(alloc: Global, word: ControlWord) -> Result<Text, Memory>
    requires { word.words < 32 }
    ensures { IfOk result (λ digits. digits ≡ hex_of_bits (control_bits word)) }
{
    let mut bits = BitBuf::<2>::new();
    push_number(u64::from(word.words), 5, &mut bits);
    push_flag(word.user, &mut bits);
    push_flag(word.extended, &mut bits);
    push_flag(word.toggle, &mut bits);
    push_number(u64::from(word.attributes), 8, &mut bits);
    bits.to_hex(alloc)
}

/// Returns the control word at the start of a dump. The bits after it are as many as it says.
fn read_control_word(text: &[u8]) -> Result<ControlWord, DumpFault>
    ensures word { IfOk result (IsHeadOf text.now) }
    ensures rejected { IfErr result (RejectsHead text.now) }
{
    let bits = match BitBuf::<64>::from_hex(text) {
        Ok(bits) => bits,
        Err(error) => return Err(DumpFault::Hex(error)),
    };
    // only for the proof: there are at most 512 bits
    let _ = bits.len();
    let mut cursor = bits.cursor();
    let Ok(word) = take_word(&mut cursor) else {
        return Err(DumpFault::NoWord);
    };
    check_word(&word, cursor.left())?;
    Ok(word)
}

/// Reads a dump of the EPC memory bank. It is a text of at most 128 hexadecimal digits in either case that begins with the
/// protocol control word (TDS 2.0, section 9). The errors are tried in the order of `DumpFault`:
///
/// - The text is not such a hexadecimal text.
/// - It has fewer than 16 bits.
/// - The extended bit is 1.
/// - The toggle bit is 1.
/// - The bits after the word are not 16 times the length in it. The error has both numbers.
/// - These bits have no derivation in the level of bits.
pub fn read_dump(alloc: Global, set: &TableSet, text: &[u8]) -> Result<Dump, DumpFault>
    ensures answer { ReadsDump set.now text.now result }
    ensures of_set { IfOk result (λ dump. IsOfSet set.now dump.epc) }
    ensures filter { IfOk result (λ dump. HasFilter dump.epc.filter) }
{
    let word = read_control_word(text)?;
    // only for the proof: the options satisfy the rules
    let _ = set.kinds();
    let (_, encoding) = text.split_at(4);
    match read_hex(alloc, set, encoding) {
        Ok(epc) => Ok(Dump {
            user: word.user,
            attributes: word.attributes,
            epc,
        }),
        Err(EpcFault::NoReading) => Err(DumpFault::NoReading),
        Err(EpcFault::Memory) => Err(DumpFault::Memory),
        // the digits after those of the control word are hexadecimal too
        Err(EpcFault::Hex(_)) => unreachable!(),
    }
}

/// The most words of 16 bits that a control word can say.
const MOST_WORDS: usize = 31;

/// Returns the text of a dump, in upper-case hexadecimal digits (TDS 2.0, sections 9 and 15). It is the protocol control word
/// and the encoding of the EPC after it. The extended bit and the toggle bit are 0. Returns `NoOption` and `CannotHold` as
/// `gs_epc::write_hex` does, and `TooLong` if and only if that encoding has more than 31 words. The EPC has a filter value of
/// at most 7.
pub fn write_dump(alloc: Global, set: &TableSet, dump: &Dump) -> Result<Text, DumpWriteFault>
    requires { HasFilter dump.now.epc.filter }
    ensures { WritesDump set.now dump.now result }
{
    // only for the proof: the options satisfy the rules
    let _ = set.kinds();
    let encoding = write_hex(alloc, set, &dump.epc)?;
    let words = encoding.as_bytes().len() / 4;
    if words > MOST_WORDS {
        return Err(DumpWriteFault::TooLong);
    }
    let word = ControlWord {
        words: words as u8,
        user: dump.user,
        extended: false,
        toggle: false,
        attributes: dump.attributes,
    };
    let mut text = word_digits(alloc, word)?;
    text.extend_from_slice(encoding.as_bytes())?;
    Ok(text)
}

ghost use Rattle.std.specs.Prelude.{◌≡◌, ◌++◌, ◌+◌, ◌*◌, ◌^◌, ◌<◌, ◌≤◌, All, IsOk, IfErr, OnOk, OnErr, true, length, replicate, take, flat_map};
ghost use Rattle.gs_bits.specs.Bits.{AreBits, bits_of};
ghost use Rattle.gs_grammar.specs.Items.{is_in_bounds, size_of, size_of_all};
ghost use Rattle.gs_grammar.specs.Words.{written_word};
ghost use Rattle.gs_grammar.specs.WrittenWords.{why_not, written, AreHeld, GivesReason, IsHoldError};

use crate::bit_words::number_in_bits;
use crate::error::{Why, WriteFault};
use crate::item::Item;
use crate::opt::Opt;
use crate::value_test::judged;
use gs_bits::BitBuf;
use gs_chars::CowText;

/// Appends the bits of a number, which have room.
fn push_number<const N: usize>(number: u64, bits: u32, out: &mut BitBuf<N>)
    requires width { bits ≤ 64 }
    requires fits { number < 2 ^ bits }
    requires room { length out.old + bits ≤ 8 * N }
    ensures { out.new ≡ out.old ++ bits_of bits number }
{
    let _ = out.push_bits(number, bits);
}

/// Appends symbols, each 0 or 1.
fn push_symbols<const N: usize>(symbols: &[u8], out: &mut BitBuf<N>)
    requires bits { AreBits symbols.now }
    requires room { length out.old + length symbols.now ≤ 8 * N }
    ensures { out.new ≡ out.old ++ symbols.now }
{
    for symbol in symbols {
        push_number(u64::from(*symbol), 1, out);
    }
}

/// Appends symbols, each 0 or 1: up to 64 as one number, which takes fewer steps.
fn push_literal<const N: usize>(symbols: &[u8], out: &mut BitBuf<N>)
    requires bits { AreBits symbols.now }
    requires room { length out.old + length symbols.now ≤ 8 * N }
    ensures { out.new ≡ out.old ++ symbols.now }
{
    let count = symbols.len();
    if count > 64 {
        push_symbols(symbols, out);
        return;
    }
    match number_in_bits(symbols, count) {
        Some(number) => push_number(number, count as u32, out),
        None => push_symbols(symbols, out),
    }
}

/// Appends zeros.
fn push_zeros<const N: usize>(count: usize, out: &mut BitBuf<N>)
    requires { length out.old + count ≤ 8 * N }
    ensures { out.new ≡ out.old ++ replicate count 0 }
{
    for _place in 0..count {
        push_number(0, 1, out);
    }
}

/// Appends 7 bits of each character.
fn push_characters<const N: usize>(value: &[u8], out: &mut BitBuf<N>)
    requires codes { All (λ c. c < 128) value.now }
    requires room { length out.old + 7 * length value.now ≤ 8 * N }
    ensures { out.new ≡ out.old ++ flat_map (bits_of 7) value.now }
{
    for character in value {
        push_number(u64::from(*character), 7, out);
    }
}

/// Appends the written word of a value, or returns the first reason why the item has none.
fn push_bit_word<const N: usize>(item: &Item, value: &[u8], out: &mut BitBuf<N>) -> Result<(), Why>
    requires item { is_in_bounds true item.now ≡ true }
    requires room { length out.old + size_of item.now ≤ 8 * N }
    ensures reason { GivesReason result (why_not item.now value.now) }
    ensures written { OnOk result (out.new ≡ out.old ++ written_word item.now value.now) }
    ensures unchanged { OnErr result (out.new ≡ out.old) }
{
    let number = judged(item, value)?;
    match item {
        Item::Lit(literal) => push_literal(literal.as_bytes(), out),
        Item::NumPad { bits, .. } | Item::Num { bits, .. } | Item::NumStr { bits, .. } => {
            push_number(number, u32::from(*bits), out)
        }
        Item::Ascii7 { bits, .. } => {
            push_characters(value, out);
            push_zeros(usize::from(*bits) - 7 * value.len(), out);
        }
        Item::Fill { b, .. } => push_zeros(usize::from(*b), out),
        _ => unreachable!(),
    }
    Ok(())
}

/// Returns the first bits of a buffer, all if it has no more.
fn first_bits<const N: usize>(bits: &BitBuf<N>, most: usize) -> BitBuf<N>
    ensures { result ≡ take most bits.now }
{
    let count = bits.len().min(most);
    let mut first = BitBuf::new();
    for place in 0..count {
        push_number(u64::from(bits.get(place)), 1, &mut first);
    }
    first
}

/// Appends the written words of the values to the bits: one value for each item of an option of a bit level. `CannotHold` is
/// returned if and only if an item does not hold its value, and names the first; then the bits are unchanged. Does not allocate,
/// and never answers `Memory`. The option is one of bits, there are as many values as items, and the buffer has room for the
/// longest words.
pub fn write_bits<const N: usize>(
    option: &Opt,
    values: &[CowText<'_>],
    out: &mut BitBuf<N>,
) -> Result<(), WriteFault>
    requires bit_level { option.now.bit_level ≡ true }
    requires one_each { length values.now ≡ length option.now.items }
    requires room { length out.old + size_of_all option.now.items ≤ 8 * N }
    ensures written { OnOk result (out.new ≡ out.old ++ written option.now.items values.now) }
    ensures held { IsOk result → AreHeld option.now.items values.now }
    ensures rejected { IfErr result (λ error. IsHoldError option.now.items values.now error) }
    ensures unchanged { OnErr result (out.new ≡ out.old) }
{
    let before = out.len();
    for (number, item) in option.items().iter().enumerate() {
        let value = values[number].as_bytes();
        if let Err(why) = push_bit_word(item, value, out) {
            *out = first_bits(out, before);
            return Err(WriteFault::CannotHold { item: number, why });
        }
    }
    Ok(())
}

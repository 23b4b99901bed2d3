ghost use Rattle.std.specs.Prelude.{◌≡◌, ◌++◌, IsTrue, IsOk, IfOk, IfErr, OnErr, OnOk, None, true, false, length, flat_map};
ghost use Rattle.gs_chars.specs.Answers.{BeginsWith};
ghost use Rattle.gs_chars.specs.Characters.{are_in_set82};
ghost use Rattle.gs_chars.specs.Escapes.{written_spelling};
ghost use Rattle.gs_grammar.specs.Items.{is_in_bounds};
ghost use Rattle.gs_grammar.specs.Words.{written_word};
ghost use Rattle.gs_grammar.specs.WrittenWords.{why_not, written, AreHeld, IsWriteFault, LeavesUnlessMemory};

use crate::error::WriteFault;
use crate::item::Item;
use crate::opt::Opt;
use crate::value_test::holds;
use gs_chars::{CowText, Memory, Text, write_escape};
use std::alloc::Global;

/// Appends the written spelling of each character.
fn push_spellings(value: &[u8], text: &mut Vec<u8>) -> Result<(), Memory>
    requires { IsTrue (are_in_set82 value.now) }
    ensures written { OnOk result (text.new.items ≡ text.old.items ++ flat_map written_spelling value.now) }
    ensures begun { OnErr result (BeginsWith text.new.items text.old.items) }
{
    for character in value {
        let mut spelling = [0; 3];
        let count = write_escape(*character, &mut spelling);
        text.extend_from_slice(&spelling[..count])?;
    }
    Ok(())
}

/// Appends the written word of a value.
fn push_word(item: &Item, value: &[u8], text: &mut Vec<u8>) -> Result<(), Memory>
    requires item { is_in_bounds false item.now ≡ true }
    requires held { why_not item.now value.now ≡ None }
    ensures written { OnOk result (text.new.items ≡ text.old.items ++ written_word item.now value.now) }
    ensures begun { OnErr result (BeginsWith text.new.items text.old.items) }
{
    match item {
        Item::Lit(literal) => text.extend_from_slice(literal.as_bytes())?,
        Item::Pad { .. } | Item::Digits { .. } | Item::Int { .. } => text.extend_from_slice(value)?,
        Item::Esc { .. } => push_spellings(value, text)?,
        _ => unreachable!(),
    }
    Ok(())
}

/// Appends the written words of the values: one value for each item of an option of a text level. `CannotHold` is returned if and
/// only if an item does not hold its value, and names the first; then the text is unchanged. After `Memory` it begins with its old
/// contents. The option is one of text, and there are as many values as items.
pub fn append_text(
    option: &Opt,
    values: &[CowText<'_>],
    text: &mut Vec<u8>,
) -> Result<(), WriteFault>
    requires text_level { option.now.bit_level ≡ false }
    requires one_each { length values.now ≡ length option.now.items }
    ensures written { OnOk result (text.new.items ≡ text.old.items ++ written option.now.items values.now) }
    ensures held { IsOk result → AreHeld option.now.items values.now }
    ensures rejected { IfErr result (λ error. IsWriteFault option.now.items values.now error) }
    ensures unchanged { IfErr result (LeavesUnlessMemory text.old.items text.new.items) }
    ensures begun { OnErr result (BeginsWith text.new.items text.old.items) }
{
    let before = text.len();
    for (number, item) in option.items().iter().enumerate() {
        let value = values[number].as_bytes();
        if let Err(why) = holds(item, value) {
            text.truncate(before);
            return Err(WriteFault::CannotHold { item: number, why });
        }
        if push_word(item, value, text).is_err() {
            return Err(WriteFault::Memory);
        }
    }
    Ok(())
}

/// Returns the written words of the values, as `append_text` appends them.
pub fn write_text(alloc: Global, option: &Opt, values: &[CowText<'_>]) -> Result<Text, WriteFault>
    requires text_level { option.now.bit_level ≡ false }
    requires one_each { length values.now ≡ length option.now.items }
    ensures written { IfOk result (λ text. text ≡ written option.now.items values.now) }
    ensures held { IsOk result → AreHeld option.now.items values.now }
    ensures rejected { IfErr result (λ error. IsWriteFault option.now.items values.now error) }
{
    let mut text = Vec::new(alloc);
    append_text(option, values, &mut text)?;
    Ok(Text::from_vec(text))
}

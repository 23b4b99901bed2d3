ghost use Rattle.std.specs.Prelude.{◌≡◌, ◌∷◌, ◌++◌, OnErr, OnOk, decimal};
ghost use Rattle.gs_chars.specs.Answers.{BeginsWith};
ghost use Rattle.gs_translate.specs.Reasons.{numbered, numbered_twice};

use gs_chars::Memory;
use std::alloc::Global;

/// Appends a word. Fails only with `Memory`; `out` then begins with its old contents.
pub fn append_word(out: &mut Vec<u8>, word: &[u8]) -> Result<(), Memory>
    ensures written { OnOk result (out.new.items ≡ out.old.items ++ word.now) }
    ensures begun { OnErr result (BeginsWith out.new.items out.old.items) }
{
    Ok(out.extend_from_slice(word)?)
}

/// Appends a blank and a number in decimal. Fails as `append_word` does.
pub fn append_number(alloc: Global, out: &mut Vec<u8>, number: usize) -> Result<(), Memory>
    ensures written { OnOk result (out.new.items ≡ out.old.items ++ 32 ∷ decimal number) }
    ensures begun { OnErr result (BeginsWith out.new.items out.old.items) }
{
    let text = format!(in alloc; " {number}")?;
    append_word(out, text.as_bytes())
}

/// Appends a word, a blank and a number in decimal. Fails as `append_word` does.
pub fn append_numbered(
    alloc: Global,
    out: &mut Vec<u8>,
    word: &[u8],
    number: usize,
) -> Result<(), Memory>
    ensures written { OnOk result (out.new.items ≡ out.old.items ++ numbered word.now number) }
    ensures begun { OnErr result (BeginsWith out.new.items out.old.items) }
{
    append_word(out, word)?;
    append_number(alloc, out, number)
}

/// Appends a word, and after it two numbers in decimal, each after a blank. Fails as `append_word` does.
pub fn append_numbered_twice(
    alloc: Global,
    out: &mut Vec<u8>,
    word: &[u8],
    first: usize,
    second: usize,
) -> Result<(), Memory>
    ensures written { OnOk result (out.new.items ≡ out.old.items ++ numbered_twice word.now first second) }
    ensures begun { OnErr result (BeginsWith out.new.items out.old.items) }
{
    append_numbered(alloc, out, word, first)?;
    append_number(alloc, out, second)
}

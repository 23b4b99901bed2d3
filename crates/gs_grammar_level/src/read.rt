ghost use Rattle.gs_grammar.specs.Levels.{item_lists};
ghost use Rattle.gs_grammar.specs.Ambiguity.{IsUnambiguous};
ghost use Rattle.gs_grammar_level.specs.Readings.{Reads};
ghost use Rattle.std.specs.Prelude.{◌≡◌, ℕ, All, IfOk, IfSome, IfNone, List, length};
ghost use Rattle.gs_grammar.specs.Limits.{most_symbols};
ghost use Rattle.gs_grammar.specs.declared.item.Item.{Item};
ghost use Rattle.gs_grammar.specs.Items.{IsItem};
ghost use Rattle.gs_grammar.specs.Derivations.{IsDerived};
ghost use Rattle.gs_grammar.specs.DerivationsSupport.{HasValues};
ghost use Rattle.gs_ambig.specs.Machines.{IsMachine};
ghost use Rattle.gs_grammar_compile.specs.Readers.{ReadsItems};
ghost use Rattle.gs_grammar_level.specs.Trails.{HasCuts};

use crate::cuttings::cut_back;
use crate::finder::find;
use crate::level::Level;
use crate::trail::{Entry, follow};
use gs_ambig::Auto;
use gs_bits::BitBuf;
use gs_chars::{CowText, List, Memory, Text};
use gs_grammar::{Item, MOST_SYMBOLS, unpack, value_of};
use std::alloc::Global;

/// Reads the symbols by the options.
fn read_symbols<'a>(alloc: Global, level: &Level, symbols: &'a [u8]) -> Reading<'a>
    requires { IsUnambiguous (item_lists level.now.options) }
    ensures { Reads (item_lists level.now.options) symbols.now result }
{
    match find(alloc, level, symbols) {
        Ok(Some(found)) => Reading::One {
            option: found.option,
            values: found.values,
        },
        Ok(None) => Reading::Nothing,
        Err(_) => Reading::Memory,
    }
}

/// Reads a text in a level that is not ambiguous. Returns `One`, with the number of an option and its values, if the text has a
/// derivation, and `Nothing` if it has none. May return `Memory` instead.
pub fn read_text<'a>(alloc: Global, level: &Level, text: &'a [u8]) -> Reading<'a>
    requires { IsUnambiguous (item_lists level.now.options) }
    ensures { Reads (item_lists level.now.options) text.now result }
{
    read_symbols(alloc, level, text)
}

/// Reads bits in a level of bits that is not ambiguous, as `read_text` reads a text. They are unpacked to the room, which has
/// 512 symbols.
pub fn read_bits_within<'a, const N: usize>(
    alloc: Global,
    level: &Level,
    bits: &BitBuf<N>,
    room: &'a mut [u8],
) -> Reading<'a>
    requires unambiguous { IsUnambiguous (item_lists level.now.options) }
    requires room { length room.old ≡ most_symbols }
    ensures { Reads (item_lists level.now.options) bits.now result }
{
    let count = unpack(bits, room);
    read_symbols(alloc, level, &room[..count])
}

/// Returns the values in texts of their own.
fn copied(alloc: Global, values: &[CowText<'_>]) -> Result<List<CowText<'static>>, Memory>
    ensures { IfOk result (λ copies. copies ≡ values.now) }
{
    let mut copies = Vec::with_capacity(alloc, values.len())?;
    for value in values {
        copies.push(CowText::from(Text::from_bytes(alloc, value.as_bytes())?))?;
    }
    Ok(List::from_vec(copies))
}

/// Returns the reading with its values in texts of their own, or `Memory`.
fn owned(alloc: Global, reading: Reading<'_>) -> Reading<'static>
    ensures { (level : List (List Item)) (w : List ℕ) → Reads level w reading.entry → Reads level w result }
{
    match reading {
        Reading::One { option, values } => match copied(alloc, values.items()) {
            Ok(values) => Reading::One { option, values },
            Err(_) => Reading::Memory,
        },
        Reading::Nothing => Reading::Nothing,
        Reading::Memory => Reading::Memory,
    }
}

/// Reads bits in a level of bits that is not ambiguous, as `read_text` reads a text. The values own their texts.
pub fn read_bits<const N: usize>(alloc: Global, level: &Level, bits: &BitBuf<N>) -> Reading<'static>
    requires { IsUnambiguous (item_lists level.now.options) }
    ensures { Reads (item_lists level.now.options) bits.now result }
{
    let mut room = [0; MOST_SYMBOLS];
    owned(alloc, read_bits_within(alloc, level, bits, &mut room))
}

/// The meaning of a list of symbols in a level that is not ambiguous.
#[derive(Drop)]
pub enum Reading<'a> {
    /// The list has a derivation, and no other: the number of its option, and the value of each of its items.
    One {
        option: usize,
        values: List<CowText<'a>>,
    },
    /// The list has no derivation.
    Nothing,
    /// Memory ran out.
    Memory,
}

/// Room that readings of options write to, one at a time.
#[derive(Drop)]
pub struct Scratch {
    trail: Vec<Entry>,
    cuts: Vec<usize>,
}

impl Scratch {
    /// Makes room for readings. Does not allocate.
    pub fn new(alloc: Global) -> Scratch {
        Scratch {
            trail: Vec::new(alloc),
            cuts: Vec::new(alloc),
        }
    }
}

/// Returns the values of a derivation of the symbols by the items, whose machine this is. Returns `None` if and only if there is
/// no derivation.
pub fn read_by_machine<'a>(
    alloc: Global,
    machine: &Auto,
    items: &[Item],
    symbols: &'a [u8],
    scratch: &mut Scratch,
) -> Result<Option<List<CowText<'a>>>, Memory>
    requires rules { IsMachine machine.now }
    requires reads { ReadsItems machine.now items.now }
    requires each { All IsItem items.now }
    ensures found { IfOk result (λ found. IfSome found (λ values. HasValues items.now symbols.now values)) }
    ensures none { IfOk result (λ found. IfNone found (IsDerived items.now symbols.now → ⊥)) }
{
    let Some(number) = follow(machine, symbols, &mut scratch.trail)? else {
        return Ok(None);
    };
    let trail = scratch.trail.as_slice();
    cut_back(machine, trail, number, symbols, &mut scratch.cuts)?;
    let values = values_of(alloc, items, symbols, scratch.cuts.as_slice())?;
    Ok(Some(values))
}

/// Returns the values of the words between the cuts.
pub fn values_of<'a>(
    alloc: Global,
    items: &[Item],
    symbols: &'a [u8],
    cuts: &[usize],
) -> Result<List<CowText<'a>>, Memory>
    requires items { All IsItem items.now }
    requires derived { HasCuts items.now symbols.now cuts.now }
    ensures { IfOk result (λ values. HasValues items.now symbols.now values) }
{
    let mut values = Vec::with_capacity(alloc, items.len())?;
    let mut left = items;
    let mut rest = symbols;
    let mut number = 0;
    let mut place = 0;
    // Its contract bounds the number of the cuts.
    let _count = cuts.len();
    while let Some((item, others)) = left.split_first() {
        number += 1;
        let next = cuts[number];
        let (word, behind) = rest.split_at(next - place);
        values.push(value_of(alloc, item, word)?)?;
        place = next;
        left = others;
        rest = behind;
    }
    Ok(List::from_vec(values))
}

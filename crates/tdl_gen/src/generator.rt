ghost use Rattle.std.specs.Prelude.{◌≡◌, ◌+◌, ◌<◌, ◌^◌, IfOk, string_bytes, [], ◌%◌, ◌*◌};
ghost use Rattle.tdl_gen.specs.Generator.{generated_line, sgtin_text};
ghost use Rattle.gs_tables.specs.Judgements.{IsLoaded};
ghost use Rattle.tdl_gen.specs.Counts.{Generated, IsLineAnswer, IsPlain, filter_one};
ghost use Rattle.tdl_gen.specs.Counters.{WritesGenerated};
ghost use Rattle.gs_translate.specs.Steps.{UnlessMemory};

use crate::counts::{count_lines, counts_text};
use gs_chars::{Memory, Text};
use gs_ident::CANONICAL_STEM;
use gs_port::Sink;
use gs_prefix::PrefixList;
use gs_tables::TableSet;
use gs_translate::{Form, Options, Reason, Target, translate};
use std::alloc::Global;
use std::marker::Model;
use tdl_lines::{Status, print_line};

/// The factor of a step.
const FACTOR: u64 = 6_364_136_223_846_793_005;

/// The number that each step adds.
const INCREMENT: u64 = 1_442_695_040_888_963_407;

/// The lines from the one of a number on. Contracts see the number.
#[derive(Drop)]
pub struct Generator {
    state: u64,
    next: u64,
}

impl Model for Generator {
    ghost use Rattle.std.specs.Prelude.{◌≡◌, ℕ};
    ghost use Rattle.tdl_gen.specs.Generator.{state_after};

    ghost Value = { ℕ };

    ghost view = { λ g. g.next };

    ghost invariant = { λ g. g.state ≡ state_after g.next };
}

impl Generator {
    /// Returns all lines.
    pub fn new() -> Generator
        ensures { result ≡ 0 }
    {
        Generator { state: 0, next: 0 }
    }

    /// Returns the next line. Its number is below 2^32.
    pub fn next_line(&mut self, alloc: Global) -> Result<String, Memory>
        requires { self.old < 2 ^ 32 }
        ensures line { IfOk result (λ line. string_bytes line ≡ generated_line self.old) }
        ensures further { self.new ≡ self.old + 1 }
    {
        let serial = self.next;
        self.state = next_state(self.state);
        self.next += 1;
        sgtin_text(alloc, self.state, serial)
    }
}

/// Returns the state after a state.
fn next_state(state: u64) -> u64
    ensures { result ≡ (state * 6364136223846793005 + 1442695040888963407) % 2 ^ 64 }
{
    state.wrapping_mul(FACTOR).wrapping_add(INCREMENT)
}

/// Returns the pure identity of an SGTIN whose serial is this number, by a state.
fn sgtin_text(alloc: Global, state: u64, serial: u64) -> Result<String, Memory>
    ensures { IfOk result (λ text. string_bytes text ≡ sgtin_text state serial) }
{
    let company = (state >> 40) % 10_000_000;
    let item = (state >> 20) % 1_000_000;
    Ok(format!(in alloc; "urn:epc:id:sgtin:{company:07}.{item:06}.{serial}")?)
}

/// Returns the line of the counts of the answers to that many lines of the generator.
fn counts_line(alloc: Global, set: &TableSet, lines: u32) -> Result<String, Memory>
    ensures { IfOk result (λ line. Generated set.now lines (string_bytes line)) }
{
    let prefixes = PrefixList::empty(alloc);
    let options = filter_one(alloc)?;
    let by = Answering {
        set,
        prefixes: &prefixes,
        options: &options,
    };
    let counts = count_lines(alloc, by, lines)?;
    counts_text(alloc, lines, counts)
}

/// Answers `lines` lines of the generator by the tables, and writes one line of counts. It counts the lines, the answers that
/// are texts, and the bytes of all answers' lines, with their line feeds. It does not write the answers.
///
/// Line k, from 0, is `urn:epc:id:sgtin:P.R.k`. The state x begins at 0. For each line it becomes x * 6364136223846793005 +
/// 1442695040888963407 modulo 2^64. P is x / 2^40 modulo 10^7 in seven digits, and R is x / 2^20 modulo 10^6 in six. The line
/// is translated to tag bits with filter value 1 and no company prefix lengths. Its answer is their canonical link, or the
/// first rejection.
///
/// `Done` is returned if the line was written whole, and `WriteFault` only if the output's count rose. After it and after
/// `Memory` a prefix of the line was written. No other status is returned. The tables are loaded, so that no text has two
/// readings.
pub fn generate<K: Sink>(alloc: Global, set: &TableSet, lines: u32, output: &mut K) -> Status
    requires loaded { IsLoaded set.now }
    ensures { WritesGenerated set.now lines result (K.state output.old) (K.state output.new) }
{
    match counts_line(alloc, set, lines) {
        Ok(line) => print_line(output, line.as_bytes(), Status::Done),
        Err(Memory) => Status::Memory,
    }
}

/// The data by which lines are answered.
#[derive(Clone, Copy)]
pub struct Answering<'a> {
    /// The tables.
    pub set: &'a TableSet,
    /// The company prefix lengths: none.
    pub prefixes: &'a PrefixList,
    /// The options of the lines: filter value 1.
    pub options: &'a Options,
}

/// Returns filter value 1, and otherwise the default options.
pub fn filter_one(alloc: Global) -> Result<Options, Memory>
    ensures { IfOk result (λ options. options ≡ filter_one) }
{
    Ok(Options {
        filter: Some(1),
        gcp: None,
        encoding: Text::from_bytes(alloc, b"")?,
        keys_only: false,
        stem: Text::from_bytes(alloc, CANONICAL_STEM.as_bytes())?,
    })
}

/// Returns the translation of a text, with only filter value 1 and no company prefix lengths.
fn translate_by(
    alloc: Global,
    by: Answering<'_>,
    from: Form,
    to: Target,
    text: &[u8],
) -> Result<Text, Reason>
    requires prefixes { by.prefixes.now ≡ [] }
    requires options { by.options.now ≡ filter_one }
    ensures { UnlessMemory result (IsPlain by.entry.set.now from to text.now result) }
{
    translate(alloc, by.set, by.prefixes, by.options, from, to, text)
}

/// Returns the answer to a line: the canonical link of its tag, or the first rejection. There is no list of prefix lengths, and
/// the filter value is 1.
pub fn answer_line(alloc: Global, by: Answering<'_>, line: &[u8]) -> Result<Text, Reason>
    requires prefixes { by.prefixes.now ≡ [] }
    requires options { by.options.now ≡ filter_one }
    ensures { UnlessMemory result (IsLineAnswer by.entry.set.now line.now result) }
{
    let hex = translate_by(alloc, by, Form::Pure, Target::Hex, line)?;
    translate_by(alloc, by, Form::Hex, Target::Canon, hex.as_bytes())
}

ghost use Rattle.std.specs.Prelude.{◌≡◌, IfOk, IfErr, OnOk, None};
ghost use Rattle.gs_translate.specs.Steps.{UnlessMemory};
ghost use Rattle.gs_translate.specs.Translations.{AreInOrder, IsTranslated};
ghost use Rattle.tdl_session.specs.Classes.{AreClassesRejected, TakesClasses};
ghost use Rattle.tdl_session.specs.LineAnswers.{IsClassCanonReply, IsClassUriReply, IsDumpReadReply, IsDumpWriteReply};
ghost use Rattle.tdl_session.specs.Lines.{IsLinesReply};
ghost use Rattle.tdl_session.specs.Openings.{IsNotChosen, IsRetargeted, session_of};
ghost use Rattle.tdl_session.specs.Rejections.{IsWhy};
ghost use Rattle.tdl_session.specs.Replies.{IsAnswered, IsReply, IsSaid};

use crate::buffer::put;
use crate::choice::{Choice, Chosen, choose};
use crate::classes::load_classes;
use crate::line_answer::put_answer_of;
use crate::line_status::put_lines;
use crate::opening::Unopened;
use crate::rejections::{tell_found, why_of};
use crate::status::{CLASSES, MEMORY, NO, OK, SMALL};
use crate::told::nothing;
use gs_chars::{Memory, Text};
use gs_class::ClassSet;
use gs_port::{MemSink, MemSource};
use gs_prefix::PrefixList;
use gs_tables::TableSet;
use gs_translate::{Form, Options, Reason, Target, Translator, reason_text};
use std::alloc::Global;
use std::marker::Model;
use std::sync::Arc;
use tdl_answers::{ClassCanonLines, ClassUriLines, DumpReadLines, DumpWriteLines, answer_lines};

/// The most bytes that are read or written at once.
const PIECE: usize = 65_536;

/// The most bytes of lines that are answered.
const MOST_BYTES: u64 = 4_294_967_296;

/// The tables and the company prefix lengths, which sessions share.
#[derive(Drop)]
pub(crate) struct Loads {
    set: TableSet,
    prefixes: PrefixList,
}

/// Tables, company prefix lengths, options and forms by which texts are translated, and the classes, if they are loaded.
pub struct Session {
    loads: Arc<Loads, Global>,
    classes: Arc<Option<ClassSet>, Global>,
    options: Options,
    from: Form,
    to: Target,
}

// by hand, so that a function that drops a session calls this one: a derived drop is written out at each of its exits
impl Drop for Session {
    fn drop(self) {
        let Session {
            loads: _,
            classes: _,
            options: _,
            from: _,
            to: _,
        } = self;
    }
}

impl Model for Session {
    ghost use Rattle.std.specs.Arc.{arc_value};
    ghost use Rattle.std.specs.Prelude.{IfSome};
    ghost use Rattle.gs_class.specs.Sets.{IsOfTable};
    ghost use Rattle.gs_translate.specs.Translations.{AreInOrder, translating_by};
    ghost use Rattle.tdl_session.specs.Sessions.{SessionData};

    ghost Value = { SessionData };

    ghost view = { λ s. record {
      translating = translating_by (arc_value s.loads).set (arc_value s.loads).prefixes s.options s.from s.to;
      classes = arc_value s.classes;
    } };

    ghost invariant = { λ s. AreInOrder s.options
        × IfSome (arc_value s.classes) (IsOfTable (arc_value s.loads).set.ais) };
}

impl Session {
    /// Returns the session of the tables, the prefixes, and the chosen forms and options, with no classes. Fails only with `Memory`.
    pub(crate) fn new(
        alloc: Global,
        set: TableSet,
        prefixes: PrefixList,
        chosen: Chosen,
    ) -> Result<Session, Memory>
        requires { AreInOrder chosen.options }
        ensures session { IfOk result (λ session. session.translating ≡ session_of set prefixes chosen) }
        ensures classes { IfOk result (λ session. session.classes ≡ None) }
    {
        let Chosen { from, to, options } = chosen;
        let loads = Arc::new(alloc, Loads { set, prefixes })?;
        Ok(Session {
            loads,
            classes: Arc::new(alloc, None)?,
            options,
            from,
            to,
        })
    }

    /// Returns a session of other forms and options, which shares the tables, the prefixes and the classes of this one. Returns
    /// `Argument` as `open` does, or `Memory`.
    pub fn retargeted(
        &self,
        alloc: Global,
        choice: &Choice,
        encoding: &[u8],
        stem: &[u8],
    ) -> Result<Session, Unopened>
        ensures ok { IfOk result (IsRetargeted self.now choice.now encoding.now stem.now) }
        ensures rejected { IfErr result (IsNotChosen choice.now encoding.now stem.now) }
    {
        let chosen = choose(alloc, choice, encoding, stem)?;
        let Ok(loads) = Arc::try_clone(&self.loads) else {
            return Err(Unopened::Memory);
        };
        let Ok(classes) = Arc::try_clone(&self.classes) else {
            return Err(Unopened::Memory);
        };
        let Chosen { from, to, options } = chosen;
        Ok(Session {
            loads,
            classes,
            options,
            from,
            to,
        })
    }

    /// Takes the classes of a document, or the built-in ones if it is empty, in the place of those that it has. Returns the first
    /// rejection, or `Memory`; the session is then as it was.
    pub fn take_classes(&mut self, alloc: Global, bytes: &[u8]) -> Result<(), Unopened>
        ensures ok { OnOk result (TakesClasses bytes.now self.old self.new) }
        ensures same { IfErr result (λ why. self.new ≡ self.old) }
        ensures rejected { IfErr result (AreClassesRejected self.old.translating.set.ais bytes.now) }
    {
        let loads: &Loads = &self.loads;
        let set = load_classes(alloc, loads.set.ais(), bytes)?;
        let Ok(classes) = Arc::new(alloc, Some(set)) else {
            return Err(Unopened::Memory);
        };
        self.classes = classes;
        Ok(())
    }

    /// Returns the translation of a text, or why it is rejected.
    fn answer(&self, alloc: Global, text: &[u8]) -> Result<Text, Reason>
        ensures { UnlessMemory result (IsTranslated self.now.translating text.now result) }
    {
        let loads: &Loads = &self.loads;
        let translator = Translator {
            set: &loads.set,
            prefixes: &loads.prefixes,
            options: &self.options,
            from: self.from,
            to: self.to,
        };
        translator.translate(alloc, text)
    }

    /// Puts the translation of a text into the buffer, or the printed reason why it is rejected, and the length of this answer into
    /// `len`. If there is no room for it, the buffer stays as it was. Returns one of `OK`, `NO`, `SMALL` and `MEMORY`.
    pub fn translate(&self, alloc: Global, text: &[u8], out: &mut [u8], len: &mut usize) -> u32
        ensures { IsReply self.now.translating text.now out.old out.new len.new result }
    {
        let answer = self.answer(alloc, text);
        put_answer(alloc, answer, out, len)
    }

    /// Tells why a text has no translation: the number of the kind, the byte of the text and the character of the value. Returns `OK`
    /// with the kind 0 if it has one, otherwise `NO` or `MEMORY`.
    pub fn why(
        &self,
        alloc: Global,
        text: &[u8],
        kind: &mut u32,
        at: &mut usize,
        character: &mut usize,
    ) -> u32
        ensures { IsWhy self.now.translating text.now kind.new at.new character.new result }
    {
        let answer = self.answer(alloc, text);
        let (status, found) = why_of(&answer);
        tell_found(status, found, kind, at, character)
    }

    /// Puts the answer to each line into the buffer, `ok TEXT` or `no REASON` and a line feed, and the length of all into `len`. If
    /// there is no room, the buffer stays as it was. Returns `OK` if each text is translated, `NO` if one is rejected, `SMALL`, or
    /// `MEMORY`, also if the lines have more than 4,294,967,296 bytes.
    pub fn translate_lines(
        &self,
        alloc: Global,
        lines: &[u8],
        out: &mut [u8],
        len: &mut usize,
    ) -> u32
        ensures { IsLinesReply self.now.translating lines.now out.old out.new len.new result }
    {
        let Ok(bytes) = Vec::from_slice(alloc, lines) else {
            return nothing(MEMORY, len);
        };
        let loads: &Loads = &self.loads;
        let mut source = MemSource::new(alloc, bytes, PIECE, Vec::new(alloc));
        let mut sink = MemSink::new(alloc, PIECE, Vec::new(alloc));
        let status = answer_lines(
            alloc,
            &loads.set,
            &loads.prefixes,
            &self.options,
            self.from,
            self.to,
            &mut source,
            &mut sink,
            MOST_BYTES,
        );
        put_lines(status, sink.bytes(), out, len)
    }

    /// Puts the canonical link of a text, a class URI, into the buffer, or the printed reason why it is rejected, and the length of
    /// this answer into `len`. If there is no room for it, the buffer stays as it was. Returns one of `OK`, `NO`, `SMALL` and
    /// `MEMORY`, and `CLASSES` if the session has no classes.
    pub fn class_canon(&self, alloc: Global, text: &[u8], out: &mut [u8], len: &mut usize) -> u32
        ensures { IsClassCanonReply self.now text.now out.old out.new len.new result }
    {
        let loads: &Loads = &self.loads;
        let classes: &Option<ClassSet> = &self.classes;
        match classes {
            Some(set) => {
                let answerer = ClassCanonLines::new(loads.set.ais(), set);
                put_answer_of(alloc, &answerer, text, out, len)
            }
            None => nothing(CLASSES, len),
        }
    }

    /// Puts the class URI of a text, a link, into the buffer, or the printed reason why it is rejected, as `class_canon` does.
    pub fn class_uri(&self, alloc: Global, text: &[u8], out: &mut [u8], len: &mut usize) -> u32
        ensures { IsClassUriReply self.now text.now out.old out.new len.new result }
    {
        let loads: &Loads = &self.loads;
        let classes: &Option<ClassSet> = &self.classes;
        match classes {
            Some(set) => {
                let answerer = ClassUriLines::new(
                    &loads.set,
                    &loads.prefixes,
                    set,
                    self.options.gcp,
                );
                put_answer_of(alloc, &answerer, text, out, len)
            }
            None => nothing(CLASSES, len),
        }
    }

    /// Puts the line that shows a text, a dump, into the buffer, or the printed reason why it is rejected, and the length of this
    /// answer into `len`. If there is no room for it, the buffer stays as it was. Returns one of `OK`, `NO`, `SMALL` and `MEMORY`.
    pub fn dump_read(&self, alloc: Global, text: &[u8], out: &mut [u8], len: &mut usize) -> u32
        ensures { IsDumpReadReply self.now text.now out.old out.new len.new result }
    {
        let loads: &Loads = &self.loads;
        put_answer_of(alloc, &DumpReadLines { set: &loads.set }, text, out, len)
    }

    /// Puts the dump that a text shows into the buffer, or the printed reason why it is rejected, as `dump_read` does.
    pub fn dump_write(&self, alloc: Global, text: &[u8], out: &mut [u8], len: &mut usize) -> u32
        ensures { IsDumpWriteReply self.now text.now out.old out.new len.new result }
    {
        let loads: &Loads = &self.loads;
        put_answer_of(alloc, &DumpWriteLines { set: &loads.set }, text, out, len)
    }
}

/// Puts an answer into the buffer.
fn put_answer(alloc: Global, answer: Result<Text, Reason>, out: &mut [u8], len: &mut usize) -> u32
    ensures { IsSaid answer out.old out.new len.new result }
{
    match answer {
        Ok(text) => put_bytes(OK, text.as_bytes(), out, len),
        Err(reason) => match reason_text(alloc, &reason) {
            Ok(text) => put_bytes(NO, text.as_bytes(), out, len),
            Err(_) => nothing(MEMORY, len),
        },
    }
}

/// Puts the bytes of an answer of this status into the buffer.
pub(crate) fn put_bytes(status: u32, answer: &[u8], out: &mut [u8], len: &mut usize) -> u32
    ensures { IsAnswered status answer.now out.old out.new len.new result }
{
    if put(answer, out, len) { status } else { SMALL }
}

use crate::case::{Answer, Rejection};
use crate::words::{debug_word, push_shown};
use gs_chars::{Memory, Text};
use gs_json::JsonFault;
use std::alloc::Global;
use std::fmt::Debug;

/// The outcome of a call: its answer is written, or there is none.
pub type Done = Result<(), Rejection>;

/// The answer to a case, written word by word with one space between. A rejection is noted here, so that a function that writes
/// has no exit for it: each exit of a function is a part of its proof.
#[derive(Drop)]
pub struct Line {
    alloc: Global,
    text: String,
    done: Done,
}

impl Line {
    /// Returns the line without a word.
    pub fn new(alloc: Global) -> Line {
        Line {
            alloc,
            text: String::new(alloc),
            done: Ok(()),
        }
    }

    /// Notes the outcome of a step. The first rejection stays.
    pub fn note(&mut self, done: Done) {
        self.done = self.done.and(done);
    }

    /// Notes that memory ran out.
    pub fn want_memory(&mut self) {
        self.note(Err(Rejection::Memory));
    }

    /// Writes more of the last word.
    pub fn more(&mut self, part: &str) {
        if self.text.push_str(part).is_err() {
            self.want_memory();
        }
    }

    /// Writes a byte, escaped if needed, as more of the last word.
    fn more_byte(&mut self, c: u8) {
        if push_shown(&mut self.text, c).is_err() {
            self.want_memory();
        }
    }

    /// Writes bytes, escaped if needed, as more of the last word.
    pub fn more_bytes(&mut self, bytes: &[u8]) {
        if bytes.is_empty() {
            self.more("\\e");
        }
        for c in bytes {
            self.more_byte(*c);
        }
    }

    /// Writes a value in Rust's words as more of the last word.
    pub fn more_debug<T: Debug + Drop>(&mut self, value: T) {
        match debug_word(self.alloc, &value) {
            Ok(word) => self.more(word.as_str()),
            Err(rejection) => self.note(Err(rejection)),
        }
    }

    /// Writes the space between two words.
    fn space(&mut self) {
        if !self.text.is_empty() {
            self.more(" ");
        }
    }

    /// Writes a word unchanged.
    pub fn plain(&mut self, word: &str) {
        self.space();
        self.more(word);
    }

    /// Writes the word that stands for some bytes.
    pub fn bytes(&mut self, bytes: &[u8]) {
        self.space();
        self.more_bytes(bytes);
    }

    /// Writes a value in Rust's words.
    pub fn debug<T: Debug + Drop>(&mut self, value: T) {
        self.space();
        self.more_debug(value);
    }

    /// Writes the word that stands for a text.
    pub fn text(&mut self, text: Text) {
        self.bytes(text.as_bytes());
    }

    /// Writes the word of a text, if there was memory for it.
    pub fn text_made(&mut self, made: Result<Text, Memory>) {
        match made {
            Ok(text) => self.text(text),
            Err(Memory) => self.want_memory(),
        }
    }

    /// Writes the words that stand for some texts.
    pub fn texts(&mut self, texts: &[Text]) {
        for text in texts {
            self.bytes(text.as_bytes());
        }
    }

    /// Writes the words that stand for some texts, in brackets.
    pub fn bracketed(&mut self, texts: &[Text]) {
        self.plain("[");
        for (i, text) in texts.iter().enumerate() {
            self.more(if i == 0 { "" } else { " " });
            self.more_bytes(text.as_bytes());
        }
        self.more("]");
    }

    /// Writes a name and a place.
    fn placed(&mut self, name: &str, place: Text) {
        self.plain(name);
        self.text(place);
    }

    /// Writes the words of an error of a document.
    pub fn error(&mut self, error: JsonFault) {
        match error {
            JsonFault::Syntax => self.plain("Syntax"),
            JsonFault::Lacks(place) => self.placed("Lacks", place),
            JsonFault::Kind(place) => self.placed("Kind", place),
            JsonFault::Unknown(place) => self.placed("Unknown", place),
            JsonFault::Memory => self.want_memory(),
        }
    }

    /// Returns the answer that was written, if the call was completed.
    pub fn finish(self, done: Done) -> Answer {
        match self.done.and(done) {
            Ok(()) => Ok(self.text),
            Err(rejection) => Err(rejection),
        }
    }
}

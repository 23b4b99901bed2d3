ghost use Rattle.std.specs.Prelude.{◌≡◌};
ghost use Rattle.gs_class.specs.Sets.{IsOfTable};
ghost use Rattle.gs_translate.specs.Steps.{UnlessMemory};
ghost use Rattle.tdl_answers.specs.ClassAnswers.{IsClassLink, IsClassText, reading_by, writing_by};

use crate::reasons::{class_reason, class_write_reason};
use gs_ai::AiTable;
use gs_chars::{LONGEST_TEXT, Memory, Text};
use gs_class::{ClassSet, read_class, write_class};
use gs_ident::canonical;
use gs_prefix::PrefixList;
use gs_tables::TableSet;
use gs_translate::{Form, Reason, read};
use std::alloc::Global;
use std::marker::Model;
use tdl_lines::Answerer;
use tdl_messages::append_line;

/// Returns the canonical link of the identity that a text is a class URI of.
fn link_text(
    alloc: Global,
    table: &AiTable,
    classes: &ClassSet,
    text: &[u8],
) -> Result<Text, Reason>
    requires { IsOfTable table.now classes.now }
    ensures { UnlessMemory result (IsClassLink (reading_by table.now classes.now) text.now result) }
{
    if text.len() > LONGEST_TEXT {
        return Err(Reason::Long);
    }
    let identity = read_class(alloc, classes, table, text).map_err(class_reason)?;
    Ok(canonical(alloc, &identity)?)
}

/// An answerer of class URIs by the canonical links of the things that they name. The classes are of the table.
#[derive(Drop)]
pub struct ClassCanonLines<'a> {
    /// The application identifiers.
    table: &'a AiTable,
    /// The classes.
    classes: &'a ClassSet,
}

impl<'a> Model for ClassCanonLines<'a> {
    ghost use Rattle.gs_class.specs.Sets.{IsOfTable};
    ghost use Rattle.tdl_answers.specs.ClassAnswers.{ClassReading};

    ghost Value = { ClassReading };

    ghost view = { λ a. record { ais = a.table.now; classes = a.classes.now } };

    ghost invariant = { λ a. IsOfTable a.table.now a.classes.now };
}

impl<'a> ClassCanonLines<'a> {
    /// Returns the answerer by these application identifiers and classes.
    pub fn new(table: &'a AiTable, classes: &'a ClassSet) -> Self
        requires { IsOfTable table.now classes.now }
        ensures { result ≡ reading_by table.now classes.now }
    {
        ClassCanonLines { table, classes }
    }
}

impl Answerer for ClassCanonLines<'_> {
    ghost use Rattle.tdl_answers.specs.ClassAnswers.{IsClassCanonLine};
    ghost use Rattle.tdl_answers.specs.LongClasses.{long_classes_read};

    ghost is_answer = { λ s. IsClassCanonLine s };

    fn append_answer(&self, alloc: Global, text: &[u8], out: &mut Vec<u8>) -> Result<bool, Memory> {
        append_line(alloc, out, link_text(alloc, self.table, self.classes, text))
    }

    ghost long_alike = { λ s. long_classes_read s };
}

/// An answerer of links by the class URIs of the things that they name. The classes are of the table of the tables.
#[derive(Drop)]
pub struct ClassUriLines<'a> {
    /// The tables that links are read by.
    tables: &'a TableSet,
    /// The company prefix lengths.
    prefixes: &'a PrefixList,
    /// The classes.
    classes: &'a ClassSet,
    /// The number of digits of the company prefix, if it is given.
    gcp: Option<u8>,
}

impl<'a> Model for ClassUriLines<'a> {
    ghost use Rattle.gs_class.specs.Sets.{IsOfTable};
    ghost use Rattle.tdl_answers.specs.ClassAnswers.{ClassWriting};

    ghost Value = { ClassWriting };

    ghost view = { λ a. record {
      tables = a.tables.now;
      prefixes = a.prefixes.now;
      classes = a.classes.now;
      gcp = a.gcp;
    } };

    ghost invariant = { λ a. IsOfTable a.tables.now.ais a.classes.now };
}

impl<'a> ClassUriLines<'a> {
    /// Returns the answerer by these tables, prefixes and classes, and by this company prefix length if it is given.
    pub fn new(
        tables: &'a TableSet,
        prefixes: &'a PrefixList,
        classes: &'a ClassSet,
        gcp: Option<u8>,
    ) -> Self
        requires { IsOfTable tables.now.ais classes.now }
        ensures { result ≡ writing_by tables.now prefixes.now classes.now gcp }
    {
        ClassUriLines {
            tables,
            prefixes,
            classes,
            gcp,
        }
    }

    /// Returns the class URI of the meaning of a text as a link.
    fn class_text(&self, alloc: Global, text: &[u8]) -> Result<Text, Reason>
        ensures { UnlessMemory result (IsClassText self.now text.now result) }
    {
        let meaning = read(alloc, self.tables, Form::Link, text)?;
        let table = self.tables.ais();
        write_class(
            alloc,
            self.classes,
            table,
            self.prefixes,
            self.gcp,
            &meaning.identity,
        )
        .map_err(class_write_reason)
    }
}

impl Answerer for ClassUriLines<'_> {
    ghost use Rattle.tdl_answers.specs.ClassAnswers.{IsClassUriLine};
    ghost use Rattle.tdl_answers.specs.LongClasses.{long_classes_written};

    ghost is_answer = { λ s. IsClassUriLine s };

    fn append_answer(&self, alloc: Global, text: &[u8], out: &mut Vec<u8>) -> Result<bool, Memory> {
        append_line(alloc, out, self.class_text(alloc, text))
    }

    ghost long_alike = { λ s. long_classes_written s };
}

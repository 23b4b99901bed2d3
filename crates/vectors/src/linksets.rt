//! Calls of gs_linkset. The answer for a linkset has `Context ANCHOR` for each context, after it `Relation NAME` for each of
//! its relations. `Target HREF` follows for each target, and after that the attributes: `One NAME TEXT`, `Many NAME` and the
//! texts, or `Tagged NAME` and each text with its language.
//!
//! - `read DOC`: the linkset, or the error.
//! - `write DOC`: the text of the linkset that DOC is, or the error.
//! - `new ANCHOR NAME HREF.. / NAME HREF..`: the text of the linkset of one context with these relations, or the rejection.
//! - `copy DOC`: a copy of the first target, `None` if there is none, or the error.

use crate::case::{Rejection, behind, bytes_at, named, push};
use crate::line::{Done, Line};
use gs_chars::{List, Text};
use gs_linkset::{Attr, AttrValue, Context, LinkDoc, Relation, Target};
use std::alloc::Global;

#[derive(Clone, Copy)]
enum Call {
    New,
    Over(Asked),
}

/// The question about a linkset.
#[derive(Clone, Copy)]
enum Asked {
    Copy,
    Read,
    Write,
}

const CALLS: [(&str, Call); 4] = [
    ("copy", Call::Over(Asked::Copy)),
    ("new", Call::New),
    ("read", Call::Over(Asked::Read)),
    ("write", Call::Over(Asked::Write)),
];

/// Makes a call of gs_linkset.
pub fn answer(alloc: Global, line: &mut Line, call: &[u8], args: &[Text]) -> Done {
    let first = bytes_at(args, 0);
    match named(&CALLS, call) {
        Some(Call::New) => made(alloc, line, first, behind(args, 1)),
        Some(Call::Over(asked)) => answer_over(alloc, line, asked, first),
        None => Err(Rejection::NoCase),
    }
}

/// Makes a call over a document.
fn answer_over(alloc: Global, line: &mut Line, asked: Asked, document: &[u8]) -> Done {
    match gs_linkset::read(alloc, document) {
        Ok(doc) => known(alloc, line, asked, &doc),
        Err(error) => {
            line.error(error);
            Ok(())
        }
    }
}

fn add_attr(line: &mut Line, attr: &Attr) {
    line.plain(match &attr.value {
        AttrValue::One(_) => "One",
        AttrValue::Many(_) => "Many",
        AttrValue::Tagged(_) => "Tagged",
    });
    line.bytes(attr.name.as_bytes());
    match &attr.value {
        AttrValue::One(text) => line.bytes(text.as_bytes()),
        AttrValue::Many(texts) => line.texts(texts.items()),
        AttrValue::Tagged(pairs) => add_pairs(line, pairs.items()),
    }
}

fn add_pairs(line: &mut Line, pairs: &[(Text, Text)]) {
    for (text, language) in pairs {
        line.bytes(text.as_bytes());
        line.bytes(language.as_bytes());
    }
}

fn add_target(line: &mut Line, target: &Target) {
    line.plain("Target");
    line.bytes(target.href.as_bytes());
    for attr in target.attrs.items() {
        add_attr(line, attr);
    }
}

fn add_relation(line: &mut Line, relation: &Relation) {
    line.plain("Relation");
    line.bytes(relation.name.as_bytes());
    for target in relation.targets.items() {
        add_target(line, target);
    }
}

fn add_context(line: &mut Line, context: &Context) {
    line.plain("Context");
    line.bytes(context.anchor.as_bytes());
    for relation in context.relations.items() {
        add_relation(line, relation);
    }
}

fn add_contexts(line: &mut Line, contexts: &[Context]) {
    line.plain("Linkset");
    for context in contexts {
        add_context(line, context);
    }
}

/// Returns a target without attributes.
fn target_of(alloc: Global, reference: &Text) -> Result<Target, Rejection> {
    Ok(Target {
        href: reference.copy(alloc)?,
        attrs: List::from_vec(Vec::new(alloc)),
    })
}

/// Makes targets without attributes.
fn targets_of(alloc: Global, references: &[Text]) -> Result<List<Target>, Rejection> {
    let mut targets = Vec::new(alloc);
    for reference in references {
        push(&mut targets, target_of(alloc, reference))?;
    }
    Ok(List::from_vec(targets))
}

/// Returns the relation of a name and its references.
fn relation_of(alloc: Global, words: &[Text]) -> Result<Relation, Rejection> {
    let [name, references @ ..] = words else {
        return Err(Rejection::NoCase);
    };
    let name = name.copy(alloc)?;
    Ok(Relation {
        name,
        targets: targets_of(alloc, references)?,
    })
}

/// Makes relations, each of a name and its references, with `/` between them.
fn relations_of(alloc: Global, words: &[Text]) -> Result<List<Relation>, Rejection> {
    let mut relations = Vec::new(alloc);
    for part in words.split(|word| word.as_bytes() == b"/".as_slice()) {
        push(&mut relations, relation_of(alloc, part))?;
    }
    Ok(List::from_vec(relations))
}

/// Returns the context of an anchor and of relations.
fn context_of(alloc: Global, anchor: &[u8], words: &[Text]) -> Result<Context, Rejection> {
    let relations = relations_of(alloc, words)?;
    Ok(Context {
        anchor: Text::from_bytes(alloc, anchor)?,
        relations,
    })
}

/// Returns the list of one context.
fn contexts_of(alloc: Global, anchor: &[u8], words: &[Text]) -> Result<List<Context>, Rejection> {
    let mut contexts = Vec::new(alloc);
    push(&mut contexts, context_of(alloc, anchor, words))?;
    Ok(List::from_vec(contexts))
}

/// Writes the text of the linkset of one context with these relations, or the rejection.
fn made(alloc: Global, line: &mut Line, anchor: &[u8], words: &[Text]) -> Done {
    match LinkDoc::new(contexts_of(alloc, anchor, words)?) {
        Ok(doc) => line.text_made(gs_linkset::write(alloc, &doc)),
        Err(error) => line.debug(error),
    }
    Ok(())
}

/// Returns the first target of the first relation of the first context.
fn first_target(doc: &LinkDoc) -> Option<&Target> {
    let context = doc.contexts().first()?;
    let relation = context.relations.items().first()?;
    relation.targets.items().first()
}

/// Writes a copy of a target, or `None`.
fn add_copy(alloc: Global, line: &mut Line, target: Option<&Target>) -> Done {
    match target {
        Some(target) => add_target(line, &target.copy(alloc)?),
        None => line.plain("None"),
    }
    Ok(())
}

/// Writes the answer about a linkset.
fn known(alloc: Global, line: &mut Line, asked: Asked, doc: &LinkDoc) -> Done {
    match asked {
        Asked::Copy => return add_copy(alloc, line, first_target(doc)),
        Asked::Read => add_contexts(line, doc.contexts()),
        Asked::Write => line.text_made(gs_linkset::write(alloc, doc)),
    }
    Ok(())
}

ghost use Rattle.std.specs.Prelude.{◌≡◌, IfOk, IfErr, None, Some, map};
ghost use Rattle.std.specs.List.{slice_split};
ghost use Rattle.gs_linktext_grammar.specs.Answers.{IsSyntax};
ghost use Rattle.gs_linktext_grammar.specs.Grammar.{href_in, href_of, is_semicolon, link_of, written_link, IsDocument, IsNoDocument};
ghost use Rattle.gs_linktext_grammar.specs.Pieces.{with_part, AddsLink};

use crate::checked_text::CheckedText;
use crate::error::LinkTextFault;
use crate::lexeme::Lexeme;
use crate::params::{Piece, cut_piece, params_of};
use crate::written_link::WrittenLink;
use gs_chars::{List, Memory};
use std::alloc::{AllocError, Global};

/// Returns the parts of the lexemes between the semicolons.
fn parts_of(alloc: Global, piece: &[Lexeme]) -> Result<Vec<&[Lexeme]>, AllocError>
    ensures { IfOk result (λ parts. map (λ part. part.now) parts.items ≡ slice_split is_semicolon piece.now) }
{
    piece.split(|lexeme| lexeme.is_semicolon()).collect(alloc)
}

/// Returns the reference of a lexeme.
fn href_in(alloc: Global, lexeme: &Lexeme) -> Result<Option<CheckedText>, Memory>
    ensures { IfOk result (λ href. href ≡ href_in lexeme.now) }
{
    match lexeme {
        Lexeme::Target(href) => Ok(CheckedText::new(href.copy(alloc)?)),
        _ => Ok(None),
    }
}

/// Returns the target URI of a part that is nothing else.
fn href_of(alloc: Global, part: &[Lexeme]) -> Result<Option<CheckedText>, Memory>
    ensures { IfOk result (λ href. href ≡ href_of part.now) }
{
    match part {
        [lexeme] => href_in(alloc, lexeme),
        _ => Ok(None),
    }
}

/// Returns the link of the parts between semicolons. Returns `Syntax` if they are not a link.
fn link_of(alloc: Global, parts: &[&[Lexeme]]) -> Result<WrittenLink, LinkTextFault>
    ensures ok { IfOk result (λ link. link_of (map (λ part. part.now) parts.now) ≡ Some link) }
    ensures err { IfErr result (IsSyntax (link_of (map (λ part. part.now) parts.now) ≡ None)) }
{
    let Some((head, behind)) = parts.split_first() else {
        return Err(LinkTextFault::Syntax);
    };
    let Some(href) = href_of(alloc, head)? else {
        return Err(LinkTextFault::Syntax);
    };
    let params = List::from_vec(params_of(alloc, behind)?);
    Ok(WrittenLink { href, params })
}

/// Returns the link of the lexemes between two commas. Returns `Syntax` if they are not a link.
fn written_link(alloc: Global, piece: &[Lexeme]) -> Result<WrittenLink, LinkTextFault>
    ensures ok { IfOk result (λ link. written_link piece.now ≡ Some link) }
    ensures err { IfErr result (IsSyntax (written_link piece.now ≡ None)) }
{
    let parts = parts_of(alloc, piece)?;
    link_of(alloc, parts.as_slice())
}

/// Appends the link of the lexemes between two commas, if there are any. Returns `Syntax` if they are not a link.
fn push_link(
    alloc: Global,
    links: &mut Vec<WrittenLink>,
    piece: &[Lexeme],
) -> Result<(), LinkTextFault>
    ensures ok { IfOk result (λ _. AddsLink piece.now links.old.items links.new.items) }
    ensures err { IfErr result (IsSyntax (with_part written_link piece.now links.old.items ≡ None)) }
{
    if piece.is_empty() {
        return Ok(());
    }
    links.push(written_link(alloc, piece)?)?;
    Ok(())
}

/// Returns the links of a document, link by link. Returns `Syntax` if and only if the bytes are not a document.
pub fn read_links(alloc: Global, text: &[u8]) -> Result<Vec<WrittenLink>, LinkTextFault>
    ensures ok { IfOk result (λ links. IsDocument text.now links.items) }
    ensures err { IfErr result (IsSyntax (IsNoDocument text.now)) }
{
    let mut links = Vec::new(alloc);
    let mut rest = text;
    loop {
        let Piece {
            lexemes,
            rest: behind,
        } = cut_piece(alloc, rest)?;
        push_link(alloc, &mut links, lexemes.as_slice())?;
        let Some(behind) = behind else {
            return Ok(links);
        };
        rest = behind;
    }
}

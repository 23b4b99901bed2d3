//! Callers of the libraries, like those in a user's program: a tag is read, a label gets its link, a user's tables are loaded,
//! and a request is replied to. It prints the result of each.
#![tactic(auto)]

mod labels;
mod pages;
mod tags;

use crate::labels::link_of_label;
use crate::pages::page_for;
use crate::tags::company_prefix;
use gs_chars::Text;
use gs_tables::{TableSet, builtin};
use std::alloc::{AllocError, Global};
use std::io;

/// The bits of a tag.
const BITS: &[u8] = b"3074257BF7194E4000001A85";

/// A label.
const LABEL: &[u8] = b"(00)106141412345678908(37)24";

/// A user's tables: a key with a check digit, and its one qualifier.
const TABLES: &[u8] =
    b"{\"version\":1,\"ais\":[{\"code\":\"92\",\"parts\":[\"n8c\"],\"role\":\"key\",\"qualifiers\":[\"93\"]},{\"code\":\"93\",\"parts\":[\"x..4\"],\"role\":\"qualifier\"}],\"kinds\":[],\"binary\":[],\"tag\":[],\"pure\":[]}";

/// A label by these tables.
const OWN_LABEL: &[u8] = b"(92)12345670(93)A7";

/// A linkset.
const LINKS: &[u8] =
    b"{\"linkset\":[{\"anchor\":\"/01/09506000134352\",\"gs1:defaultLink\":[{\"href\":\"https://shop.example/p\"}]}]}";

/// The head of a request.
const HEAD: &[u8] = b"GET /01/09506000134352/10/ABC HTTP/1.1\r\nHost: r.example\r\n\r\n";

/// Returns the link of a label by tables of one's own.
fn own_link(alloc: Global) -> Option<Text> {
    let tables = TableSet::load(alloc, TABLES).ok()?;
    link_of_label(alloc, tables.ais(), OWN_LABEL).ok()
}

/// Returns a text as characters, if there is one.
fn shown(text: &Option<Text>) -> &str {
    match text {
        Some(text) => str::from_utf8(text.as_bytes()).unwrap_or("no text"),
        None => "none",
    }
}

fn main(rt: HostRuntime) -> io::Result<()> {
    let alloc = rt.alloc();
    let Ok(tables) = builtin(alloc) else {
        return Err(io::Error::from(AllocError));
    };
    let prefix = company_prefix(alloc, &tables, BITS).ok();
    println!(rt; "{}", shown(&prefix))?;
    let link = link_of_label(alloc, tables.ais(), LABEL).ok();
    println!(rt; "{}", shown(&link))?;
    println!(rt; "{}", shown(&own_link(alloc)))?;
    let reply = page_for(alloc, tables.ais(), LINKS, HEAD)
        .ok()
        .map(|reply| reply.bytes);
    println!(rt; "{}", shown(&reply))
}

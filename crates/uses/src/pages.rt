ghost use Rattle.std.specs.Prelude.{IfOk, List, false};
ghost use Rattle.gs_links.specs.declared.link.Link.{Link};
ghost use Rattle.gs_http.specs.declared.resolver.Settings.{Settings as How};
ghost use Rattle.gs_http.specs.Replies.{IsReply};

use gs_ai::AiTable;
use gs_chars::{Memory, Text};
use gs_http::{Reply, Settings, reply};
use gs_json::JsonFault;
use gs_links::{Store, StoreFault};
use std::alloc::Global;

/// Why a linkset answers no request.
#[derive(Drop)]
pub enum PageError {
    /// It is not a linkset: where, and why.
    Document(JsonFault),
    /// Its links are rejected.
    Links(StoreFault),
    /// Out of memory.
    Memory,
}

impl From<JsonFault> for PageError {
    fn from(error: JsonFault) -> PageError {
        PageError::Document(error)
    }
}

impl From<StoreFault> for PageError {
    fn from(error: StoreFault) -> PageError {
        PageError::Links(error)
    }
}

impl From<Memory> for PageError {
    fn from(_rejected: Memory) -> PageError {
        PageError::Memory
    }
}

/// The vocabulary that `gs1:` stands for in the relations of a linkset: GS1's web vocabulary.
const VOCABULARY: &str = "https://ref.gs1.org/voc/";

/// Returns the reply of a resolver that has these links, and no description, to the head of a request.
pub fn page_for(
    alloc: Global,
    ais: &AiTable,
    linkset: &[u8],
    head: &[u8],
) -> Result<Reply, PageError>
    ensures { IfOk result (λ answer. (links : List Link) × (how : How)
        × IsReply ais.now links how head.now false answer) }
{
    let document = gs_linkset::read(alloc, linkset)?;
    let store = Store::load(alloc, ais, VOCABULARY.as_bytes(), document)?;
    let settings = Settings {
        voc: Text::from_bytes(alloc, VOCABULARY.as_bytes())?,
        describe: None,
        templates: false,
    };
    Ok(reply(alloc, ais, &store, &settings, head, false)?)
}

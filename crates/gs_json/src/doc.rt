ghost use Rattle.std.specs.Prelude.{◌≡◌, ◌⊎◌, Some, None, Err, IfOk, IfErr, IsUtf8, []};
ghost use Rattle.serde_json.specs.Read.{read as read_text};
ghost use Rattle.serde_json.specs.View.{view};

use crate::error::JsonFault;
use crate::node::Node;
use serde_json::Value;
use std::alloc::Global;
use std::marker::Model;

/// A JSON document. Contracts see its tree, which is that of the crate `serde_json`.
#[derive(Drop)]
pub struct Doc {
    tree: Value,
}

impl Model for Doc {
    ghost use Rattle.serde_json.specs.declared.value.Value.{Value as Tree};
    ghost use Rattle.serde_json.specs.contracts.value.Value as e;
    ghost use Rattle.std.specs.Coded.{codes};

    ghost Value = { Tree };

    ghost coded = { Prim.hlevel (codes, e.the_row.coded) };

    ghost view = { λ d. d.tree };
}

impl Doc {
    /// Reads a document (RFC 8259). Returns `Syntax` only if the bytes are not JSON that `serde_json` reads. This includes
    /// bytes that are not valid UTF-8, a number beyond a double, and arrays and objects nested more than 127 deep. The last
    /// of the members with one name counts.
    pub fn parse(alloc: Global, bytes: &[u8]) -> Result<Doc, JsonFault>
        ensures read { IfOk result (λ doc. IsUtf8 bytes.now × (read_text bytes.now ≡ Some (view doc))) }
        ensures syntax { result ≡ Err (JsonFault.Syntax) → IsUtf8 bytes.now → read_text bytes.now ≡ None }
        ensures only { IfErr result (λ e. (e ≡ JsonFault.Syntax) ⊎ (e ≡ JsonFault.Memory)) }
    {
        match Value::from_slice(alloc, bytes) {
            Ok(tree) => Ok(Doc { tree }),
            Err(error) if error.is_memory() => Err(JsonFault::Memory),
            Err(_) => Err(JsonFault::Syntax),
        }
    }

    /// Returns the whole document, whose place is the empty JSON Pointer.
    pub fn root(&self, alloc: Global) -> Node<'_>
        ensures tree { result.tree ≡ self.now }
        ensures place { result.place ≡ [] }
    {
        Node::of_root(alloc, &self.tree)
    }
}

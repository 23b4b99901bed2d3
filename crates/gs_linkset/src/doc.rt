ghost use Rattle.std.specs.Prelude.{◌≡◌, true};
ghost use Rattle.std.specs.List.{list_all};
ghost use Rattle.gs_linkset.specs.LinkShapes.{is_context, new_answer};

use crate::link_shapes::first_broken;
use crate::link_types::Context;
use gs_chars::List;
use std::marker::Model;
use thiserror::Error;

/// Why contexts are not a linkset. Contexts are counted from 0.
#[derive(Debug, PartialEq, Drop, Error)]
pub enum DocFault {
    /// The context at this index breaks a rule of shape: a text is not valid UTF-8, or names of relations or attributes do not
    /// ascend strictly. Or it has a relation `anchor`, an attribute `href`, or a value that is not of the kind of its
    /// attribute's name.
    #[error("context {0} breaks a rule of shape")]
    Shape(usize),
}

/// A linkset (RFC 9264). Contracts see its contexts in their order. In each context all texts are UTF-8, the names of relations
/// and of attributes ascend strictly, and no relation is `anchor`. No attribute is `href`, and each attribute's value is of the
/// kind of its name.
#[derive(Drop)]
pub struct LinkDoc {
    contexts: List<Context>,
}

impl Model for LinkDoc {
    ghost use Rattle.std.specs.Prelude.{◌≡◌, List, true};
    ghost use Rattle.std.specs.List.{list_all};
    ghost use Rattle.gs_linkset.specs.LinkShapes.{is_context};
    ghost use Rattle.gs_linkset.specs.declared.link_types.Context.{Context};

    ghost Value = { List Context };

    ghost view = { λ a. a.contexts };

    ghost invariant = { λ a. list_all is_context a.contexts ≡ true };
}

impl LinkDoc {
    /// Makes a linkset of contexts. Returns `Shape` with the index of the first context that breaks the shape of a linkset.
    /// Does not allocate.
    #[tactic(auto, unfolding(crate::specs::LinkShapes::new_answer))]
    pub fn new(contexts: List<Context>) -> Result<LinkDoc, DocFault>
        ensures { result ≡ new_answer contexts }
    {
        match first_broken(contexts.items()) {
            Some(i) => Err(DocFault::Shape(i)),
            None => Ok(LinkDoc { contexts }),
        }
    }

    /// Makes a linkset of contexts that have the shape. Does not allocate.
    pub fn of_contexts(contexts: List<Context>) -> LinkDoc
        requires { list_all is_context contexts ≡ true }
        ensures { result ≡ contexts }
    {
        LinkDoc { contexts }
    }

    /// Returns the contexts in their order.
    pub fn contexts(&self) -> &[Context]
        ensures value { result.now ≡ self.now }
        ensures shape { list_all is_context self.now ≡ true }
    {
        self.contexts.items()
    }

    /// Returns the list of the contexts. Does not allocate.
    pub fn into_contexts(self) -> List<Context>
        ensures value { result ≡ self }
        ensures shape { list_all is_context self ≡ true }
    {
        let LinkDoc { contexts } = self;
        contexts
    }
}

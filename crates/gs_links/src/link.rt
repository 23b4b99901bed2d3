use crate::kept_anchor::Anchor;
use gs_chars::Text;
use gs_linkset::Target;

/// A link of a store.
pub struct Link {
    /// The subject of the link: a key and qualifiers, without attributes.
    pub anchor: Anchor,
    /// The relation type (RFC 9264, section 4.2.2), in which `gs1:` is expanded.
    pub relation: Text,
    /// The target.
    pub target: Target,
}

// by hand, so that a function that drops a link calls this: a derived drop is written out at each of its exits
impl Drop for Link {
    fn drop(self) {
        let Link {
            anchor: _,
            relation: _,
            target: _,
        } = self;
    }
}

/// Which links are wanted.
#[derive(Clone, Copy)]
pub enum Want<'a> {
    /// Those of all relations.
    All,
    /// Those of the relation type with this name.
    Relation(&'a [u8]),
}

/// The result of a choice.
#[derive(Clone, Copy)]
pub struct Chosen {
    /// The number of qualifiers in the anchors of the chosen links, and 0 if none is chosen.
    pub depth: usize,
    /// The number of links that are chosen.
    pub count: usize,
}

use gs_chars::{List, Text};

/// The value of an attribute of a link target (RFC 9264, section 4.2.4).
#[derive(Drop)]
pub enum AttrValue {
    /// A text, of `type`, `title` and `media`.
    One(Text),
    /// Texts, of `hreflang` and every other name that does not end in `*`.
    Many(List<Text>),
    /// Texts, each with its language or the empty text, of a name that ends in `*`.
    Tagged(List<(Text, Text)>),
}

/// An attribute of a link target (RFC 9264, section 4.2.4).
pub struct Attr {
    /// The name of the attribute.
    pub name: Text,
    /// Its value.
    pub value: AttrValue,
}

// by hand, so that a function that drops one calls this one: a derived drop is written out at each of its exits
impl Drop for Attr {
    fn drop(self) {
        let Attr { name: _, value: _ } = self;
    }
}

/// The target of a link (RFC 9264, section 4.2.3).
pub struct Target {
    /// The reference to the target (RFC 3986), as written.
    pub href: Text,
    /// The attributes, in ascending order of their names.
    pub attrs: List<Attr>,
}

// by hand, so that a function that drops one calls this one: a derived drop is written out at each of its exits
impl Drop for Target {
    fn drop(self) {
        let Target { href: _, attrs: _ } = self;
    }
}

/// The links of one relation type (RFC 9264, section 4.2.2).
#[derive(Drop)]
pub struct Relation {
    /// The relation type, as written.
    pub name: Text,
    /// The targets, in the order of the document.
    pub targets: List<Target>,
}

/// The links of one link context (RFC 9264, section 4.2.2).
#[derive(Drop)]
pub struct Context {
    /// The reference to the link context (RFC 3986), as written.
    pub anchor: Text,
    /// The relations, in ascending order of their names.
    pub relations: List<Relation>,
}

/// The links of one relation type (RFC 9264, section 4.2.2), which their owner lends.
#[derive(Clone, Copy)]
pub struct RelationRef<'a> {
    /// The relation type, as written.
    pub name: &'a Text,
    /// The targets, in the order of the document.
    pub targets: &'a [&'a Target],
}

/// The links of one link context (RFC 9264, section 4.2.2), which their owner lends.
#[derive(Clone, Copy)]
pub struct ContextRef<'a> {
    /// The reference to the link context (RFC 3986), as written.
    pub anchor: &'a Text,
    /// The relations, in ascending order of their names.
    pub relations: &'a [RelationRef<'a>],
}

use crate::command::Command;

/// A file of links, as the arguments name it.
#[derive(Clone, Copy)]
pub enum LinksFile<'a> {
    /// A linkset in JSON.
    Json(&'a str),
    /// A linkset as text.
    Text(&'a str),
}

/// The files that the arguments name.
#[derive(Clone, Copy)]
pub struct NamedFiles<'a> {
    /// The tables.
    pub tables: Option<&'a str>,
    /// The lengths of company prefixes.
    pub prefixes: Option<&'a str>,
    /// The links.
    pub links: Option<LinksFile<'a>>,
    /// The second links that are merged, in JSON.
    pub second: Option<&'a str>,
    /// The third links that are merged, in JSON.
    pub third: Option<&'a str>,
    /// The description of a resolver.
    pub describe: Option<&'a str>,
    /// The classes of class URIs.
    pub classes: Option<&'a str>,
}

/// The values of the names that name no files, with their defaults.
#[derive(Clone, Copy)]
pub struct NamedValues<'a> {
    /// The expansion of `gs1:` in relations.
    pub voc: &'a str,
    /// Whether the references of links are templates.
    pub templates: bool,
    /// The address that a server listens at.
    pub listen: &'a str,
    /// The number of connections that a server finishes, 1 to 1,000,000, and 0 if it is not named.
    pub count: u32,
    /// A filter value, 0 to 7.
    pub filter: Option<u8>,
    /// The number of digits of a company prefix, 1 to 12.
    pub gcp: Option<u8>,
    /// The name of an encoding of tags, or nothing.
    pub encoding: &'a str,
    /// Whether an identity keeps only its key.
    pub keys_only: bool,
    /// The stem of links.
    pub stem: &'a str,
}

/// The request to the program.
#[derive(Clone, Copy)]
pub struct Request<'a> {
    /// The command with its operands.
    pub command: Command,
    /// The files that are named.
    pub files: NamedFiles<'a>,
    /// The values that are named.
    pub values: NamedValues<'a>,
}

use crate::file_kind::FileKind;
use gs_class::ClassLoadFault;
use gs_json::JsonFault;
use gs_links::StoreFault;
use gs_linktext_grammar::LinkTextFault;
use gs_prefix::PrefixFault;
use gs_tables_document::LoadFault;
use gs_template::PlaceFault;
use thiserror::Error;

/// Why a file, or the rows instead, are rejected.
#[derive(Debug, PartialEq, Drop, Error)]
pub enum FileFault {
    /// The file has more bytes than its kind may have.
    #[error("the file has more bytes than its kind may have")]
    Over,
    /// The tables break a rule, which is never out of memory.
    #[error("{0}")]
    Tables(LoadFault),
    /// The list of company prefix lengths breaks a rule, which is never out of memory.
    #[error("{0}")]
    Prefixes(PrefixFault),
    /// The links are not a linkset; the error is never out of memory.
    #[error("{0}")]
    Linkset(JsonFault),
    /// The linkset breaks a rule of links, which is never out of memory.
    #[error("{0}")]
    Store(StoreFault),
    /// The links are not a linkset as text; the error is never out of memory.
    #[error("{0}")]
    LinkText(LinkTextFault),
    /// The reference of the link with this number, from 0, is not a template of its anchor.
    #[error("link {0}: its reference is not a template of its anchor")]
    Place(usize, PlaceFault),
    /// The classes break a rule, which is never out of memory.
    #[error("{0}")]
    Classes(ClassLoadFault),
}

/// A file that is rejected.
#[derive(Debug, PartialEq, Drop)]
pub struct Rejection {
    /// The kind of the file.
    pub kind: FileKind,
    /// Why it is rejected.
    pub error: FileFault,
}

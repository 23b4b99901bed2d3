use gs_chars::Text;

/// A form that texts are read in.
#[derive(Clone, Copy)]
pub enum Form {
    /// The bits of a tag, in hexadecimal digits (TDS 2.0, section 14).
    Hex,
    /// EPC tag URIs (TDS 2.0, section 12).
    Tag,
    /// Pure identity URIs (TDS 2.0, section 6).
    Pure,
    /// Element strings as barcode scanners transmit them (GS1 General Specifications, section 7.8).
    Raw,
    /// Bracketed element strings (GS1 General Specifications, section 4, human readable interpretation).
    Bracketed,
    /// GS1 Digital Links (GS1 Digital Link URI Syntax, section 3).
    Link,
}

/// A form that texts are written in: one that can be read, or the canonical link.
#[derive(Clone, Copy)]
pub enum Target {
    /// The bits of a tag, in upper-case hexadecimal digits (TDS 2.0, section 14).
    Hex,
    /// EPC tag URIs (TDS 2.0, section 12).
    Tag,
    /// Pure identity URIs (TDS 2.0, section 6).
    Pure,
    /// Element strings without anything at the start (GS1 General Specifications, section 7.8).
    Raw,
    /// Bracketed element strings (GS1 General Specifications, section 4, human readable interpretation).
    Bracketed,
    /// GS1 Digital Links under the stem of the options (GS1 Digital Link URI Syntax, section 4).
    Link,
    /// Canonical GS1 Digital Links (GS1 Digital Link URI Syntax, section 5).
    Canon,
}

/// The facts of an EPC that an identity may not have.
#[derive(Clone, Copy, Debug, PartialEq)]
pub enum FieldName {
    /// The length of the GS1 Company Prefix.
    Gcp,
    /// The serial.
    Serial,
    /// The filter value of a tag.
    Filter,
}

/// The options of a translation, in addition to the text and its forms.
#[derive(Drop)]
pub struct Options {
    /// The filter value of a tag, 0 to 7, if the text has none.
    pub filter: Option<u8>,
    /// The number of digits of the GS1 Company Prefix, 1 to 12, if the text does not give it.
    pub gcp: Option<u8>,
    /// The name of the encoding of a tag. If empty, it is that of the text, or any if the text has none.
    pub encoding: Text,
    /// Whether the identity keeps only its key, with its serial if that is a separate element.
    pub keys_only: bool,
    /// The stem of a link.
    pub stem: Text,
}

use crate::form::FieldName;
use gs_ai::ElementFault;
use gs_chars::{Memory, Text};
use gs_dlink::LinkFault;
use gs_element::RawFault;
use gs_epc::{EpcFault, EpcWriteFault, FieldsFault};
use gs_grammar::Why;
use gs_ident::IdentFault;
use gs_tables::Field;
use thiserror::Error;

/// Why a text is rejected: by a translation, or by an answer of the program to class URIs and to the EPC memory banks of tags.
/// A translation returns none of the reasons after `CannotHold`, except `Memory`.
#[derive(Debug, PartialEq, Drop, Error)]
pub enum Reason {
    /// The text has more than 2,048 bytes.
    #[error("the text has more than 2,048 bytes")]
    Long,
    /// The text says no EPC, for this reason, which is never out of memory.
    #[error("the text says no EPC")]
    Epc(EpcFault),
    /// An element of the text is not valid: where, and why.
    #[error("an element is not valid")]
    Element(ElementFault),
    /// The text does not begin with `http://` or `https://` and an authority.
    #[error("the text does not begin with http:// or https:// and an authority")]
    NotHttp,
    /// The path of the link ends in no key with its qualifiers.
    #[error("the path ends in no key with its qualifiers")]
    NoKeyPath,
    /// The elements of the text have no identity, for this reason, which is never out of memory.
    #[error("the elements have no identity")]
    Ident(IdentFault),
    /// The tables have no kind of EPC for the key.
    #[error("no kind of EPC has this key")]
    NoKind,
    /// An element is neither the key nor its serial, so no EPC says it: its code.
    #[error("no EPC holds an element")]
    Extra(Text),
    /// Neither the text nor the options give this.
    #[error("a field is missing")]
    Missing(FieldName),
    /// The tables have no option for the kind, the length of the company prefix and the encoding.
    #[error("no option for the kind, the company prefix length and the encoding")]
    NoOption,
    /// No such option holds every field. The last one does not hold this field, for this reason.
    #[error("no option holds every field")]
    CannotHold(Field, Why),
    /// No class has the key of the identity.
    #[error("no class has this key")]
    NoClass,
    /// No class that has the key has an element that the identity has.
    #[error("no element makes a class")]
    MissingElement,
    /// There are fewer bits than a protocol control word has.
    #[error("shorter than the control word")]
    NoWord,
    /// The bit of the word that says that an extended word follows is 1.
    #[error("the extended bit is set")]
    Extended,
    /// The bit of the word that says that the bank holds no EPC is 1.
    #[error("the toggle bit is set")]
    Toggle,
    /// The number of bits after the word is not that of the words in it.
    #[error("{said} words of 16 bits are announced, but {bits} bits follow")]
    Words {
        /// The number of words that it says.
        said: u8,
        /// The number of bits after it.
        bits: u16,
    },
    /// The line does not begin with the user memory bit and the attribute bits.
    #[error("the line does not begin with the user memory bit and the attribute bits")]
    Line,
    /// The encoding has more words than a control word can say.
    #[error("an encoding of more than 31 words")]
    TooLong,
    /// Out of memory.
    #[error("out of memory")]
    Memory,
}

impl From<Memory> for Reason {
    ghost use Rattle.std.specs.Prelude.{◌≡◌};
    ghost use Rattle.gs_translate.specs.declared.reason.Reason.TheVariants.{Memory as WantOfMemory};

    ghost from_gives = { λ _ e. e ≡ WantOfMemory };

    fn from(_rejected: Memory) -> Reason {
        Reason::Memory
    }
}

impl From<EpcFault> for Reason {
    ghost use Rattle.std.specs.Prelude.{◌≡◌};
    ghost use Rattle.gs_translate.specs.MeaningsSupport.{epc_reason};

    ghost from_gives = { λ error reason. reason ≡ epc_reason error };

    fn from(error: EpcFault) -> Reason {
        match error {
            EpcFault::Memory => Reason::Memory,
            error => Reason::Epc(error),
        }
    }
}

impl From<RawFault> for Reason {
    ghost use Rattle.std.specs.Prelude.{◌≡◌};
    ghost use Rattle.gs_translate.specs.MeaningsSupport.{elements_reason};

    ghost from_gives = { λ error reason. reason ≡ elements_reason error };

    fn from(error: RawFault) -> Reason {
        match error {
            RawFault::Element(error) => Reason::Element(error),
            RawFault::Memory => Reason::Memory,
        }
    }
}

impl From<LinkFault> for Reason {
    ghost use Rattle.std.specs.Prelude.{◌≡◌};
    ghost use Rattle.gs_translate.specs.Meanings.{link_reason};

    ghost from_gives = { λ error reason. reason ≡ link_reason error };

    fn from(error: LinkFault) -> Reason {
        match error {
            LinkFault::NotHttp => Reason::NotHttp,
            LinkFault::NoKeyPath => Reason::NoKeyPath,
            LinkFault::Element(error) => Reason::Element(error),
            LinkFault::Memory => Reason::Memory,
        }
    }
}

impl From<FieldsFault> for Reason {
    ghost use Rattle.std.specs.Prelude.{◌≡◌};
    ghost use Rattle.gs_translate.specs.TargetsSupport.{fields_reason};

    ghost from_gives = { λ error reason. reason ≡ fields_reason error };

    fn from(error: FieldsFault) -> Reason {
        match error {
            FieldsFault::MissingSerial => Reason::Missing(FieldName::Serial),
            FieldsFault::Memory => Reason::Memory,
        }
    }
}

impl From<EpcWriteFault> for Reason {
    ghost use Rattle.std.specs.Prelude.{◌≡◌};
    ghost use Rattle.gs_translate.specs.Translations.{write_reason};

    ghost from_gives = { λ error reason. reason ≡ write_reason error };

    fn from(error: EpcWriteFault) -> Reason {
        match error {
            EpcWriteFault::NoOption => Reason::NoOption,
            EpcWriteFault::CannotHold(field, why) => Reason::CannotHold(field, why),
            EpcWriteFault::Memory => Reason::Memory,
        }
    }
}

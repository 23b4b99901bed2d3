ghost use Rattle.std.specs.Prelude.{◌≡◌, false, IfErr, IfOk, Some, position};
ghost use Rattle.std.specs.List.{find, list_any};
ghost use Rattle.std.specs.Option.{option_copied};
ghost use Rattle.gs_ident.specs.Identities.{IsMadeWith, pair_with};
ghost use Rattle.gs_epc.specs.KeyParts.{take_apart};
ghost use Rattle.gs_class.specs.Sets.{IsOfTable, kind_of};
ghost use Rattle.gs_class.specs.Written.{by_items, by_length, by_name, class_answer, has_key, is_extra, is_named_by, is_sized, length_for, others_of, value_for, values_for};
ghost use Rattle.gs_class.specs.WrittenSupport.{CanBeWritten, CanWrite, IsQualified, fields_in};
ghost use Rattle.gs_chars.specs.Answers.{OrError};

use crate::class_set::{Class, ClassSet};
use crate::error::ClassWriteFault;
use gs_ai::{AiTable, Pair};
use gs_chars::{CowText, Memory, Text};
use gs_epc::{joined, parts_at, prefix_in, rest_in, skip_first};
use gs_grammar::{Opt, WriteFault, write_text};
use gs_ident::{Identity, is_coded, pair_with};
use gs_prefix::PrefixList;
use gs_tables::Field;
use std::alloc::Global;

/// The fields of an identity by a class.
#[derive(Drop)]
struct Said {
    /// The company prefix.
    prefix: Text,
    /// The digits of the key after the company prefix, with the lead digits at the start.
    rest: Text,
    /// The lot.
    serial: Text,
}

/// Returns the first pair with the code, other than the key.
fn other_with<'i, 'a>(identity: &'i Identity<'a>, code: &[u8]) -> Option<&'i Pair<'a>>
    ensures { option_copied result ≡ pair_with (others_of identity.now) code.now }
{
    let qualifiers = identity.qualifiers().iter();
    qualifiers
        .chain(identity.attributes().iter())
        .find(|pair| is_coded(code, pair))
}

/// Returns whether the class has the key of the identity.
fn has_key(identity: &Identity<'_>, class: &Class) -> bool
    ensures { result ≡ has_key identity.now class.now }
{
    class.key.as_bytes() == identity.key().code.as_bytes()
}

/// Returns whether some class has the key of the identity.
fn some_has_key(identity: &Identity<'_>, classes: &[Class]) -> bool
    ensures { result ≡ list_any (has_key identity.now) classes.now }
{
    classes.iter().any(|class| has_key(identity, class))
}

/// Returns whether the class has the key of the identity, and its element is a pair of it.
fn is_named_by(identity: &Identity<'_>, class: &Class) -> bool
    ensures { result ≡ is_named_by identity.now class.now }
{
    has_key(identity, class) && other_with(identity, class.element.as_bytes()).is_some()
}

/// Returns the first class that names the identity.
fn naming<'a>(identity: &Identity<'_>, classes: &'a [Class]) -> Option<&'a Class>
    ensures { option_copied result ≡ find (is_named_by identity.now) classes.now }
{
    classes.iter().find(|class| is_named_by(identity, class))
}

/// Returns whether the pair is neither that of the key nor that of the element of the class.
fn is_extra(class: &Class, pair: &Pair<'_>) -> bool
    ensures { result ≡ is_extra class.now pair.now }
{
    let code = pair.code.as_bytes();
    class.key.as_bytes() != code && class.element.as_bytes() != code
}

/// Returns the first pair of the identity that is neither that of the key nor that of the element of the class.
fn extra_of<'i, 'a>(class: &Class, identity: &'i Identity<'a>) -> Option<&'i Pair<'a>>
    ensures { option_copied result ≡ find (is_extra class.now) (others_of identity.now) }
{
    let qualifiers = identity.qualifiers().iter();
    qualifiers
        .chain(identity.attributes().iter())
        .find(|pair| is_extra(class, pair))
}

/// Returns the fields that an identity has by a class. The element is a qualifier of the identity.
fn class_fields(
    alloc: Global,
    ais: &AiTable,
    class: &Class,
    identity: &Identity<'_>,
) -> Result<Said, ClassWriteFault>
    requires { IsQualified class.now identity.now }
    ensures apart { IfOk result (λ said. take_apart ais.now (kind_of class.now) identity.now class.now.gcp
        ≡ Some (fields_in said)) }
    ensures only_memory { IfErr result (λ error. error ≡ ClassWriteFault.Memory) }
{
    let Some(lot) = pair_with(identity.qualifiers(), class.element.as_bytes()) else {
        return Err(ClassWriteFault::MissingElement);
    };
    let parts = parts_at(ais, class.key.as_bytes());
    let value = identity.key().value.as_bytes();
    let (lead, behind) = rest_in(parts, class.lead, class.gcp, value);
    Ok(Said {
        prefix: Text::from_bytes(alloc, prefix_in(parts, class.lead, class.gcp, value))?,
        rest: joined(alloc, lead, behind)?,
        serial: Text::from_bytes(alloc, lot.value.as_bytes())?,
    })
}

/// Returns the value that an item of the field holds.
fn value_for(said: &Said, field: Option<Field>) -> CowText<'_>
    ensures { result ≡ value_for (fields_in said.now) field }
{
    match field {
        Some(Field::Gcp) => CowText::lent(said.prefix.as_bytes()),
        Some(Field::Rest) => CowText::lent(said.rest.as_bytes()),
        Some(Field::Serial) => CowText::lent(said.serial.as_bytes()),
        _ => CowText::lent(&[]),
    }
}

/// Returns the value of each item.
fn values_for<'a>(
    alloc: Global,
    said: &'a Said,
    fields: &[Option<Field>],
) -> Result<Vec<CowText<'a>>, Memory>
    ensures { IfOk result (λ values. values.items ≡ values_for (fields_in said.now) fields.now) }
{
    let mut values = Vec::new(alloc);
    for field in fields {
        values.push(value_for(said, *field))?;
    }
    Ok(values)
}

/// Writes the identity by the option of the class.
fn write_option(
    alloc: Global,
    ais: &AiTable,
    class: &Class,
    option: &Opt,
    identity: &Identity<'_>,
) -> Result<Text, ClassWriteFault>
    requires text_level { option.now.bit_level ≡ false }
    requires can_write { CanWrite ais.now class.now option.now.items identity.now }
    ensures { OrError ClassWriteFault.Memory result
        (by_items ais.now class.now identity.now option.now.items) }
{
    let said = class_fields(alloc, ais, class, identity)?;
    let values = values_for(alloc, &said, class.fields.items())?;
    match write_text(alloc, option, values.as_slice()) {
        Ok(text) => Ok(text),
        Err(WriteFault::CannotHold { item: _, why }) => Err(ClassWriteFault::CannotHold(why)),
        Err(WriteFault::Memory) => Err(ClassWriteFault::Memory),
    }
}

/// Returns the index of the first class of the name whose company prefix has that many digits.
fn sized(classes: &[Class], name: &[u8], n: u8) -> Option<usize>
    ensures { result ≡ position (is_sized name.now n) classes.now }
{
    classes
        .iter()
        .position(|class| name == class.name.as_bytes() && class.gcp == n)
}

/// Writes the identity by the first class of the name whose company prefix has `n` digits.
#[tactic(auto, unfolding(crate::specs::Written::by_length))]
fn write_by_length(
    alloc: Global,
    ais: &AiTable,
    set: &ClassSet,
    class: &Class,
    identity: &Identity<'_>,
    n: u8,
) -> Result<Text, ClassWriteFault>
    requires { CanBeWritten ais.now set.now class.now.name identity.now }
    ensures { OrError ClassWriteFault.Memory result (by_length ais.now set.now identity.now class.now n) }
{
    match sized(set.classes(), class.name.as_bytes(), n) {
        Some(i) => write_option(
            alloc,
            ais,
            &set.classes()[i],
            &set.level().options()[i],
            identity,
        ),
        None => Err(ClassWriteFault::NoOption),
    }
}

/// Returns the length of the company prefix: the given one, or that of the list.
#[tactic(auto, unfolding(crate::specs::Written::length_for))]
fn length_for(
    prefixes: &PrefixList,
    gcp: Option<u8>,
    class: &Class,
    identity: &Identity<'_>,
) -> Option<u8>
    ensures { result ≡ length_for prefixes.now gcp class.now identity.now }
{
    match gcp {
        Some(n) => Some(n),
        None => prefixes.length_of(skip_first(
            identity.key().value.as_bytes(),
            usize::from(class.lead),
        )),
    }
}

/// Writes the identity by the class that names it.
#[tactic(auto, unfolding(crate::specs::Written::by_name))]
fn write_by_name(
    alloc: Global,
    ais: &AiTable,
    set: &ClassSet,
    prefixes: &PrefixList,
    gcp: Option<u8>,
    identity: &Identity<'_>,
    class: &Class,
) -> Result<Text, ClassWriteFault>
    requires { CanBeWritten ais.now set.now class.now.name identity.now }
    ensures { OrError ClassWriteFault.Memory result
        (by_name ais.now set.now prefixes.now gcp identity.now class.now) }
{
    if let Some(pair) = extra_of(class, identity) {
        return Err(ClassWriteFault::Extra(Text::from_bytes(alloc, pair.code.as_bytes())?));
    }
    match length_for(prefixes, gcp, class, identity) {
        Some(n) => write_by_length(alloc, ais, set, class, identity, n),
        None => Err(ClassWriteFault::MissingGcp),
    }
}

/// Returns the class URI of an identity (TDS 2.0, 'EPC Class URIs'), or the first rejection in this order. `NoClass`: no class
/// has the identity's key. `MissingElement`: no class with that key has an element that is a pair of the identity; otherwise the
/// first that has one gives the name. `Extra`: the first pair other than the key and that element. `MissingGcp`: no company
/// prefix length is given, and the list has none for the digits after the lead digits. `NoOption`: no class of the name has a
/// company prefix of that length. `CannotHold`: the item of the lot does not hold it. May return `Memory` instead. The set is of
/// the table, and the identity was made with it.
#[tactic(auto, unfolding(crate::specs::Written::class_answer))]
pub fn write_class(
    alloc: Global,
    set: &ClassSet,
    table: &AiTable,
    prefixes: &PrefixList,
    gcp: Option<u8>,
    identity: &Identity<'_>,
) -> Result<Text, ClassWriteFault>
    requires of_table { IsOfTable table.now set.now }
    requires made { IsMadeWith table.now identity.now }
    ensures { OrError ClassWriteFault.Memory result
        (class_answer table.now set.now prefixes.now gcp identity.now) }
{
    // only for the proof: the rows satisfy the rules of application identifiers
    let _ = table.rows();
    let classes = set.classes();
    if !some_has_key(identity, classes) {
        return Err(ClassWriteFault::NoClass);
    }
    match naming(identity, classes) {
        Some(class) => write_by_name(alloc, table, set, prefixes, gcp, identity, class),
        None => Err(ClassWriteFault::MissingElement),
    }
}

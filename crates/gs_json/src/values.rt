ghost use Rattle.std.specs.Prelude.{◌≡◌, ◌≢◌, ◌<◌, ◌≤◌, ◌⊎◌, ◌∷◌, ◌++◌, [], length, None, Some, Err, IfOk, IfErr, OnOk};
ghost use Rattle.json.specs.Json.{items, members, number as json_number, value};
ghost use Rattle.json.specs.Print.{IsNumber, IsPrintable};
ghost use Rattle.json.specs.Reads.{token_of};
ghost use Rattle.serde_json.specs.Data.{no_members, put, string};
ghost use Rattle.serde_json.specs.Read.{converted, of_items, of_json, of_members};
ghost use Rattle.serde_json.specs.View.{items_view, members_view, view};

use crate::error::JsonFault;
use gs_chars::Memory;
use json::{Reader, Token};
use serde_json::{Map, Value};
use std::alloc::Global;

/// Reads the next value of a reader, which `serde_json` has no public call for. Arrays and objects may nest `depth` deep. Returns
/// `Syntax` only if the rest of the text does not begin with such a value. May return `Memory` instead.
#[cycle(read)]
pub fn read_value(alloc: Global, reader: &mut Reader<'_>, depth: usize) -> Result<Value, JsonFault>
    ensures ok { IfOk result (λ v.
        converted of_json (value depth reader.old) ≡ Some (view v, reader.new)) }
    ensures shorter { OnOk result (length reader.new < length reader.old) }
    ensures syntax { result ≡ Err (JsonFault.Syntax) → converted of_json (value depth reader.old) ≡ None }
    ensures only { IfErr result (λ e. (e ≡ JsonFault.Syntax) ⊎ (e ≡ JsonFault.Memory)) }
{
    let Some(token) = reader.next() else {
        return Err(JsonFault::Syntax);
    };
    value_from(alloc, token, reader, depth)
}

/// Reads a value from its first token and the tokens of a reader. Arrays and objects may nest `depth` deep. Returns `Syntax` only
/// if the tokens do not begin with such a value. May return `Memory` instead.
#[cycle(read)]
pub fn value_from(
    alloc: Global,
    token: Token<'_>,
    reader: &mut Reader<'_>,
    depth: usize,
) -> Result<Value, JsonFault>
    requires { token ≢ Token.Bad → IsPrintable (token_of token) }
    ensures ok { IfOk result (λ v.
        converted of_json (value depth (token_of token.entry ∷ reader.old)) ≡ Some (view v, reader.new)) }
    ensures shorter { OnOk result (length reader.new ≤ length reader.old) }
    ensures syntax { result ≡ Err (JsonFault.Syntax)
        → converted of_json (value depth (token_of token.entry ∷ reader.old)) ≡ None }
    ensures only { IfErr result (λ e. (e ≡ JsonFault.Syntax) ⊎ (e ≡ JsonFault.Memory)) }
{
    match token {
        Token::String(text) => Ok(text_value(alloc, text)?),
        Token::Number(text) => number_value(alloc, text),
        Token::Bool(truth) => Ok(Value::Bool(truth)),
        Token::Null => Ok(Value::Null),
        Token::EndObject | Token::EndArray | Token::Key(_) | Token::Bad => Err(JsonFault::Syntax),
        Token::BeginArray => {
            if depth == 0 {
                return Err(JsonFault::Syntax);
            }
            Ok(Value::Array(read_items(alloc, reader, depth - 1)?))
        }
        Token::BeginObject => {
            if depth == 0 {
                return Err(JsonFault::Syntax);
            }
            Ok(Value::Object(read_members(alloc, reader, depth - 1)?))
        }
    }
}

/// Reads the items of an array, up to its end.
#[cycle(read)]
fn read_items(alloc: Global, reader: &mut Reader<'_>, depth: usize) -> Result<Vec<Value>, JsonFault>
    ensures ok { IfOk result (λ v.
        converted of_items (items (value depth) (length reader.old) reader.old)
        ≡ Some (items_view v.items, reader.new)) }
    ensures shorter { OnOk result (length reader.new ≤ length reader.old) }
    ensures syntax { result ≡ Err (JsonFault.Syntax)
        → converted of_items (items (value depth) (length reader.old) reader.old) ≡ None }
    ensures only { IfErr result (λ e. (e ≡ JsonFault.Syntax) ⊎ (e ≡ JsonFault.Memory)) }
{
    let mut found = Vec::new(alloc);
    'items: while !reader.take_end_array() {
        let item = read_value(alloc, reader, depth)?;
        push_item(&mut found, item)?;
    }
    Ok(found)
}

/// Reads the members of an object, up to its end. The last of the members with one name counts.
#[cycle(read)]
fn read_members(
    alloc: Global,
    reader: &mut Reader<'_>,
    depth: usize,
) -> Result<Map<String, Value>, JsonFault>
    ensures ok { IfOk result (λ m.
        converted (λ ms. of_members ms no_members) (members (value depth) (length reader.old) reader.old)
        ≡ Some (members_view m.entries, reader.new)) }
    ensures shorter { OnOk result (length reader.new ≤ length reader.old) }
    ensures syntax { result ≡ Err (JsonFault.Syntax)
        → converted (λ ms. of_members ms no_members) (members (value depth) (length reader.old) reader.old)
        ≡ None }
    ensures only { IfErr result (λ e. (e ≡ JsonFault.Syntax) ⊎ (e ≡ JsonFault.Memory)) }
{
    let mut found = Map::new(alloc);
    'members: loop {
        let Ok(key) = reader.next_key() else {
            return Err(JsonFault::Syntax);
        };
        let Some(name) = key else {
            return Ok(found);
        };
        let member = read_value(alloc, reader, depth)?;
        put_member(alloc, &mut found, name, member)?;
    }
}

/// Makes a text.
fn text_value(alloc: Global, text: &str) -> Result<Value, Memory>
    ensures { IfOk result (λ v. view v ≡ string text.now) }
{
    Ok(Value::try_from_str(alloc, text)?)
}

/// Makes a number of a numeral. Returns `Syntax` only if the number is beyond a double. May return `Memory` instead.
fn number_value(alloc: Global, text: &str) -> Result<Value, JsonFault>
    requires { IsNumber text.now }
    ensures ok { IfOk result (λ v. of_json (json_number text.now) ≡ Some (view v)) }
    ensures syntax { result ≡ Err (JsonFault.Syntax) → of_json (json_number text.now) ≡ None }
    ensures only { IfErr result (λ e. (e ≡ JsonFault.Syntax) ⊎ (e ≡ JsonFault.Memory)) }
{
    match Value::from_str(alloc, text) {
        Ok(number) => Ok(number),
        Err(error) if error.is_memory() => Err(JsonFault::Memory),
        Err(_) => Err(JsonFault::Syntax),
    }
}

/// Adds an item.
fn push_item(items: &mut Vec<Value>, item: Value) -> Result<(), Memory>
    ensures { IfOk result (λ _. items.new.items ≡ items.old.items ++ item ∷ []) }
{
    items.push(item)?;
    Ok(())
}

/// Puts a value at a name, replacing an earlier one.
fn put_member(
    alloc: Global,
    members: &mut Map<String, Value>,
    name: &str,
    value: Value,
) -> Result<(), Memory>
    ensures { IfOk result (λ _.
        members_view members.new.entries ≡ put name.now (view value) (members_view members.old.entries)) }
{
    serde_json::put(members, alloc, name, value)?;
    Ok(())
}

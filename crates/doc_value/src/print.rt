ghost use Rattle.std.specs.Prelude.{◌≡◌, ◌++◌, ◌<◌, ◌≤◌, true, false, [], ◌∷◌, map, Ok, IfOk, OnOk};
ghost use Rattle.std.specs.Str.{IsUtf8, is_utf8};
ghost use Rattle.std.specs.Char.{digit_char};
ghost use Rattle.std.specs.Fmt.{signed_decimal};
ghost use Rattle.json.specs.Print.{escape, escape_byte, quoted};
ghost use Rattle.serde_json.specs.Written.{comma_if};
ghost use Rattle.doc_value.specs.Fields.{judged};
ghost use Rattle.doc_value.specs.Depth.{nesting};
ghost use Rattle.doc_value.specs.Order.{is_ordered};
ghost use Rattle.doc_value.specs.Readable.{holds_bad_name};
ghost use Rattle.doc_value.specs.Syntax.{value_in};
ghost use Rattle.doc_value.specs.Sound.{is_sound, all_sound, fields_sound, fits_64_bits};
ghost use Rattle.doc_value.specs.Texts.{compact, items_text, fields_text};

use crate::text::OutOfMemory;
use crate::value::{Field, Value};
use std::alloc::Global;

/// The compact JSON text of a value.
pub fn print_value(alloc: Global, value: &Value) -> Result<Vec<u8>, OutOfMemory>
    ensures exact { IfOk result (λ text. text.items ≡ compact value.now) }
    ensures utf8 { IfOk result (λ text. IsUtf8 text.items) }
    ensures reads_back { IfOk result (λ text. nesting value.now ≤ 100
        → holds_bad_name value.now ≡ false
        → is_ordered value.now ≡ true
        → value_in text.items ≡ Ok value.now) }
{
    let mut out = Vec::new(alloc);
    write_value(&mut out, value)?;
    Ok(out)
}

/// Writes the compact JSON text of a value at the end.
pub fn push_value(out: &mut Vec<u8>, value: &Value) -> Result<(), OutOfMemory>
    ensures exact { OnOk result (out.new.items ≡ out.old.items ++ compact value.now) }
    ensures sound { OnOk result (is_sound value.now ≡ true) }
    ensures utf8 { OnOk result (IsUtf8 (compact value.now)) }
{
    write_value(out, value)
}

#[cycle(print)]
fn write_value(out: &mut Vec<u8>, value: &Value) -> Result<(), OutOfMemory>
    ensures exact { OnOk result (out.new.items ≡ out.old.items ++ compact value.now) }
    ensures sound { OnOk result (is_sound value.now ≡ true) }
{
    match value {
        Value::Null => out.extend_from_slice(b"null"),
        Value::Bool(true) => out.extend_from_slice(b"true"),
        Value::Bool(false) => out.extend_from_slice(b"false"),
        Value::Int(number) => push_int(out, *number),
        Value::Text(text) => push_text(out, text.as_str()),
        Value::List(items) => write_items(out, items.as_slice()),
        Value::Object(fields) => write_fields(out, fields.as_slice()),
    }
}

#[cycle(print)]
fn write_items(out: &mut Vec<u8>, items: &[Value]) -> Result<(), OutOfMemory>
    ensures exact { OnOk result (out.new.items ≡
        out.old.items ++ 91 ∷ items_text false (map compact items.now)) }
    ensures sound { OnOk result (all_sound (map is_sound items.now) ≡ true) }
{
    out.push(b'[')?;
    let mut later = false;
    for item in items {
        push_separator(out, later)?;
        write_value(out, item)?;
        later = true;
    }
    out.push(b']')?;
    Ok(())
}

#[cycle(print)]
fn write_fields(out: &mut Vec<u8>, fields: &[Field]) -> Result<(), OutOfMemory>
    ensures exact { OnOk result (out.new.items ≡
        out.old.items ++ 123 ∷ fields_text false (map (judged compact) fields.now)) }
    ensures sound { OnOk result (fields_sound (map (judged is_sound) fields.now) ≡ true) }
{
    out.push(b'{')?;
    let mut later = false;
    for field in fields {
        push_separator(out, later)?;
        push_text(out, field.name.as_str())?;
        out.push(b':')?;
        write_value(out, &field.value)?;
        later = true;
    }
    out.push(b'}')?;
    Ok(())
}

fn push_separator(out: &mut Vec<u8>, later: bool) -> Result<(), OutOfMemory>
    ensures exact { OnOk result (out.new.items ≡ out.old.items ++ comma_if later) }
{
    if later {
        out.push(b',')?;
    }
    Ok(())
}

fn push_int(out: &mut Vec<u8>, number: i64) -> Result<(), OutOfMemory>
    ensures exact { OnOk result (out.new.items ≡ out.old.items ++ signed_decimal number) }
    ensures sound { fits_64_bits number ≡ true }
{
    let mut buffer = itoa::Buffer::new();
    out.extend_from_slice(buffer.format(number).as_bytes())
}

/// Writes a text in quotes at the end, escaped as JSON has it.
pub fn push_text(out: &mut Vec<u8>, text: &str) -> Result<(), OutOfMemory>
    ensures exact { OnOk result (out.new.items ≡ out.old.items ++ quoted text.now) }
    ensures sound { OnOk result (is_utf8 text.now ≡ true) }
    ensures utf8 { OnOk result (IsUtf8 (quoted text.now)) }
{
    out.push(b'"')?;
    for byte in text.as_bytes() {
        push_escaped(out, *byte)?;
    }
    out.push(b'"')?;
    Ok(())
}

#[tactic(auto, unfolding(json::specs::Print::escape_byte))]
fn push_escaped(out: &mut Vec<u8>, byte: u8) -> Result<(), OutOfMemory>
    ensures exact { OnOk result (out.new.items ≡ out.old.items ++ escape_byte byte) }
{
    match byte {
        b'"' => out.extend_from_slice(b"\\\""),
        b'\\' => out.extend_from_slice(b"\\\\"),
        0x08 => out.extend_from_slice(b"\\b"),
        0x09 => out.extend_from_slice(b"\\t"),
        0x0a => out.extend_from_slice(b"\\n"),
        0x0c => out.extend_from_slice(b"\\f"),
        0x0d => out.extend_from_slice(b"\\r"),
        0x00..=0x1f => {
            let digits = [hex_digit(byte / 16), hex_digit(byte % 16)];
            out.extend_from_slice(b"\\u00")?;
            out.extend_from_slice(&digits)
        }
        _ => {
            out.push(byte)?;
            Ok(())
        }
    }
}

fn hex_digit(digit: u8) -> u8
    requires { digit < 16 }
    ensures { result ≡ digit_char digit }
{
    if digit < 10 {
        b'0' + digit
    } else {
        b'a' + (digit - 10)
    }
}

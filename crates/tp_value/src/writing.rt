//! The text of a value.
ghost use Rattle.std.specs.Prelude.{◌≡◌, ◌==◌, ◌<◌, ◌++◌, IfSome, MatchOption, codes, length, position};
ghost use Rattle.std.specs.Fmt.{signed_decimal};
ghost use Rattle.tp_common.specs.Watching.{Writes};
ghost use Rattle.tp_value.specs.ValueText.{bool_text, braced_text, element_texts, escaped, field_texts, quoted};
ghost use Rattle.tp_value.specs.ValueText.{value_text};
ghost use Rattle.tp_value.specs.Separators.{separator};

use crate::types::{Field, Ty, TypeDef, Types};
use crate::value::Value;
use itoa::Buffer;
use std::io::Write;
use tp_common::watched::{Watched, write_bytes};

fn write_number<W: Write>(number: i64, out: &mut Watched<W>)
    ensures { Writes W.contents out.old out.new (signed_decimal number) }
{
    let mut buffer = Buffer::new();
    write_bytes(buffer.format(number).as_bytes(), out)
}

fn write_truth<W: Write>(truth: bool, out: &mut Watched<W>)
    ensures { Writes W.contents out.old out.new (bool_text truth) }
{
    if truth {
        write_bytes(b"true", out)
    } else {
        write_bytes(b"false", out)
    }
}

fn quote_place(text: &[u8]) -> Option<usize>
    ensures { result ≡ position (λ byte. byte == 34) text.now }
{
    text.iter().position(|byte| *byte == b'"')
}

fn cut_at_quote(text: &[u8]) -> Option<(&[u8], &[u8])>
    ensures cut { MatchOption result
        (escaped text.now ≡ text.now)
        (λ cut. escaped text.now ≡ cut.0.now ++ (codes "\"" ++ escaped cut.1.now)) }
    ensures shorter { IfSome result (λ cut. length cut.1.now < length text.now) }
{
    match quote_place(text) {
        None => None,
        Some(place) => Some(text.split_at(place + 1)),
    }
}

fn write_text<W: Write>(text: &[u8], out: &mut Watched<W>)
    ensures { Writes W.contents out.old out.new (quoted text.now) }
{
    write_bytes(b"\"", out);
    let mut rest = text;
    while let Some((front, behind)) = cut_at_quote(rest) {
        write_bytes(front, out);
        write_bytes(b"\"", out);
        rest = behind;
    }
    write_bytes(rest, out);
    write_bytes(b"\"", out)
}

fn separate<W: Write>(place: usize, out: &mut Watched<W>)
    ensures { Writes W.contents out.old out.new (separator place) }
{
    if place == 0 {
        // Nothing is written, but the call has the form of the clause in both cases.
        write_bytes(b"", out)
    } else {
        write_bytes(b", ", out)
    }
}

/// Writes a value of the type in the core notation (ES 201 873-1, 6): `-1`, `true`, `"a""b"`, `{f
/// := v, g := w}` for a record, `{v, w}` for a record of, `{}` for an empty one of either.
///
/// Ask [`has_type`](crate::typing::has_type) first: if the value doesn't have the type, the text is
/// meaningless. If the writer fails, it has written a front of the text. The call recurses once for
/// each level of nesting.
#[cycle(write)]
pub fn write_value<W: Write>(types: &Types, ty: Ty, value: &Value, out: &mut Watched<W>)
    ensures { Writes W.contents out.old out.new (value_text types.now ty value.now) }
{
    match value {
        Value::Int(number) => write_number(*number, out),
        Value::Bool(truth) => write_truth(*truth, out),
        Value::Text(text) => write_text(text.as_slice(), out),
        Value::Record(fields) => match types.definition(ty) {
            Some(TypeDef::Record(declared)) => {
                write_fields(types, declared.as_slice(), fields.as_slice(), out)
            }
            Some(TypeDef::ListOf(_)) | None => {}
        },
        Value::List(elements) => match types.definition(ty) {
            Some(TypeDef::ListOf(inner)) => {
                write_elements(types, *inner, elements.as_slice(), out)
            }
            Some(TypeDef::Record(_)) | None => {}
        },
    }
}

#[cycle(write)]
fn write_fields<W: Write>(types: &Types, declared: &[Field], values: &[Value], out: &mut Watched<W>)
    ensures { Writes W.contents out.old out.new
        (braced_text (field_texts (λ v t. value_text types.now t v) declared.now values.now)) }
{
    write_bytes(b"{", out);
    // A record of the type has as many values as fields. The minimum saves a `requires` for this.
    for index in 0..declared.len().min(values.len()) {
        let field = &declared[index];
        separate(index, out);
        write_bytes(field.name.as_slice(), out);
        write_bytes(b" := ", out);
        write_value(types, field.ty, &values[index], out);
    }
    write_bytes(b"}", out)
}

#[cycle(write)]
fn write_elements<W: Write>(types: &Types, ty: Ty, values: &[Value], out: &mut Watched<W>)
    ensures { Writes W.contents out.old out.new
        (braced_text (element_texts (λ v t. value_text types.now t v) ty values.now)) }
{
    write_bytes(b"{", out);
    for (index, value) in values.iter().enumerate() {
        separate(index, out);
        write_value(types, ty, value, out);
    }
    write_bytes(b"}", out)
}

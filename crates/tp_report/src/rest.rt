//! The rest of a line on a message: its number, and the message.
ghost use Rattle.std.specs.Prelude.{◌∷◌, ◌++◌, [], IfSome, codes};
ghost use Rattle.std.specs.Fmt.{decimal, signed_decimal};
ghost use Rattle.tp_common.specs.Watching.{Writes};
ghost use Rattle.tp_report.specs.Integers.{IsInteger};
ghost use Rattle.tp_report.specs.ReportWords.{message_text, rest_of_line};

use crate::backward::{put_bytes, put_integer};
use crate::line_room::LineRoom;
use crate::words::{write_message, write_spaced};
use itoa::write_digits;
use std::io::Write;
use tp_common::watched::{Watched, write_bytes};
use tp_value::types::{Ty, Types};
use tp_value::value::Value;

fn message_integer(ty: Ty, value: &Value) -> Option<i64>
    ensures { IfSome result (IsInteger record { ty = ty; value = value.now }) }
{
    match ty {
        Ty::Integer => match value {
            Value::Int(number) => Some(*number),
            _ => None,
        },
        _ => None,
    }
}

fn write_integer<W: Write>(number: u64, integer: i64, out: &mut Watched<W>)
    ensures { Writes W.contents out.old out.new
        (rest_of_line (decimal number ∷ (codes "integer:" ++ signed_decimal integer) ∷ [])) }
{
    // The number and the integer have 20 characters at most, and all else has 11. The last byte
    // stays a line feed.
    let mut text = [b'\n'; 51];
    let integer_start = put_integer(integer, &mut text, 50);
    let type_start = put_bytes(b" integer:", &mut text, integer_start);
    let number_start = write_digits(number, &mut text, type_start);
    let start = put_bytes(b" ", &mut text, number_start);
    write_bytes(&text[start..], out)
}

fn write_pieces<W: Write>(types: &Types, number: u64, ty: Ty, value: &Value, out: &mut Watched<W>)
    ensures { Writes W.contents out.old out.new (rest_of_line (decimal number
        ∷ message_text types.now record { ty = ty; value = value.now } ∷ [])) }
{
    write_spaced(number, out);
    write_message(types, ty, value, out);
    write_bytes(b"\n", out)
}

// Not inlined, because the room would be cleared for each integer too.
#[inline(never)]
fn write_in_one_piece<W: Write>(
    types: &Types,
    number: u64,
    ty: Ty,
    value: &Value,
    out: &mut Watched<W>,
)
    ensures { Writes W.contents out.old out.new (rest_of_line (decimal number
        ∷ message_text types.now record { ty = ty; value = value.now } ∷ [])) }
{
    let mut line = Watched::new(LineRoom::new());
    write_pieces(types, number, ty, value, &mut line);
    if line.has_failed() {
        return write_pieces(types, number, ty, value, out);
    }
    write_bytes(line.into_inner().text(), out)
}

/// Writes what follows the opening, in one piece if it has room.
pub fn write_rest_of_line<W: Write>(
    types: &Types,
    number: u64,
    ty: Ty,
    value: &Value,
    out: &mut Watched<W>,
)
    ensures { Writes W.contents out.old out.new (rest_of_line (decimal number
        ∷ message_text types.now record { ty = ty; value = value.now } ∷ [])) }
{
    match message_integer(ty, value) {
        Some(integer) => write_integer(number, integer, out),
        None => write_in_one_piece(types, number, ty, value, out),
    }
}

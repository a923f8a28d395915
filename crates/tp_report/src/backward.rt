//! Texts that are put together from the end, like the digits of a number.
ghost use Rattle.std.specs.Prelude.{◌≡◌, ◌+◌, ◌≤◌, ◌++◌, drop, length};
ghost use Rattle.std.specs.Fmt.{signed_decimal};

use itoa::write_digits;

pub fn put_bytes(bytes: &[u8], text: &mut [u8], end: usize) -> usize
    requires room { length bytes.now ≤ end }
    requires within { end ≤ length text.old }
    ensures start { result + length bytes.now ≡ end }
    ensures written { drop result text.new ≡ bytes.now ++ drop end text.old }
{
    let start = end - bytes.len();
    text[start..end].copy_from_slice(bytes);
    start
}

pub fn put_integer(number: i64, text: &mut [u8], end: usize) -> usize
    requires room { length (signed_decimal number) ≤ end }
    requires within { end ≤ length text.old }
    ensures start { result + length (signed_decimal number) ≡ end }
    ensures written { drop result text.new ≡ signed_decimal number ++ drop end text.old }
{
    // Not `abs`, which the least integer doesn't have.
    let start = write_digits(number.unsigned_abs(), text, end);
    if number >= 0 {
        return start;
    }
    put_bytes(b"-", text, start)
}

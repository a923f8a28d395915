//! A whole text, read within a limit.
ghost use Rattle.std.specs.Prelude.{◌≡◌, ◌≢◌, ◌+◌, ◌<◌, ◌≤◌, ◌^◌, Err, IfErr, IfOk, IfSome, OnErr, OnOk, drop, length};
ghost use Rattle.std.specs.Prelude.{take, vec_len};
ghost use Rattle.std.specs.Result.{result_err};
ghost use Rattle.std.specs.Io.KnownBytes.{Consumes, IsAtEnd, Keeps};
ghost use Rattle.tp_common.specs.declared.text.ReadFault.TheVariants as read_fault;
ghost use Rattle.tp_common.specs.Reading.{IsCapacity, IsRoom, TakesBytes, TakesWithin};
ghost use Rattle.tp_common.specs.Watching.{HasFailed, reader_left};

use crate::limit::TEXT_LIMIT;
use crate::watched::Watched;
use std::alloc::{AllocError, Global};
use std::io::{ErrorKind, Read};
use thiserror::Error;

const FIRST_READ: usize = 8_192;

/// Why a text was not read.
#[derive(Clone, Copy, Debug, PartialEq, Eq, Error)]
pub enum ReadFault {
    /// 2 Read: the reader returned an error.
    #[error("the text could not be read")]
    Read,
    /// 15 Limit: the text has more bytes than the limit.
    #[error("the text is too long")]
    Limit,
    /// 50 Memory: an allocation was refused.
    #[error("out of memory")]
    Memory,
}

/// Reads everything that the reader has, and at most one byte more than [`TEXT_LIMIT`]. 2 `Read` if
/// and only if the reader returns an error; an interrupted read is tried again. 15 `Limit` if there
/// are more bytes, as soon as one more is read. The fault that comes first is returned; bytes that
/// were read aren't put back.
pub fn read_text<R: Read>(alloc: Global, reader: &mut Watched<R>) -> Result<Vec<u8>, ReadFault>
    ensures whole { IfOk result (λ text.
        IfSome (reader_left R.remaining reader.old) (λ all. text.items ≡ all)) }
    ensures end { OnOk result (IsAtEnd (reader_left R.remaining reader.new)) }
    ensures short { IfOk result (λ text. length text.items ≤ 1048576) }
    ensures long { result ≡ Err read_fault.Limit
        → IfSome (reader_left R.remaining reader.old) (λ all. 1048576 < length all) }
    ensures taken { TakesBytes (reader_left R.remaining reader.old)
        (reader_left R.remaining reader.new) (result_err result) }
    ensures failed { result ≡ Err read_fault.Read → HasFailed reader.new }
{
    read_up_to(alloc, reader, TEXT_LIMIT)
}

/// Reads everything that the reader has, and at most one byte more than the limit. The faults are
/// those of [`read_text`], with this limit instead of its own.
pub fn read_within<R: Read>(
    alloc: Global,
    reader: &mut Watched<R>,
    limit: u32,
) -> Result<Vec<u8>, ReadFault>
    ensures whole { IfOk result (λ text.
        IfSome (reader_left R.remaining reader.old) (λ all. text.items ≡ all)) }
    ensures end { OnOk result (IsAtEnd (reader_left R.remaining reader.new)) }
    ensures short { IfOk result (λ text. length text.items ≤ limit) }
    ensures long { result ≡ Err read_fault.Limit
        → IfSome (reader_left R.remaining reader.old) (λ all. limit < length all) }
    ensures taken { TakesWithin limit (reader_left R.remaining reader.old)
        (reader_left R.remaining reader.new) (result_err result) }
    ensures failed { result ≡ Err read_fault.Read → HasFailed reader.new }
{
    read_up_to(alloc, reader, limit as usize)
}

fn read_up_to<R: Read>(
    alloc: Global,
    reader: &mut Watched<R>,
    limit: usize,
) -> Result<Vec<u8>, ReadFault>
    requires { limit < 2 ^ 62 }
    ensures whole { IfOk result (λ text.
        IfSome (reader_left R.remaining reader.old) (λ all. text.items ≡ all)) }
    ensures end { OnOk result (IsAtEnd (reader_left R.remaining reader.new)) }
    ensures short { IfOk result (λ text. length text.items ≤ limit) }
    ensures long { result ≡ Err read_fault.Limit
        → IfSome (reader_left R.remaining reader.old) (λ all. limit < length all) }
    ensures taken { TakesWithin limit (reader_left R.remaining reader.old)
        (reader_left R.remaining reader.new) (result_err result) }
    ensures failed { result ≡ Err read_fault.Read → HasFailed reader.new }
{
    let mut text = Vec::new(alloc);
    let mut size = 0;
    while size <= limit {
        match read_more(reader, &mut text, size, limit) {
            Ok(0) => {
                // `make_room` has filled the rest with zeros.
                text.truncate(size);
                return Ok(text);
            }
            Ok(count) => size += count,
            Err(fault) => return Err(fault),
        }
    }
    Err(ReadFault::Limit)
}

fn read_more<R: Read>(
    reader: &mut Watched<R>,
    text: &mut Vec<u8>,
    size: usize,
    limit: usize,
) -> Result<usize, ReadFault>
    requires limit { limit < 2 ^ 62 }
    requires size { size ≤ limit }
    requires within { size ≤ vec_len text.old }
    requires most { vec_len text.old ≤ limit + 1 }
    requires doubled { IsRoom limit (vec_len text.old) }
    ensures front { take size text.new.items ≡ take size text.old.items }
    ensures within { IfOk result (λ count. size + count ≤ vec_len text.new) }
    ensures most { vec_len text.new ≤ limit + 1 }
    ensures doubled { IsRoom limit (vec_len text.new) }
    ensures more { IfOk result (λ count. Consumes
        (reader_left R.remaining reader.old)
        (reader_left R.remaining reader.new)
        (take count (drop size text.new.items))) }
    ensures end { IfOk result (λ count. count ≡ 0 → IsAtEnd (reader_left R.remaining reader.new)) }
    ensures kept { OnErr result (Keeps (reader_left R.remaining reader.old)
        (reader_left R.remaining reader.new)) }
    ensures fault { IfErr result (λ fault. fault ≢ ReadFault.Limit) }
    ensures full { IfErr result (λ fault. fault ≡ ReadFault.Memory → IsCapacity size) }
    ensures failed { IfErr result (λ fault. fault ≡ ReadFault.Read → HasFailed reader.new) }
{
    if make_room(text, size, limit).is_err() {
        return Err(ReadFault::Memory);
    }
    read_behind(reader, text.as_mut_slice(), size)
}

fn read_behind<R: Read>(
    reader: &mut Watched<R>,
    text: &mut [u8],
    size: usize,
) -> Result<usize, ReadFault>
    requires { size < length text.old }
    ensures front { take size text.new ≡ take size text.old }
    ensures within { IfOk result (λ count. size + count ≤ length text.new) }
    ensures more { IfOk result (λ count. Consumes
        (reader_left R.remaining reader.old)
        (reader_left R.remaining reader.new)
        (take count (drop size text.new))) }
    ensures end { IfOk result (λ count. count ≡ 0 → IsAtEnd (reader_left R.remaining reader.new)) }
    ensures kept { OnErr result (Keeps (reader_left R.remaining reader.old)
        (reader_left R.remaining reader.new)) }
    ensures fault { IfErr result (λ fault. fault ≡ ReadFault.Read) }
    ensures failed { OnErr result (HasFailed reader.new) }
{
    read_again(reader, &mut text[size..])
}

fn read_again<R: Read>(reader: &mut Watched<R>, part: &mut [u8]) -> Result<usize, ReadFault>
    requires { 0 < length part.old }
    ensures within { IfOk result (λ count. count ≤ length part.new) }
    ensures more { IfOk result (λ count.
        Consumes (reader_left R.remaining reader.old)
        (reader_left R.remaining reader.new) (take count part.new)) }
    ensures end { IfOk result (λ count. count ≡ 0 → IsAtEnd (reader_left R.remaining reader.new)) }
    ensures kept { OnErr result (Keeps (reader_left R.remaining reader.old)
        (reader_left R.remaining reader.new)) }
    ensures fault { IfErr result (λ fault. fault ≡ ReadFault.Read) }
    ensures failed { OnErr result (HasFailed reader.new) }
{
    // An interrupted read is tried again.
    for _ in 0..u64::MAX {
        match reader.read(part) {
            Ok(count) => return Ok(count),
            Err(error) if error.kind() == ErrorKind::Interrupted => {}
            Err(_) => return Err(ReadFault::Read),
        }
    }
    // It was interrupted 18,446,744,073,709,551,615 times.
    reader.give_up();
    Err(ReadFault::Read)
}

fn make_room(text: &mut Vec<u8>, size: usize, limit: usize) -> Result<(), AllocError>
    requires limit { limit < 2 ^ 62 }
    requires size { size ≤ limit }
    requires within { size ≤ vec_len text.old }
    requires most { vec_len text.old ≤ limit + 1 }
    requires doubled { IsRoom limit (vec_len text.old) }
    ensures front { take size text.new.items ≡ take size text.old.items }
    ensures within { size ≤ vec_len text.new }
    ensures room { OnOk result (size < vec_len text.new) }
    ensures full { OnErr result (IsCapacity size) }
    ensures most { vec_len text.new ≤ limit + 1 }
    ensures doubled { IsRoom limit (vec_len text.new) }
{
    if size < text.len() {
        return Ok(());
    }
    text.resize(next_room(size, limit), 0)
}

fn next_room(size: usize, limit: usize) -> usize
    requires limit { limit < 2 ^ 62 }
    requires size { size ≤ limit }
    requires doubled { IsRoom limit size }
    ensures more { size < result }
    ensures most { result ≤ limit + 1 }
    ensures doubled { IsRoom limit result }
{
    // Doubled, so that all bytes are moved twice at most. One byte beyond the limit shows that a
    // text is longer.
    let more = if size == 0 { FIRST_READ } else { size * 2 };
    more.min(limit + 1)
}

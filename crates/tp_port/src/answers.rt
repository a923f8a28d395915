//! The texts of answers.
ghost use Rattle.std.specs.Prelude.{◌≡◌, ◌++◌, OnOk, string_bytes};
ghost use Rattle.std.specs.List.{flat_map};
ghost use Rattle.std.specs.Option.{option_copied, option_to_list};
ghost use Rattle.tp_port.specs.Replay.{counted_text, envelope_or_no, envelope_text, text_of_left};
ghost use Rattle.std.specs.Prelude.{slice_get};

use crate::senders::Senders;
use itoa::Buffer;
use tp_common::event::Env;
use tp_common::memory::Memory;
use tp_queue::queue::Queue;

pub fn write_count(out: &mut String, word: &str, count: u64) -> Result<(), Memory>
    ensures { OnOk result (string_bytes out.new ≡ string_bytes out.old
        ++ counted_text word.now count) }
{
    let mut buffer = Buffer::new();
    out.push_str(word)?;
    out.push_str(buffer.format(count))?;
    out.push_str("\n")?;
    Ok(())
}

pub fn write_envelope(out: &mut String, senders: &Senders<'_>, env: &Env<i64>) -> Result<(), Memory>
    ensures { OnOk result (string_bytes out.new ≡ string_bytes out.old
        ++ envelope_text senders.now env.now) }
{
    let mut buffer = Buffer::new();
    out.push_str(senders.name(env.sender))?;
    out.push_str(" ")?;
    out.push_str(buffer.format(env.msg))?;
    out.push_str("\n")?;
    Ok(())
}

/// Adds the word and the envelope, or `no` if there is none.
pub fn write_envelope_or_no(
    out: &mut String,
    senders: &Senders<'_>,
    word: &str,
    env: Option<&Env<i64>>,
) -> Result<(), Memory>
    ensures { OnOk result (string_bytes out.new ≡ string_bytes out.old
        ++ envelope_or_no senders.now word.now (option_copied env.entry)) }
{
    match env {
        None => out.push_str("no\n")?,
        Some(env) => {
            out.push_str(word)?;
            write_envelope(out, senders, env)?;
        }
    }
    Ok(())
}

fn write_queued(
    out: &mut String,
    senders: &Senders<'_>,
    queue: &Queue<i64>,
    place: u64,
) -> Result<(), Memory>
    ensures { OnOk result (string_bytes out.new ≡ string_bytes out.old ++ flat_map
        (envelope_text senders.now)
        (option_to_list (slice_get queue.now.entries place))) }
{
    match queue.queued_at(place) {
        None => Ok(()),
        Some(env) => write_envelope(out, senders, env),
    }
}

/// Adds the messages left in the queue.
pub fn write_left(out: &mut String, senders: &Senders<'_>, queue: &Queue<i64>) -> Result<(), Memory>
    ensures { OnOk result (string_bytes out.new ≡ string_bytes out.old
        ++ text_of_left senders.now queue.now.entries) }
{
    let count = queue.queued_len();
    write_count(out, "left ", count)?;
    for place in 0..count {
        write_queued(out, senders, queue, place)?;
    }
    Ok(())
}

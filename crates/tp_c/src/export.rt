//! The functions that C calls. A port is memory of the caller, of [`tp_port_size`] bytes; the
//! caller doesn't look into it.
//!
//! Each function except the first two needs the address of a port, or of room for one, which
//! nothing else uses during the call. The caller is responsible for this: nothing checks a program
//! in C.
ghost use Rattle.std.specs.Prelude.{ℕ, []};
ghost use types.Logic.{sem};
ghost use Rattle.tp_queue.specs.Queues.{QueueState, StandsFor};
ghost use Rattle.tp_c.specs.Calls.{Ahead, Arrived, Checked, Cleared, Halted, Length, Placed, Port, Received, Room};
ghost use Rattle.tp_c.specs.Calls.{Started, StatusIs, Stopped, Triggered};

use crate::port;
use crate::port::Answer;
use std::alloc::Global;
use std::mem::{align_of, size_of};
use tp_queue::queue::Queue;

/// The object at an address of the caller: a `Queue<u64>`, or room for one.
pub struct Opaque {
    byte: u8,
}

/// The size of a port in bytes.
#[unsafe(no_mangle)]
pub extern "C" fn tp_port_size() -> usize {
    size_of::<Queue<u64>>()
}

/// The address of a port is a multiple of this many bytes.
#[unsafe(no_mangle)]
pub extern "C" fn tp_port_align() -> usize {
    align_of::<Queue<u64>>()
}

/// Makes a started port with an empty queue, in room of the caller. It doesn't allocate.
#[unsafe(no_mangle)]
pub unsafe extern "C" fn tp_port_init(alloc: Global, port: *mut Opaque)
    requires* { sem 𝓛 (Room port) }
    ensures* { ∃ₛ (λ (after : QueueState ℕ). sem 𝓛 (Port port after) ∗ ⌜ StandsFor after [] ⌝) }
{
    (port as *mut Queue<u64>).write(port::new(alloc));
}

/// Frees the memory of a port, and leaves room for one. Its messages are numbers, and are lost: if
/// they stand for something that the caller owns, the caller frees that first.
#[unsafe(no_mangle)]
pub unsafe extern "C" fn tp_port_drop(port: *mut Opaque)
    ghost q: { QueueState ℕ }
    requires* { sem 𝓛 (Port port q) }
    ensures* { sem 𝓛 (Room port) }
{
    port::let_go((port as *mut Queue<u64>).read());
}

/// Puts a message at the end of the queue, whatever the status. Returns false if memory was
/// refused, and then nothing has happened. `number` is only kept.
#[unsafe(no_mangle)]
pub unsafe extern "C" fn tp_port_arrive(
    port: *mut Opaque,
    sender: u32,
    number: u64,
    message: u64,
) -> bool
    ghost q: { QueueState ℕ }
    requires* { sem 𝓛 (Port port q) }
    ensures* { ∃ₛ (λ (after : QueueState ℕ). sem 𝓛 (Port port after) ∗ ⌜ Arrived q sender number message result after ⌝) }
{
    port::arrive(&mut *(port as *mut Queue<u64>), sender, number, message)
}

/// Takes the top message out if it is deliverable, `fits`, and it comes from `from`, if `named`.
/// Otherwise nothing happens.
#[unsafe(no_mangle)]
pub unsafe extern "C" fn tp_port_receive(
    port: *mut Opaque,
    named: bool,
    from: u32,
    fits: bool,
) -> Answer
    ghost q: { QueueState ℕ }
    requires* { sem 𝓛 (Port port q) }
    ensures* { ∃ₛ (λ (after : QueueState ℕ). sem 𝓛 (Port port after) ∗ ⌜ Received q named from fits result after ⌝) }
{
    port::receive(&mut *(port as *mut Queue<u64>), named, from, fits)
}

/// Takes the top message out if it is deliverable. It is received by the same test as in
/// [`tp_port_receive`], and else discarded.
#[unsafe(no_mangle)]
pub unsafe extern "C" fn tp_port_trigger(
    port: *mut Opaque,
    named: bool,
    from: u32,
    fits: bool,
) -> Answer
    ghost q: { QueueState ℕ }
    requires* { sem 𝓛 (Port port q) }
    ensures* { ∃ₛ (λ (after : QueueState ℕ). sem 𝓛 (Port port after) ∗ ⌜ Triggered q named from fits result after ⌝) }
{
    port::trigger(&mut *(port as *mut Queue<u64>), named, from, fits)
}

/// Finds the top message by the same test as [`tp_port_receive`], and leaves it.
#[unsafe(no_mangle)]
pub unsafe extern "C" fn tp_port_check(
    port: *mut Opaque,
    named: bool,
    from: u32,
    fits: bool,
) -> Answer
    ghost q: { QueueState ℕ }
    requires* { sem 𝓛 (Port port q) }
    ensures* { ∃ₛ (λ (after : QueueState ℕ). sem 𝓛 (Port port after) ∗ ⌜ Checked q named from fits result after ⌝) }
{
    port::check(&mut *(port as *mut Queue<u64>), named, from, fits)
}

/// Empties the queue and starts the port. Returns how many messages were discarded.
#[unsafe(no_mangle)]
pub unsafe extern "C" fn tp_port_start(port: *mut Opaque) -> u64
    ghost q: { QueueState ℕ }
    requires* { sem 𝓛 (Port port q) }
    ensures* { ∃ₛ (λ (after : QueueState ℕ). sem 𝓛 (Port port after) ∗ ⌜ Started q result after ⌝) }
{
    port::start(&mut *(port as *mut Queue<u64>))
}

/// Empties the queue, and leaves the status. Returns how many messages were discarded.
#[unsafe(no_mangle)]
pub unsafe extern "C" fn tp_port_clear(port: *mut Opaque) -> u64
    ghost q: { QueueState ℕ }
    requires* { sem 𝓛 (Port port q) }
    ensures* { ∃ₛ (λ (after : QueueState ℕ). sem 𝓛 (Port port after) ∗ ⌜ Cleared q result after ⌝) }
{
    port::clear(&mut *(port as *mut Queue<u64>))
}

/// Stops the port, and leaves the queue. Returns how many messages are queued.
#[unsafe(no_mangle)]
pub unsafe extern "C" fn tp_port_stop(port: *mut Opaque) -> u64
    ghost q: { QueueState ℕ }
    requires* { sem 𝓛 (Port port q) }
    ensures* { ∃ₛ (λ (after : QueueState ℕ). sem 𝓛 (Port port after) ∗ ⌜ Stopped q result after ⌝) }
{
    port::stop(&mut *(port as *mut Queue<u64>))
}

/// Halts a started port: later arrivals aren't deliverable. On any other port it has no effect, and
/// returns false.
#[unsafe(no_mangle)]
pub unsafe extern "C" fn tp_port_halt(port: *mut Opaque) -> bool
    ghost q: { QueueState ℕ }
    requires* { sem 𝓛 (Port port q) }
    ensures* { ∃ₛ (λ (after : QueueState ℕ). sem 𝓛 (Port port after) ∗ ⌜ Halted q result after ⌝) }
{
    port::halt(&mut *(port as *mut Queue<u64>))
}

/// Returns the number of deliverable messages.
#[unsafe(no_mangle)]
pub unsafe extern "C" fn tp_port_ahead(port: *mut Opaque) -> u64
    ghost q: { QueueState ℕ }
    requires* { sem 𝓛 (Port port q) }
    ensures* { ∃ₛ (λ (after : QueueState ℕ). sem 𝓛 (Port port after) ∗ ⌜ Ahead q result after ⌝) }
{
    port::ahead(&mut *(port as *mut Queue<u64>))
}

/// Returns the number of queued messages.
#[unsafe(no_mangle)]
pub unsafe extern "C" fn tp_port_len(port: *mut Opaque) -> u64
    ghost q: { QueueState ℕ }
    requires* { sem 𝓛 (Port port q) }
    ensures* { ∃ₛ (λ (after : QueueState ℕ). sem 𝓛 (Port port after) ∗ ⌜ Length q result after ⌝) }
{
    port::len(&mut *(port as *mut Queue<u64>))
}

/// Returns the message at this place of the queue, deliverable or not, with the oldest at 0. If
/// there are no more, the answer is empty.
#[unsafe(no_mangle)]
pub unsafe extern "C" fn tp_port_at(port: *mut Opaque, place: u64) -> Answer
    ghost q: { QueueState ℕ }
    requires* { sem 𝓛 (Port port q) }
    ensures* { ∃ₛ (λ (after : QueueState ℕ). sem 𝓛 (Port port after) ∗ ⌜ Placed q place result after ⌝) }
{
    port::at(&mut *(port as *mut Queue<u64>), place)
}

/// Returns 0 if the port is started, 1 if it is halted, 2 if it is stopped.
#[unsafe(no_mangle)]
pub unsafe extern "C" fn tp_port_status(port: *mut Opaque) -> u32
    ghost q: { QueueState ℕ }
    requires* { sem 𝓛 (Port port q) }
    ensures* { ∃ₛ (λ (after : QueueState ℕ). sem 𝓛 (Port port after) ∗ ⌜ StatusIs q result after ⌝) }
{
    port::status(&mut *(port as *mut Queue<u64>))
}

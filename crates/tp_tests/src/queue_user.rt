//! The queue of a port in another executor. A counter takes orders, which are texts. Its port is
//! halted when it closes: what was ordered before is still served, and what comes later is not. It
//! uses only `tp_queue` and `tp_common`.
ghost use Rattle.std.specs.Prelude.{◌≡◌, ◌≤◌, ◌∷◌, ◌++◌, [], OnErr, OnOk};
ghost use Rattle.std.specs.String.{string_len};
ghost use Rattle.tp_common.specs.declared.event.Event.TheVariants as event;
ghost use Rattle.tp_queue.specs.Queues.{AtHistory, StandsFor};

use std::alloc::{AllocError, Global};
use tp_common::event::Env;
use tp_common::memory::Memory;
use tp_common::payload::Wanted;
use tp_queue::queue::Queue;

/// Matches each order of at least so many bytes.
struct AtLeast {
    bytes: usize,
}

impl Wanted<String> for AtLeast {
    ghost admits = { λ wanted msg. wanted.bytes ≤ string_len msg };

    fn admits(&self, msg: &String) -> bool {
        msg.len() >= self.bytes
    }
}

/// Queues an order. If memory runs out, the queue is as before.
fn order(queue: &mut Queue<String>, env: Env<String>) -> Result<(), Memory>
    ensures ok { OnOk result (AtHistory queue.old (λ h.
        StandsFor queue.new (h ++ event.Arrive env ∷ []))) }
    ensures err { OnErr result (queue.new ≡ queue.old) }
{
    match queue.arrive(env) {
        Ok(()) => Ok(()),
        Err((memory, _)) => Err(memory),
    }
}

/// An order of a guest at this table.
fn env(alloc: Global, table: u32, number: u64, text: &str) -> Result<Env<String>, AllocError> {
    let msg = String::from_str(alloc, text)?;
    Ok(Env {
        sender: table,
        number,
        msg,
    })
}

/// Serves the orders of a table until the top message is another table's or can't be received.
fn serve(queue: &mut Queue<String>, table: u32, bill: &mut String) -> Result<(), AllocError> {
    for _ in 0..queue.queued_len() {
        match queue.receive(&AtLeast { bytes: 4 }, Some(table)) {
            Some(env) => writeln!(bill, "table {table}: {}", env.msg)?,
            None => break,
        }
    }
    writeln!(bill, "left: {}", queue.queued_len())
}

/// What two tables are served, a line each.
pub fn served(alloc: Global) -> Result<String, Memory> {
    let mut bill = String::new(alloc);
    let mut queue = Queue::new(alloc);
    order(&mut queue, env(alloc, 7, 0, "soup of the day")?)?;
    order(&mut queue, env(alloc, 8, 0, "bread")?)?;
    queue.halt();
    order(&mut queue, env(alloc, 7, 1, "more soup")?)?;
    serve(&mut queue, 7, &mut bill)?;
    serve(&mut queue, 8, &mut bill)?;
    Ok(bill)
}

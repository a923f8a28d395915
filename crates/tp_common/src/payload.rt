//! The requirements on the messages of a history, and on what a receiving operation wants.
ghost use Rattle.std.specs.Prelude.{◌≡◌, ◌↔◌, IfOk, IsTrue};
ghost use Rattle.tp_common.specs.Criteria.{Satisfies};

use crate::event::Env;
use crate::memory::Memory;
use std::alloc::Global;

/// A message that can be copied, unless memory runs out. A program that keeps a history beside a
/// queue copies each message that arrived, was taken, found or dropped. A queue alone takes any
/// message.
pub trait Payload: Drop {
    /// A copy, which equals the original. 50 `Memory` only if an allocation was refused.
    fn copy(&self, alloc: Global) -> Result<Self, Memory>
        ensures { IfOk result (λ twin. twin ≡ self.now) };
}

/// An integer of 64 signed bits, as in a queue file. Its copy doesn't allocate.
impl Payload for i64 {
    fn copy(&self, _alloc: Global) -> Result<i64, Memory> {
        Ok(*self)
    }
}

impl<M: Payload> Env<M> {
    /// A copy, which equals the original. 50 `Memory` only if the message's copy was refused.
    pub fn copy(&self, alloc: Global) -> Result<Env<M>, Memory>
        ensures { IfOk result (λ twin. twin ≡ self.now) }
    {
        Ok(Env {
            sender: self.sender,
            number: self.number,
            msg: self.msg.copy(alloc)?,
        })
    }
}

impl<M> Env<M> {
    /// Returns whether a receiving operation for `wanted` and `from` succeeds with this envelope:
    /// the message is wanted, and it comes from the named sender, if one is named (22.2.2).
    pub fn satisfies<W: Wanted<M>>(&self, wanted: &W, from: Option<u32>) -> bool
        ensures { IsTrue result ↔ Satisfies (W.admits wanted.now) from self.now }
    {
        let named = match from {
            None => true,
            Some(sender) => self.sender == sender,
        };
        named && wanted.admits(&self.msg)
    }
}

/// The template of a receiving operation, or anything else that says which messages are wanted (ES
/// 201 873-1, 22.2.2: the matching criteria).
pub trait Wanted<M> {
    /// The messages that are wanted: the definition that an implementation names.
    ghost admits: { Self → M → Type 0 };

    /// Returns whether the message is wanted. It doesn't allocate.
    fn admits(&self, msg: &M) -> bool
        ensures { IsTrue result ↔ admits self.now msg.now };
}

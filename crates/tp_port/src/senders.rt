//! The senders of a queue file.
ghost use Rattle.std.specs.Prelude.{◌≡◌, ◌+◌, ◌<◌, ◌≤◌, ◌^◌, [], length, IfOk, OnOk};
ghost use Rattle.tp_port.specs.Replay.{sender_name, sender_number, with_sender, seen_if};
ghost use Rattle.std.specs.Option.{option_copied, option_map};

use indexmap::IndexSet;
use std::alloc::Global;
use std::marker::Model;
use tp_common::memory::Memory;

/// The names of senders, numbered from 0 by first occurrence. Each name is a slice of the text.
#[derive(Drop)]
pub struct Senders<'t> {
    names: IndexSet<&'t str>,
}

impl<'t> Model for Senders<'t> {
    ghost use Rattle.std.specs.Prelude.{ℕ, List, map};

    ghost Value = { List (List ℕ) };

    ghost view = { λ s. map (λ name. name.now) s.names.keys };
}

impl<'t> Senders<'t> {
    pub fn new(alloc: Global) -> Senders<'t>
        ensures { result ≡ [] }
    {
        Senders {
            names: IndexSet::new(alloc),
        }
    }

    /// The number of the sender with this name, which is known from now on.
    pub fn number(&mut self, name: &'t str) -> Result<u32, Memory>
        requires { length self.old < 2 ^ 32 }
        ensures seen { OnOk result (self.new ≡ with_sender self.old name.now) }
        ensures number { IfOk result (λ number. number ≡ sender_number self.new name.now) }
        ensures few { OnOk result (length self.new ≤ length self.old + 1) }
    {
        let (number, _) = self.names.insert_full(name)?;
        Ok(number as u32)
    }

    /// The number of the wanted sender, if one is named; it is known from now on.
    pub fn wanted(&mut self, from: Option<&'t str>) -> Result<Option<u32>, Memory>
        requires { length self.old < 2 ^ 32 }
        ensures seen { OnOk result (self.new ≡ seen_if self.old (option_copied from.entry)) }
        ensures number { IfOk result (λ number.
            number ≡ option_map (sender_number self.new) (option_copied from.entry)) }
        ensures few { OnOk result (length self.new ≤ length self.old + 1) }
    {
        match from {
            None => Ok(None),
            Some(name) => {
                // A name that has sent nothing gets a number too, which no message has.
                let number = self.number(name)?;
                Ok(Some(number))
            }
        }
    }

    /// The name of the sender of this number.
    pub fn name(&self, number: u32) -> &str
        ensures { result.now ≡ sender_name self.now number }
    {
        match self.names.get_index(number as usize) {
            Some(name) => name,
            None => "",
        }
    }
}

//! Words of a text, each with a number.
ghost use Rattle.std.specs.Prelude.{◌≡◌, ◌≢◌, ◌+◌, ◌<◌, ◌≤◌, ◌∷◌, ◌++◌, ◌↔◌, [], AllPairs, Contains, IfOk, IsSome};
ghost use Rattle.std.specs.Prelude.{MatchBool, OnErr, OnOk, Some, length, slice_get};
ghost use Rattle.tp_judge.specs.Kept.{AddsOnly, Keeps};

use crate::referee::numbers::number_of;
use indexmap::IndexSet;
use std::alloc::Global;
use std::marker::Model;
use tp_common::memory::Memory;

/// Words, no two of them equal, numbered from 0 by first occurrence. Each is a slice of the text.
pub struct NumberedWords<'t> {
    words: IndexSet<&'t [u8]>,
}

impl Drop for NumberedWords<'_> {
    // Written out, so that the drop of an owner calls this one and proves no drop of the parts.
    fn drop(self) {
        let NumberedWords { words } = self;
        drop(words);
    }
}

impl<'t> Model for NumberedWords<'t> {
    ghost use Rattle.std.specs.Prelude.{ℕ, List, map};

    ghost Value = { List (List ℕ) };

    ghost view = { λ s. map (λ word. word.now) s.words.keys };
}

impl<'t> NumberedWords<'t> {
    ghost use Rattle.tp_judge.specs.Tree.{section_named};

    pub fn new(alloc: Global) -> NumberedWords<'t>
        ensures { result ≡ [] }
    {
        NumberedWords {
            words: IndexSet::new(alloc),
        }
    }

    pub fn len(&self) -> usize
        ensures count { result ≡ length self.now }
        ensures distinct { AllPairs (λ a b. a ≢ b) self.now }
    {
        self.words.len()
    }

    pub fn find(&self, word: &[u8]) -> Option<usize>
        ensures place { result ≡ section_named self.now word.now }
        ensures known { IsSome result ↔ Contains self.now word.now }
    {
        match self.words.get_index_of(word) {
            Some(place) => Some(place),
            None => None,
        }
    }

    /// Returns whether the word is new.
    pub fn add(&mut self, word: &'t [u8]) -> Result<bool, Memory>
        ensures added { IfOk result (λ added. MatchBool added
            (¬ Contains self.old word.now × (self.new ≡ self.old ++ word.now ∷ []))
            (Contains self.old word.now)) }
        ensures err { OnErr result (self.new ≡ self.old) }
    {
        let Ok((_, added)) = self.words.insert_full(word) else {
            return Err(Memory);
        };
        Ok(added)
    }

    pub fn number(&mut self, word: &'t [u8]) -> Result<u32, Memory>
        requires { length self.old < 4294967296 }
        ensures there { IfOk result (λ number. slice_get self.new number ≡ Some word.now) }
        ensures kept { OnOk result (Keeps self.old self.new) }
        ensures few { OnOk result (length self.new ≤ length self.old + 1) }
        ensures others { OnOk result (AddsOnly self.old word.now self.new) }
        ensures err { OnErr result (self.new ≡ self.old) }
    {
        number_of(&mut self.words, word)
    }
}

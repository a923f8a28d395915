//! Values.
ghost use Rattle.std.specs.Prelude.{◌≡◌, ◌<◌, ◌≤◌, ◌∷◌, [], IfOk, OnOk, drop, length, map};
ghost use Rattle.tp_syntax.specs.Item.{rule};
ghost use Rattle.tp_syntax.specs.Rule.{a_value, a_value_field, more_value_fields, more_values, unnamed_value};
ghost use Rattle.tp_syntax.specs.Rule.{value_entries};
ghost use Rattle.tp_syntax.specs.Parsing.{Parses};
ghost use Rattle.tp_syntax.specs.Reading.{chain};
ghost use Rattle.tp_syntax.specs.ValueTrees.{IsBraced, IsUnnamed, field_tree, inside_tree, unnamed_tree, value_tree};

use crate::cursor::Parser;
use crate::stuck::Stuck;
use crate::token::Symbol;
use crate::word::Word;
use std::alloc::Global;
use tp_tree::message::{Value, ValueField};
use tp_value::items::Items;

impl<'a, 't> Parser<'a, 't> {
    #[cycle(value)]
    #[tactic(auto, using(crate::proofs::ValueTrees::value_parsing))]
    pub fn value(&mut self, alloc: Global) -> Result<Value, Stuck>
        ensures parses { Parses (rule a_value) value_tree self.old result self.new }
        ensures shorter { OnOk result (length self.new.rest.now < length self.old.rest.now) }
    {
        if self.is_name() {
            let name = self.name(alloc)?;
            return Ok(Value::Name(name));
        }
        self.unnamed_value(alloc)
    }

    #[cycle(value)]
    #[tactic(auto, using(crate::proofs::ValueTrees::value_parsing))]
    fn unnamed_value(&mut self, alloc: Global) -> Result<Value, Stuck>
        ensures parses { Parses (rule unnamed_value) unnamed_tree self.old result self.new }
        ensures whole { IfOk result IsUnnamed }
        ensures shorter { OnOk result (length self.new.rest.now < length self.old.rest.now) }
    {
        if self.is_integer() {
            let value = self.integer()?;
            return Ok(Value::Int(value));
        }
        if self.is_word(Word::True) {
            self.pass_word(Word::True);
            return Ok(Value::Bool(true));
        }
        if self.is_word(Word::False) {
            self.pass_word(Word::False);
            return Ok(Value::Bool(false));
        }
        if self.is_text() {
            let characters = self.text(alloc)?;
            return Ok(Value::Text(characters));
        }
        self.symbol(Symbol::LeftBrace)?;
        self.value_entries(alloc)
    }

    #[cycle(value)]
    #[tactic(auto, using(crate::proofs::ValueTrees::value_parsing))]
    fn value_entries(&mut self, alloc: Global) -> Result<Value, Stuck>
        ensures parses { Parses (rule value_entries) inside_tree self.old result self.new }
        ensures whole { IfOk result IsBraced }
        ensures shorter { OnOk result (length self.new.rest.now < length self.old.rest.now) }
    {
        if self.is_symbol(Symbol::RightBrace) {
            self.pass_symbol(Symbol::RightBrace);
            return Ok(Value::List(Items::new(alloc)));
        }
        if self.is_name() {
            let name = self.name(alloc)?;
            if self.is_symbol(Symbol::Assign) {
                self.pass_symbol(Symbol::Assign);
                let value = self.value(alloc)?;
                let fields = self.more_value_fields(alloc, ValueField { name, value })?;
                self.symbol(Symbol::RightBrace)?;
                return Ok(Value::Record(fields));
            }
            let values = self.more_values(alloc, Value::Name(name))?;
            self.symbol(Symbol::RightBrace)?;
            return Ok(Value::List(values));
        }
        let first = self.unnamed_value(alloc)?;
        let values = self.more_values(alloc, first)?;
        self.symbol(Symbol::RightBrace)?;
        Ok(Value::List(values))
    }

    #[cycle(value)]
    #[tactic(auto, using(crate::proofs::ValueTrees::value_parsing))]
    fn more_values(&mut self, alloc: Global, first: Value) -> Result<Items<Value>, Stuck>
        ensures parses { Parses (rule more_values)
            (λ vs. chain more_values (map value_tree (drop 1 vs))) self.old result self.new }
        ensures begins { IfOk result (λ vs. vs ≡ first ∷ drop 1 vs) }
        ensures shorter { OnOk result (length self.new.rest.now ≤ length self.old.rest.now) }
    {
        let mut values = Items::new(alloc);
        values.push(first)?;
        'more: while self.is_symbol(Symbol::Comma) {
            self.pass_symbol(Symbol::Comma);
            let next = self.value(alloc)?;
            values.push(next)?;
        }
        Ok(values)
    }

    #[cycle(value)]
    #[tactic(auto, using(crate::proofs::ValueTrees::value_parsing))]
    fn more_value_fields(
        &mut self,
        alloc: Global,
        first: ValueField,
    ) -> Result<Items<ValueField>, Stuck>
        ensures parses { Parses (rule more_value_fields)
            (λ fs. chain more_value_fields (map field_tree (drop 1 fs))) self.old result self.new }
        ensures begins { IfOk result (λ fs. fs ≡ first ∷ drop 1 fs) }
        ensures shorter { OnOk result (length self.new.rest.now ≤ length self.old.rest.now) }
    {
        let mut fields = Items::new(alloc);
        fields.push(first)?;
        'more: while self.is_symbol(Symbol::Comma) {
            self.pass_symbol(Symbol::Comma);
            let next = self.value_field(alloc)?;
            fields.push(next)?;
        }
        Ok(fields)
    }

    #[cycle(value)]
    #[tactic(auto, using(crate::proofs::ValueTrees::value_parsing))]
    fn value_field(&mut self, alloc: Global) -> Result<ValueField, Stuck>
        ensures parses { Parses (rule a_value_field) field_tree self.old result self.new }
        ensures shorter { OnOk result (length self.new.rest.now < length self.old.rest.now) }
    {
        let name = self.name(alloc)?;
        self.symbol(Symbol::Assign)?;
        let value = self.value(alloc)?;
        Ok(ValueField { name, value })
    }
}

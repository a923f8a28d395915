//! Templates.
ghost use Rattle.std.specs.Prelude.{◌≡◌, ◌<◌, ◌≤◌, ◌∷◌, [], IfOk, OnOk, drop, length, map};
ghost use Rattle.tp_syntax.specs.Item.{rule};
ghost use Rattle.tp_syntax.specs.Rule.{a_template, a_template_field, after_minus, after_number, an_integer};
ghost use Rattle.tp_syntax.specs.Rule.{counted_template, in_parentheses, more_template_fields, more_templates};
ghost use Rattle.tp_syntax.specs.Rule.{other_template, template_entries, uncounted_template, upper};
ghost use Rattle.tp_syntax.specs.Reading.{more, chain, of, one, sym};
ghost use Rattle.tp_syntax.specs.Parsing.{Parses};
ghost use Rattle.tp_syntax.specs.TemplateTrees.{IsCounted, IsInside, IsOther, IsUncounted, after_minus_tree};
ghost use Rattle.tp_syntax.specs.TemplateTrees.{after_number_tree, counted_tree, field_tree, inside_tree, integer_tree};
ghost use Rattle.tp_syntax.specs.TemplateTrees.{number_inside, other_tree, template_tree, uncounted_tree, upper_tree};

use crate::cursor::Parser;
use crate::stuck::Stuck;
use crate::token::Symbol;
use crate::word::Word;
use std::alloc::Global;
use tp_tree::message::{Template, TemplateField};
use tp_value::items::Items;

impl<'a, 't> Parser<'a, 't> {
    #[tactic(auto, using(crate::proofs::TemplateTrees::template_parsing))]
    pub fn integer(&mut self) -> Result<i64, Stuck>
        ensures parses { Parses (rule an_integer) integer_tree self.old result self.new }
        ensures shorter { OnOk result (length self.new.rest.now < length self.old.rest.now) }
    {
        if self.is_symbol(Symbol::Minus) {
            self.pass_symbol(Symbol::Minus);
            return self.negated();
        }
        self.positive()
    }

    fn upper(&mut self) -> Result<Option<i64>, Stuck>
        ensures parses { Parses (rule upper) upper_tree self.old result self.new }
        ensures shorter { OnOk result (length self.new.rest.now < length self.old.rest.now) }
    {
        if self.is_word(Word::Infinity) {
            self.pass_word(Word::Infinity);
            return Ok(None);
        }
        let bound = self.integer()?;
        Ok(Some(bound))
    }

    #[cycle(template)]
    #[tactic(auto, using(crate::proofs::TemplateTrees::template_parsing))]
    pub fn template(&mut self, alloc: Global) -> Result<Template, Stuck>
        ensures parses { Parses (rule a_template) template_tree self.old result self.new }
        ensures shorter { OnOk result (length self.new.rest.now < length self.old.rest.now) }
    {
        if self.is_integer() {
            let value = self.integer()?;
            return Ok(Template::Int(value));
        }
        self.uncounted(alloc)
    }

    #[cycle(template)]
    #[tactic(auto, using(crate::proofs::TemplateTrees::template_parsing))]
    fn uncounted(&mut self, alloc: Global) -> Result<Template, Stuck>
        ensures parses { Parses (rule uncounted_template) uncounted_tree self.old result self.new }
        ensures whole { IfOk result IsUncounted }
        ensures shorter { OnOk result (length self.new.rest.now < length self.old.rest.now) }
    {
        if self.is_name() {
            let name = self.name(alloc)?;
            return Ok(Template::Name(name));
        }
        self.other(alloc)
    }

    #[cycle(template)]
    #[tactic(auto, using(crate::proofs::TemplateTrees::template_parsing))]
    fn counted(&mut self, alloc: Global) -> Result<Template, Stuck>
        ensures parses { Parses (rule counted_template) counted_tree self.old result self.new }
        ensures whole { IfOk result IsCounted }
        ensures shorter { OnOk result (length self.new.rest.now < length self.old.rest.now) }
    {
        if self.is_integer() {
            let value = self.integer()?;
            return Ok(Template::Int(value));
        }
        self.other(alloc)
    }

    #[cycle(template)]
    #[tactic(auto, using(crate::proofs::TemplateTrees::template_parsing))]
    fn other(&mut self, alloc: Global) -> Result<Template, Stuck>
        ensures parses { Parses (rule other_template) other_tree self.old result self.new }
        ensures whole { IfOk result IsOther }
        ensures shorter { OnOk result (length self.new.rest.now < length self.old.rest.now) }
    {
        if self.is_word(Word::True) {
            self.pass_word(Word::True);
            return Ok(Template::Bool(true));
        }
        if self.is_word(Word::False) {
            self.pass_word(Word::False);
            return Ok(Template::Bool(false));
        }
        if self.is_text() {
            let characters = self.text(alloc)?;
            return Ok(Template::Text(characters));
        }
        if self.is_symbol(Symbol::Question) {
            self.pass_symbol(Symbol::Question);
            return Ok(Template::Any);
        }
        if self.is_symbol(Symbol::Star) {
            self.pass_symbol(Symbol::Star);
            return Ok(Template::AnyOrNone);
        }
        if self.is_symbol(Symbol::LeftParen) {
            self.pass_symbol(Symbol::LeftParen);
            return self.parenthesised(alloc);
        }
        if self.is_word(Word::Complement) {
            self.pass_word(Word::Complement);
            self.symbol(Symbol::LeftParen)?;
            let first = self.template(alloc)?;
            let templates = self.more_templates(alloc, first)?;
            self.symbol(Symbol::RightParen)?;
            return Ok(Template::Complement(templates));
        }
        if self.is_word(Word::Pattern) {
            self.pass_word(Word::Pattern);
            let characters = self.pattern(alloc)?;
            return Ok(Template::Pattern(characters));
        }
        self.symbol(Symbol::LeftBrace)?;
        self.entries(alloc)
    }

    #[cycle(template)]
    #[tactic(auto, using(crate::proofs::TemplateTrees::template_parsing))]
    fn parenthesised(&mut self, alloc: Global) -> Result<Template, Stuck>
        ensures parses { Parses (rule in_parentheses) inside_tree self.old result self.new }
        ensures whole { IfOk result (λ t. IsInside Symbol.LeftParen (inside_tree t) t) }
        ensures shorter { OnOk result (length self.new.rest.now < length self.old.rest.now) }
    {
        if self.is_symbol(Symbol::Minus) {
            self.pass_symbol(Symbol::Minus);
            let template = self.after_minus(alloc)?;
            return Ok(template);
        }
        if self.is_number() {
            let first = self.positive()?;
            return self.after_number(alloc, first);
        }
        let first = self.uncounted(alloc)?;
        let templates = self.more_templates(alloc, first)?;
        self.symbol(Symbol::RightParen)?;
        Ok(Template::OneOf(templates))
    }

    #[cycle(template)]
    #[tactic(auto, using(crate::proofs::TemplateTrees::template_parsing))]
    fn after_minus(&mut self, alloc: Global) -> Result<Template, Stuck>
        ensures parses { Parses (rule after_minus) after_minus_tree self.old result self.new }
        ensures whole { IfOk result (λ t. IsInside Symbol.LeftParen
            (of in_parentheses (more (sym Symbol.Minus) (one (after_minus_tree t)))) t) }
        ensures shorter { OnOk result (length self.new.rest.now < length self.old.rest.now) }
    {
        if self.is_word(Word::Infinity) {
            self.pass_word(Word::Infinity);
            self.symbol(Symbol::DotDot)?;
            let high = self.upper()?;
            self.symbol(Symbol::RightParen)?;
            return Ok(Template::Range(None, high));
        }
        let first = self.negated()?;
        self.after_number(alloc, first)
    }

    #[cycle(template)]
    #[tactic(auto, using(crate::proofs::TemplateTrees::template_parsing))]
    fn after_number(&mut self, alloc: Global, first: i64) -> Result<Template, Stuck>
        ensures parses { Parses (rule after_number) (after_number_tree first)
            self.old result self.new }
        ensures whole { IfOk result (λ t. IsInside Symbol.LeftParen
            (number_inside first (after_number_tree first t)) t) }
        ensures shorter { OnOk result (length self.new.rest.now < length self.old.rest.now) }
    {
        if self.is_symbol(Symbol::DotDot) {
            self.pass_symbol(Symbol::DotDot);
            let high = self.upper()?;
            self.symbol(Symbol::RightParen)?;
            return Ok(Template::Range(Some(first), high));
        }
        let templates = self.more_templates(alloc, Template::Int(first))?;
        self.symbol(Symbol::RightParen)?;
        Ok(Template::OneOf(templates))
    }

    #[cycle(template)]
    #[tactic(auto, using(crate::proofs::TemplateTrees::template_parsing))]
    fn entries(&mut self, alloc: Global) -> Result<Template, Stuck>
        ensures parses { Parses (rule template_entries) inside_tree self.old result self.new }
        ensures whole { IfOk result (λ t. IsInside Symbol.LeftBrace (inside_tree t) t) }
        ensures shorter { OnOk result (length self.new.rest.now < length self.old.rest.now) }
    {
        if self.is_symbol(Symbol::RightBrace) {
            self.pass_symbol(Symbol::RightBrace);
            return Ok(Template::List(Items::new(alloc)));
        }
        if self.is_name() {
            let name = self.name(alloc)?;
            if self.is_symbol(Symbol::Assign) {
                self.pass_symbol(Symbol::Assign);
                let template = self.template(alloc)?;
                let fields = self.more_fields(alloc, TemplateField { name, template })?;
                self.symbol(Symbol::RightBrace)?;
                return Ok(Template::Record(fields));
            }
            let templates = self.more_templates(alloc, Template::Name(name))?;
            self.symbol(Symbol::RightBrace)?;
            return Ok(Template::List(templates));
        }
        let first = self.counted(alloc)?;
        let templates = self.more_templates(alloc, first)?;
        self.symbol(Symbol::RightBrace)?;
        Ok(Template::List(templates))
    }

    #[cycle(template)]
    #[tactic(auto, using(crate::proofs::TemplateTrees::template_parsing))]
    fn more_templates(&mut self, alloc: Global, first: Template) -> Result<Items<Template>, Stuck>
        ensures parses { Parses (rule more_templates)
            (λ ts. chain more_templates (map template_tree (drop 1 ts))) self.old result self.new }
        ensures begins { IfOk result (λ ts. ts ≡ first ∷ drop 1 ts) }
        ensures shorter { OnOk result (length self.new.rest.now ≤ length self.old.rest.now) }
    {
        let mut templates = Items::new(alloc);
        templates.push(first)?;
        'more: while self.is_symbol(Symbol::Comma) {
            self.pass_symbol(Symbol::Comma);
            let next = self.template(alloc)?;
            templates.push(next)?;
        }
        Ok(templates)
    }

    #[cycle(template)]
    #[tactic(auto, using(crate::proofs::TemplateTrees::template_parsing))]
    fn more_fields(
        &mut self,
        alloc: Global,
        first: TemplateField,
    ) -> Result<Items<TemplateField>, Stuck>
        ensures parses { Parses (rule more_template_fields)
            (λ fs. chain more_template_fields (map field_tree (drop 1 fs)))
            self.old result self.new }
        ensures begins { IfOk result (λ fs. fs ≡ first ∷ drop 1 fs) }
        ensures shorter { OnOk result (length self.new.rest.now ≤ length self.old.rest.now) }
    {
        let mut fields = Items::new(alloc);
        fields.push(first)?;
        'more: while self.is_symbol(Symbol::Comma) {
            self.pass_symbol(Symbol::Comma);
            let next = self.field(alloc)?;
            fields.push(next)?;
        }
        Ok(fields)
    }

    #[cycle(template)]
    #[tactic(auto, using(crate::proofs::TemplateTrees::template_parsing))]
    fn field(&mut self, alloc: Global) -> Result<TemplateField, Stuck>
        ensures parses { Parses (rule a_template_field) field_tree self.old result self.new }
        ensures shorter { OnOk result (length self.new.rest.now < length self.old.rest.now) }
    {
        let name = self.name(alloc)?;
        self.symbol(Symbol::Assign)?;
        let template = self.template(alloc)?;
        Ok(TemplateField { name, template })
    }
}

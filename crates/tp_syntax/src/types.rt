//! Types, what they are made of, and their definitions.
ghost use Rattle.std.specs.Prelude.{◌≡◌, ◌<◌, ◌≤◌, ◌∷◌, IfOk, OnOk, drop, false, length, true, [], map};
ghost use Rattle.tp_syntax.specs.Item.{rule, accepts, next, of_symbol};
ghost use Rattle.tp_syntax.specs.Rule.{a_definition, after_record, after_type, end_of_way, more_ways, ways};
ghost use Rattle.tp_syntax.specs.Rule.{a_declaration, a_field, a_way, declarations, declared_name, fields, more_fields};
ghost use Rattle.tp_syntax.specs.Rule.{more_names, more_types, way_word};
ghost use Rattle.tp_tree.specs.declared.tree.Direction.{Direction};
ghost use Rattle.tp_syntax.specs.DefinitionTrees.{after_record_frames, after_type_frames, is_behaviour, is_record};
ghost use Rattle.tp_syntax.specs.DefinitionTrees.{ways_tree, direction_tree, steps, declared_tree, field_type_tree};
ghost use Rattle.tp_syntax.specs.DefinitionTrees.{fields_tree, port_tree, ports_tree, way_tree};
ghost use Rattle.tp_syntax.specs.Parsing.{Goes, part_or_end, Parses, left};
ghost use Rattle.tp_syntax.specs.Reading.{chain};
ghost use Rattle.tp_syntax.specs.OperationTrees.{type_tree};

use crate::cursor::Parser;
use crate::parts::End;
use crate::stuck::Stuck;
use crate::token::Symbol;
use crate::word::Word;
use std::alloc::Global;
use tp_tree::message::TypeName;
use tp_tree::tree::{
    ComponentType, DeclaredName, Defined, Direction, FieldType, ListType, PortDeclaration,
    PortType, RecordType, Way,
};
use tp_value::items::Items;

/// What is defined, and how it ends.
#[derive(Drop)]
pub struct Ended {
    pub defined: Defined,
    pub end: End,
}

impl<'a, 't> Parser<'a, 't> {
    pub fn declared_name(&mut self, alloc: Global) -> Result<DeclaredName, Stuck>
        ensures parses { Parses (rule declared_name) declared_tree self.old result self.new }
        ensures shorter { OnOk result (length self.new.rest.now < length self.old.rest.now) }
    {
        let line = self.line();
        let name = self.name(alloc)?;
        Ok(DeclaredName { line, name })
    }

    fn field_type(&mut self, alloc: Global) -> Result<FieldType, Stuck>
        ensures parses { Parses (rule a_field) field_type_tree self.old result self.new }
        ensures shorter { OnOk result (length self.new.rest.now < length self.old.rest.now) }
    {
        let type_name = self.type_name(alloc)?;
        let name = self.declared_name(alloc)?;
        Ok(FieldType { type_name, name })
    }

    #[tactic(auto, using(crate::proofs::TypeTrees::listing))]
    fn more_field_types(
        &mut self,
        alloc: Global,
        first: FieldType,
    ) -> Result<Items<FieldType>, Stuck>
        ensures parses { Parses (rule more_fields)
            (λ fs. chain more_fields (map field_type_tree (drop 1 fs))) self.old result self.new }
        ensures begins { IfOk result (λ fs. fs ≡ first ∷ drop 1 fs) }
        ensures shorter { OnOk result (length self.new.rest.now ≤ length self.old.rest.now) }
    {
        let mut fields = Items::new(alloc);
        fields.push(first)?;
        'more: while self.is_symbol(Symbol::Comma) {
            self.pass_symbol(Symbol::Comma);
            let next = self.field_type(alloc)?;
            fields.push(next)?;
        }
        Ok(fields)
    }

    /// Passes the fields of a record, and its `}`.
    pub fn field_types(&mut self, alloc: Global) -> Result<Items<FieldType>, Stuck>
        ensures parses { Parses (rule fields) fields_tree self.old result self.new }
        ensures shorter { OnOk result (length self.new.rest.now < length self.old.rest.now) }
    {
        if self.is_symbol(Symbol::RightBrace) {
            self.pass_symbol(Symbol::RightBrace);
            return Ok(Items::new(alloc));
        }
        let first = self.field_type(alloc)?;
        let fields = self.more_field_types(alloc, first)?;
        self.symbol(Symbol::RightBrace)?;
        Ok(fields)
    }

    fn way(&mut self) -> Result<Way, Stuck>
        ensures parses { Parses (rule way_word) way_tree self.old result self.new }
        ensures shorter { OnOk result (length self.new.rest.now < length self.old.rest.now) }
    {
        if self.is_word(Word::In) {
            self.pass_word(Word::In);
            return Ok(Way::In);
        }
        if self.is_word(Word::Out) {
            self.pass_word(Word::Out);
            return Ok(Way::Out);
        }
        self.word(Word::Inout)?;
        Ok(Way::InOut)
    }

    #[tactic(auto, using(crate::proofs::TypeTrees::listing))]
    fn more_types(&mut self, alloc: Global, first: TypeName) -> Result<Items<TypeName>, Stuck>
        ensures parses { Parses (rule more_types)
            (λ ts. chain more_types (map type_tree (drop 1 ts))) self.old result self.new }
        ensures begins { IfOk result (λ ts. ts ≡ first ∷ drop 1 ts) }
        ensures shorter { OnOk result (length self.new.rest.now ≤ length self.old.rest.now) }
    {
        let mut types = Items::new(alloc);
        types.push(first)?;
        'more: while self.is_symbol(Symbol::Comma) {
            self.pass_symbol(Symbol::Comma);
            let next = self.type_name(alloc)?;
            types.push(next)?;
        }
        Ok(types)
    }

    pub fn direction(&mut self, alloc: Global) -> Result<Direction, Stuck>
        ensures parses { Parses (rule a_way) direction_tree self.old result self.new }
        ensures ends { IfOk result (λ d.
            accepts (of_symbol Symbol.Semicolon) (next (left self.new)) ≡ d.has_semicolon) }
        ensures shorter { OnOk result (length self.new.rest.now < length self.old.rest.now) }
    {
        let way = self.way()?;
        let first = self.type_name(alloc)?;
        let types = self.more_types(alloc, first)?;
        let has_semicolon = self.is_symbol(Symbol::Semicolon);
        Ok(Direction {
            way,
            types,
            has_semicolon,
        })
    }

    #[tactic(auto, using(crate::proofs::TypeTrees::listing))]
    fn more_names(
        &mut self,
        alloc: Global,
        first: DeclaredName,
    ) -> Result<Items<DeclaredName>, Stuck>
        ensures parses { Parses (rule more_names)
            (λ ns. chain more_names (map declared_tree (drop 1 ns))) self.old result self.new }
        ensures begins { IfOk result (λ ns. ns ≡ first ∷ drop 1 ns) }
        ensures shorter { OnOk result (length self.new.rest.now ≤ length self.old.rest.now) }
    {
        let mut names = Items::new(alloc);
        names.push(first)?;
        'more: while self.is_symbol(Symbol::Comma) {
            self.pass_symbol(Symbol::Comma);
            let next = self.declared_name(alloc)?;
            names.push(next)?;
        }
        Ok(names)
    }

    fn port_declaration(&mut self, alloc: Global) -> Result<PortDeclaration, Stuck>
        ensures parses { Parses (rule a_declaration) port_tree self.old result self.new }
        ensures ends { IfOk result (λ d.
            accepts (of_symbol Symbol.Semicolon) (next (left self.new)) ≡ d.has_semicolon) }
        ensures shorter { OnOk result (length self.new.rest.now < length self.old.rest.now) }
    {
        self.word(Word::Port)?;
        let type_name = self.name(alloc)?;
        let first = self.declared_name(alloc)?;
        let names = self.more_names(alloc, first)?;
        let has_semicolon = self.is_symbol(Symbol::Semicolon);
        Ok(PortDeclaration {
            type_name,
            names,
            has_semicolon,
        })
    }

    /// Passes the ports of a component, and its `}`.
    #[tactic(auto, using(crate::proofs::TypeTrees::stepping))]
    pub fn ports(&mut self, alloc: Global) -> Result<Items<PortDeclaration>, Stuck>
        ensures parses { Parses (rule declarations) ports_tree self.old result self.new }
        ensures shorter { OnOk result (length self.new.rest.now < length self.old.rest.now) }
    {
        let mut ports = Items::new(alloc);
        'more: while !self.is_symbol(Symbol::RightBrace) {
            let port = self.port_declaration(alloc)?;
            let goes_on = port.has_semicolon;
            ports.push(port)?;
            if !goes_on {
                self.symbol(Symbol::RightBrace)?;
                return Ok(ports);
            }
            self.pass_symbol(Symbol::Semicolon);
        }
        self.pass_symbol(Symbol::RightBrace);
        Ok(ports)
    }

    /// Passes further directions of a port, and its `}`.
    #[tactic(auto, using(crate::proofs::TypeTrees::stepping))]
    fn more_ways(&mut self, alloc: Global, first: Direction) -> Result<Items<Direction>, Stuck>
        ensures parses { Parses (rule more_ways)
            (λ ds. steps more_ways end_of_way direction_tree
            (λ (d : Direction). d.has_semicolon) (drop 1 ds))
            self.old result self.new }
        ensures begins { IfOk result (λ ds. ds ≡ first ∷ drop 1 ds) }
        ensures shorter { OnOk result (length self.new.rest.now < length self.old.rest.now) }
    {
        let mut directions = Items::new(alloc);
        directions.push(first)?;
        'more: while !self.is_symbol(Symbol::RightBrace) {
            let direction = self.direction(alloc)?;
            let goes_on = direction.has_semicolon;
            directions.push(direction)?;
            if !goes_on {
                self.symbol(Symbol::RightBrace)?;
                return Ok(directions);
            }
            self.pass_symbol(Symbol::Semicolon);
        }
        self.pass_symbol(Symbol::RightBrace);
        Ok(directions)
    }

    /// Passes the directions of a port, and its `}`.
    fn ways(&mut self, alloc: Global) -> Result<Items<Direction>, Stuck>
        ensures parses { Parses (rule ways) ways_tree self.old result self.new }
        ensures shorter { OnOk result (length self.new.rest.now < length self.old.rest.now) }
    {
        let first = self.direction(alloc)?;
        if first.has_semicolon {
            self.pass_symbol(Symbol::Semicolon);
            let directions = self.more_ways(alloc, first)?;
            return Ok(directions);
        }
        let mut directions = Items::new(alloc);
        directions.push(first)?;
        self.symbol(Symbol::RightBrace)?;
        Ok(directions)
    }

    /// Passes a record or a list after its `record`.
    #[tactic(auto, using(crate::proofs::DefinitionViews::definition_parsing))]
    fn after_record(&mut self, alloc: Global) -> Result<Ended, Stuck>
        ensures goes { Goes after_record (λ e. after_record_frames e.defined e.end.has_semicolon)
            (λ e. part_or_end a_definition e.end.is_open) self.old result self.new }
        ensures record_or_list { IfOk result (λ e. is_record e.defined ≡ true) }
        ensures typed { IfOk result (λ e. is_behaviour e.defined ≡ false) }
        ensures shorter { OnOk result (length self.new.rest.now < length self.old.rest.now) }
    {
        if self.is_word(Word::Of) {
            self.pass_word(Word::Of);
            let element = self.type_name(alloc)?;
            let name = self.name(alloc)?;
            let defined = Defined::List(ListType { element, name });
            let end = self.end();
            return Ok(Ended { defined, end });
        }
        let name = self.name(alloc)?;
        self.symbol(Symbol::LeftBrace)?;
        let fields = self.field_types(alloc)?;
        let defined = Defined::Record(RecordType { name, fields });
        let end = self.block_end();
        Ok(Ended { defined, end })
    }

    /// Passes the definition of a type after its `type`.
    #[tactic(auto, using(crate::proofs::DefinitionViews::definition_parsing))]
    pub fn after_type(&mut self, alloc: Global) -> Result<Ended, Stuck>
        ensures goes { Goes after_type (λ e. after_type_frames e.defined e.end.has_semicolon)
            (λ e. part_or_end a_definition e.end.is_open) self.old result self.new }
        ensures typed { IfOk result (λ e. is_behaviour e.defined ≡ false) }
        ensures shorter { OnOk result (length self.new.rest.now < length self.old.rest.now) }
    {
        if self.is_word(Word::Record) {
            self.pass_word(Word::Record);
            return self.after_record(alloc);
        }
        if self.is_word(Word::Port) {
            self.pass_word(Word::Port);
            let name = self.name(alloc)?;
            self.word(Word::Message)?;
            self.symbol(Symbol::LeftBrace)?;
            let directions = self.ways(alloc)?;
            let defined = Defined::Port(PortType { name, directions });
            let end = self.block_end();
            return Ok(Ended { defined, end });
        }
        self.word(Word::Component)?;
        let name = self.name(alloc)?;
        self.symbol(Symbol::LeftBrace)?;
        let ports = self.ports(alloc)?;
        let defined = Defined::Component(ComponentType { name, ports });
        let end = self.block_end();
        Ok(Ended { defined, end })
    }
}

//! Functions and test cases, the definitions of a module, and modules.
ghost use Rattle.std.specs.Prelude.{◌≡◌, ◌<◌, ◌≤◌, map, true, OnOk, length, ◌∷◌, IfOk, drop};
ghost use Rattle.tp_syntax.specs.Item.{accepts, next, of_word, rule};
ghost use Rattle.tp_syntax.specs.Rule.{may_have_system, variables, a_definition, a_module, a_parameter, behaviour};
ghost use Rattle.tp_syntax.specs.Rule.{definitions, more_parameters, parameters};
ghost use Rattle.tp_syntax.specs.DefinitionTrees.{case_items, test_case_trees, function_tree, local_frames};
ghost use Rattle.tp_syntax.specs.DefinitionTrees.{system_tree, behaviour_tree, definition_frames, definitions_tree};
ghost use Rattle.tp_syntax.specs.DefinitionTrees.{function_items, function_trees, is_behaviour, module_tree};
ghost use Rattle.tp_syntax.specs.DefinitionTrees.{parameter_tree, parameters_tree};
ghost use Rattle.tp_syntax.specs.CaseTrees.{variable_part};
ghost use Rattle.tp_syntax.specs.Parsing.{Goes, ParsesAll, part_or_end, Parses, left};
ghost use Rattle.tp_syntax.specs.Reading.{chain};

use crate::cursor::Parser;
use crate::stuck::Stuck;
use crate::token::Symbol;
use crate::word::Word;
use std::alloc::Global;
use tp_tree::name::Name;
use tp_tree::tree::{
    Defined, Definition, Function, Module, Parameter, Statement, TestCase, Variable,
};
use tp_value::items::Items;

impl<'a, 't> Parser<'a, 't> {
    /// Passes a variable, and its `;` if it has one. Without it only a `}` may follow.
    #[tactic(auto, using(crate::proofs::BehaviourViews::behaviour_parsing))]
    fn local_variable(&mut self, alloc: Global) -> Result<Variable, Stuck>
        requires { accepts (of_word Word.Var) (next (left self.old)) ≡ true }
        ensures goes { Goes variables (λ v. local_frames (variable_part v))
            (λ v. part_or_end variables v.has_semicolon)
            self.old result self.new }
        ensures shorter { OnOk result (length self.new.rest.now < length self.old.rest.now) }
    {
        let line = self.line();
        self.pass_word(Word::Var);
        let type_name = self.type_name(alloc)?;
        let name = self.name(alloc)?;
        let has_semicolon = self.may_end();
        Ok(Variable {
            line,
            type_name,
            name,
            has_semicolon,
        })
    }

    /// Passes the body of a function, and the `}` that follows it.
    #[tactic(auto, using(crate::proofs::BehaviourViews::behaviour_parsing))]
    pub fn function_body(
        &mut self,
        alloc: Global,
    ) -> Result<(Items<Variable>, Items<Statement>), Stuck>
        ensures parses { Parses (rule variables) (λ x. function_tree (map variable_part x.0) x.1)
            self.old result self.new }
        ensures shorter { OnOk result (length self.new.rest.now < length self.old.rest.now) }
    {
        let mut variables = Items::new(alloc);
        let mut is_open = true;
        'more: while is_open {
            if !self.is_word(Word::Var) {
                let statements = self.statements(alloc)?;
                return Ok((variables, statements));
            }
            let variable = self.local_variable(alloc)?;
            is_open = variable.has_semicolon;
            variables.push(variable)?;
        }
        self.closing()?;
        let statements = Items::new(alloc);
        Ok((variables, statements))
    }

    fn system(&mut self, alloc: Global) -> Result<Option<Name>, Stuck>
        ensures parses { Parses (rule may_have_system) system_tree self.old result self.new }
        ensures shorter { OnOk result (length self.new.rest.now ≤ length self.old.rest.now) }
    {
        if !self.is_word(Word::System) {
            return Ok(None);
        }
        self.pass_word(Word::System);
        let name = self.name(alloc)?;
        Ok(Some(name))
    }

    /// Passes a test case.
    #[tactic(auto, using(crate::proofs::ReadingGoesOn::all_parsing))]
    pub fn test_case(&mut self, alloc: Global) -> Result<TestCase, Stuck>
        ensures parses { ParsesAll case_items test_case_trees self.old result self.new }
        ensures shorter { OnOk result (length self.new.rest.now < length self.old.rest.now) }
    {
        self.word(Word::Testcase)?;
        let name = self.name(alloc)?;
        self.symbol(Symbol::LeftParen)?;
        self.symbol(Symbol::RightParen)?;
        self.word(Word::Runs)?;
        self.word(Word::On)?;
        let runs_on = self.name(alloc)?;
        let system = self.system(alloc)?;
        self.symbol(Symbol::LeftBrace)?;
        let body = self.case_body(alloc)?;
        Ok(TestCase {
            name,
            runs_on,
            system,
            setups: body.setups,
            starts: body.starts,
            variables: body.variables,
            statements: body.statements,
            all_done: body.all_done,
        })
    }

    fn parameter(&mut self, alloc: Global) -> Result<Parameter, Stuck>
        ensures parses { Parses (rule a_parameter) parameter_tree self.old result self.new }
        ensures shorter { OnOk result (length self.new.rest.now < length self.old.rest.now) }
    {
        let type_name = self.name(alloc)?;
        let name = self.declared_name(alloc)?;
        Ok(Parameter { type_name, name })
    }

    #[tactic(auto, using(crate::proofs::TypeTrees::listing))]
    fn more_parameters(
        &mut self,
        alloc: Global,
        first: Parameter,
    ) -> Result<Items<Parameter>, Stuck>
        ensures parses { Parses (rule more_parameters)
            (λ ps. chain more_parameters (map parameter_tree (drop 1 ps)))
            self.old result self.new }
        ensures begins { IfOk result (λ ps. ps ≡ first ∷ drop 1 ps) }
        ensures shorter { OnOk result (length self.new.rest.now ≤ length self.old.rest.now) }
    {
        let mut parameters = Items::new(alloc);
        parameters.push(first)?;
        'more: while self.is_symbol(Symbol::Comma) {
            self.pass_symbol(Symbol::Comma);
            let next = self.parameter(alloc)?;
            parameters.push(next)?;
        }
        Ok(parameters)
    }

    /// Passes the parameters of a function, and its `)`.
    fn parameters(&mut self, alloc: Global) -> Result<Items<Parameter>, Stuck>
        ensures parses { Parses (rule parameters) parameters_tree self.old result self.new }
        ensures shorter { OnOk result (length self.new.rest.now < length self.old.rest.now) }
    {
        if self.is_symbol(Symbol::RightParen) {
            self.pass_symbol(Symbol::RightParen);
            return Ok(Items::new(alloc));
        }
        let first = self.parameter(alloc)?;
        let parameters = self.more_parameters(alloc, first)?;
        self.symbol(Symbol::RightParen)?;
        Ok(parameters)
    }

    /// Passes a function.
    #[tactic(auto, using(crate::proofs::ReadingGoesOn::all_parsing))]
    fn function(&mut self, alloc: Global) -> Result<Function, Stuck>
        ensures parses { ParsesAll function_items function_trees self.old result self.new }
        ensures shorter { OnOk result (length self.new.rest.now < length self.old.rest.now) }
    {
        self.word(Word::Function)?;
        let name = self.name(alloc)?;
        self.symbol(Symbol::LeftParen)?;
        let parameters = self.parameters(alloc)?;
        self.word(Word::Runs)?;
        self.word(Word::On)?;
        let runs_on = self.name(alloc)?;
        self.symbol(Symbol::LeftBrace)?;
        let (variables, statements) = self.function_body(alloc)?;
        Ok(Function {
            name,
            parameters,
            runs_on,
            variables,
            statements,
        })
    }

    /// Passes a function or a test case.
    fn behaviour(&mut self, alloc: Global) -> Result<Defined, Stuck>
        ensures parses { Parses (rule behaviour) behaviour_tree self.old result self.new }
        ensures behaviour { IfOk result (λ x. is_behaviour x ≡ true) }
        ensures shorter { OnOk result (length self.new.rest.now < length self.old.rest.now) }
    {
        if self.is_word(Word::Function) {
            let function = self.function(alloc)?;
            return Ok(Defined::Function(function));
        }
        let case = self.test_case(alloc)?;
        Ok(Defined::TestCase(case))
    }

    /// Passes a definition. Returns it, and whether a further one follows.
    #[tactic(auto, using(crate::proofs::DefinitionViews::definition_parsing))]
    fn definition(&mut self, alloc: Global) -> Result<(Definition, bool), Stuck>
        ensures goes { Goes a_definition (λ x. definition_frames x.0)
            (λ x. part_or_end a_definition x.1)
            self.old result self.new }
        ensures shorter { OnOk result (length self.new.rest.now < length self.old.rest.now) }
    {
        let line = self.line();
        if self.is_word(Word::Type) {
            self.pass_word(Word::Type);
            let ended = self.after_type(alloc)?;
            let definition = Definition {
                line,
                defined: ended.defined,
                has_semicolon: ended.end.has_semicolon,
            };
            return Ok((definition, ended.end.is_open));
        }
        let defined = self.behaviour(alloc)?;
        let end = self.block_end();
        let definition = Definition {
            line,
            defined,
            has_semicolon: end.has_semicolon,
        };
        Ok((definition, end.is_open))
    }

    /// Passes the definitions of a module, and the `}` that follows them.
    #[tactic(auto, using(crate::proofs::DefinitionViews::definition_parsing))]
    fn definitions(&mut self, alloc: Global) -> Result<Items<Definition>, Stuck>
        ensures parses { Parses (rule definitions) definitions_tree self.old result self.new }
        ensures shorter { OnOk result (length self.new.rest.now < length self.old.rest.now) }
    {
        let mut definitions = Items::new(alloc);
        let mut is_open = self.is_open();
        'more: while is_open {
            let (definition, goes_on) = self.definition(alloc)?;
            definitions.push(definition)?;
            is_open = goes_on;
        }
        self.closing()?;
        Ok(definitions)
    }

    /// Passes a module.
    pub fn module(&mut self, alloc: Global) -> Result<Module, Stuck>
        ensures parses { Parses (rule a_module) module_tree self.old result self.new }
        ensures shorter { OnOk result (length self.new.rest.now < length self.old.rest.now) }
    {
        let line = self.line();
        self.word(Word::Module)?;
        let name = self.name(alloc)?;
        self.symbol(Symbol::LeftBrace)?;
        let definitions = self.definitions(alloc)?;
        let has_semicolon = self.may_end();
        Ok(Module {
            line,
            name,
            definitions,
            has_semicolon,
        })
    }
}

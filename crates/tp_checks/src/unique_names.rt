//! The first pass of the checks: names are given once, and there is one test case.
#![tactic(auto, using(crate::proofs::TestCaseFaultsTold::names))]

ghost use Rattle.std.specs.Prelude.{◌≡◌, ◌<◌, ◌∷◌, ◌++◌, ◌⊎◌, [], All, IfErr, IfOk, IfSome, OnOk, Some, is_some};
ghost use Rattle.std.specs.{Prelude.length, Prelude.map, List.list_any, Option.option_to_list};
ghost use Rattle.tp_checks.specs.{Refused.IsRefusedBy, Refused.Tells, Refused.TellsAt, Cases.cases_of};
ghost use Rattle.tp_checks.specs.Tables.{AreDistinct, IsNumbered};
ghost use Rattle.tp_checks.specs.BrokenNames.{DeclaringBreaks, DefinitionNamesBreak, GivenNamesBreak, NameBreaks};
ghost use Rattle.tp_checks.specs.BrokenNames.{NamesBreak, inner_declared, port_name_list};
ghost use Rattle.tp_checks.specs.Definitions.{BeginsAmong, of_kind, case_of, name_of, declared, declared_ports};
ghost use Rattle.tp_checks.specs.Definitions.{inner_names, test_cases};
ghost use Rattle.tp_checks.specs.Rules.{AreNamed, HasOneTestCase, HasUniqueNames};
ghost use Rattle.tp_tree.specs.declared.tree.Definition.{Definition};

use crate::fault::{ModuleFault, ModuleRule, refused};
use crate::name_set::NameSet;
use std::alloc::Global;
use tp_tree::tree::{
    DeclaredName, Defined, Definition, FieldType, Module, Parameter, PortDeclaration, TestCase,
};

#[derive(Clone, Copy)]
pub struct CaseAt<'m> {
    pub line: u32,
    pub case: &'m TestCase,
}

fn add_name<'m>(names: &mut NameSet<'m>, name: &'m DeclaredName) -> Result<(), ModuleFault>
    ensures names { OnOk result (names.new ≡ names.old ++ declared name.now ∷ []) }
    ensures numbered { IsNumbered names.new }
    ensures refused { IfErr result (
        IsRefusedBy (IsNumbered (names.old ++ declared name.now ∷ []))) }
    ensures told { IfErr result (TellsAt name.now.line (NameBreaks names.old (declared name.now))) }
{
    match names.add(name.name.as_str()) {
        Ok(()) => Ok(()),
        Err(fault) => Err(fault.at(name.line)),
    }
}

/// What declares a name: a field, a parameter, or the name itself.
pub trait Declares {
    ghost use Rattle.tp_tree.specs.declared.tree.DeclaredName.{DeclaredName};

    ghost declared_name: { Self → DeclaredName };

    fn declared_name(&self) -> &DeclaredName
        ensures { result.now ≡ declared_name self.now };
}

impl Declares for DeclaredName {
    ghost declared_name = { λ name. name };

    fn declared_name(&self) -> &DeclaredName {
        self
    }
}

impl Declares for FieldType {
    ghost declared_name = { λ field. field.name };

    fn declared_name(&self) -> &DeclaredName {
        &self.name
    }
}

impl Declares for Parameter {
    ghost declared_name = { λ parameter. parameter.name };

    fn declared_name(&self) -> &DeclaredName {
        &self.name
    }
}

/// 12 `Duplicate` at the line of a name that is there already, 15 `Limit` at the line of a name
/// after 4,294,967,295 others. The names before it stay added.
pub fn declare_all<'m, D: Declares>(
    names: &mut NameSet<'m>,
    list: &'m [D],
) -> Result<(), ModuleFault>
    requires { IsNumbered names.old }
    ensures names { OnOk result (names.new
        ≡ names.old ++ map (λ x. declared (D.declared_name x)) list.now) }
    ensures numbered { IsNumbered names.new }
    ensures refused { IfErr result (IsRefusedBy (IsNumbered (
        names.old ++ map (λ x. declared (D.declared_name x)) list.now))) }
    ensures told { IfErr result (
        Tells (DeclaringBreaks names.old (map D.declared_name list.now))) }
{
    for item in list {
        add_name(names, item.declared_name())?;
    }
    Ok(())
}

pub(crate) fn declare_ports<'m>(
    names: &mut NameSet<'m>,
    ports: &'m [PortDeclaration],
) -> Result<(), ModuleFault>
    requires { IsNumbered names.old }
    ensures names { OnOk result (names.new ≡ names.old ++ declared_ports ports.now) }
    ensures numbered { IsNumbered names.new }
    ensures distinct { AreDistinct names.new }
    ensures refused { IfErr result (
        IsRefusedBy (IsNumbered (names.old ++ declared_ports ports.now))) }
    ensures told { IfErr result (Tells (DeclaringBreaks names.old (port_name_list ports.now))) }
{
    for port in ports {
        declare_all(names, port.names.as_slice())?;
    }
    Ok(())
}

fn declare_inner<'m>(names: &mut NameSet<'m>, defined: &'m Defined) -> Result<(), ModuleFault>
    requires empty { names.old ≡ [] }
    requires numbered { IsNumbered names.old }
    ensures numbered { OnOk result (IsNumbered (inner_names defined.now)) }
    ensures refused { IfErr result (IsRefusedBy (IsNumbered (inner_names defined.now))) }
    ensures told { IfErr result (Tells (DeclaringBreaks [] (inner_declared defined.now))) }
{
    match defined {
        Defined::Record(record) => declare_all(names, record.fields.as_slice()),
        Defined::Component(component) => declare_ports(names, component.ports.as_slice()),
        Defined::Function(function) => declare_all(names, function.parameters.as_slice()),
        Defined::List(_) | Defined::Port(_) | Defined::TestCase(_) => Ok(()),
    }
}

fn check_inner(alloc: Global, definition: &Definition) -> Result<(), ModuleFault>
    ensures numbered { OnOk result (IsNumbered (inner_names definition.now.defined)) }
    ensures refused { IfErr result (IsRefusedBy (IsNumbered (inner_names definition.now.defined))) }
    ensures told { IfErr result (
        Tells (DeclaringBreaks [] (inner_declared definition.now.defined))) }
{
    let mut names = NameSet::new(alloc);
    declare_inner(&mut names, &definition.defined)
}

pub(crate) fn defined_name(defined: &Defined) -> &str
    ensures { result.now ≡ name_of defined.now }
{
    match defined {
        Defined::Record(record) => record.name.as_str(),
        Defined::List(list) => list.name.as_str(),
        Defined::Port(port) => port.name.as_str(),
        Defined::Component(component) => component.name.as_str(),
        Defined::Function(function) => function.name.as_str(),
        Defined::TestCase(case) => case.name.as_str(),
    }
}

fn next_case<'m>(
    before: Option<CaseAt<'m>>,
    definition: &'m Definition,
) -> Result<Option<CaseAt<'m>>, ModuleFault>
    ensures case { IfOk result (λ after. cases_of after
        ≡ cases_of before.entry ++ option_to_list (case_of definition.now.defined)) }
    ensures refused { IfErr result (λ _.
        1 < length (cases_of before.entry ++ option_to_list (case_of definition.now.defined))) }
    ensures begins { IfOk result (λ after. (after ≡ before.entry) ⊎ IfSome after (λ found.
        (case_of definition.now.defined ≡ Some found.case.now)
        × (found.line ≡ definition.now.line))) }
    ensures told { IfErr result (λ fault.
        fault ≡ ModuleFault.Refused ModuleRule.Duplicate definition.now.line) }
{
    let Defined::TestCase(case) = &definition.defined else {
        return Ok(before);
    };
    if before.is_some() {
        return Err(refused(ModuleRule::Duplicate, definition.line));
    }
    Ok(Some(CaseAt {
        line: definition.line,
        case,
    }))
}

fn is_case(definition: &Definition) -> bool
    ensures { result ≡ is_some (case_of definition.now.defined) }
{
    matches!(&definition.defined, Defined::TestCase(_))
}

fn has_case(definitions: &[Definition]) -> bool
    ensures { result ≡ list_any (λ (x : Definition). is_some (case_of x.defined)) definitions.now }
{
    definitions.iter().any(is_case)
}

fn check_name<'m>(
    alloc: Global,
    names: &mut NameSet<'m>,
    definition: &'m Definition,
) -> Result<(), ModuleFault>
    ensures names { OnOk result (names.new ≡ names.old ++ name_of definition.now.defined ∷ []) }
    ensures numbered { OnOk result (IsNumbered names.new) }
    ensures inner { OnOk result (IsNumbered (inner_names definition.now.defined)) }
    ensures refused { IfErr result (IsRefusedBy
        (IsNumbered (names.old ++ name_of definition.now.defined ∷ [])
        × IsNumbered (inner_names definition.now.defined))) }
    ensures told { IfErr result (Tells (GivenNamesBreak names.old definition.now)) }
{
    if let Err(fault) = names.add(defined_name(&definition.defined)) {
        return Err(fault.at(definition.line));
    }
    check_inner(alloc, definition)?;
    Ok(())
}

fn find_case<'m>(
    alloc: Global,
    definitions: &'m [Definition],
) -> Result<Option<CaseAt<'m>>, ModuleFault>
    ensures case { IfOk result (λ case. cases_of case ≡ of_kind case_of definitions.now) }
    ensures names { OnOk result (
        IsNumbered (map (λ (x : Definition). name_of x.defined) definitions.now)) }
    ensures inner { OnOk result (
        All (λ (x : Definition). IsNumbered (inner_names x.defined)) definitions.now) }
    ensures begins { IfOk result (λ case. IfSome case (λ found.
        BeginsAmong definitions.now found.case.now found.line)) }
    ensures refused { IfErr result (IsRefusedBy (AreNamed definitions.now)) }
    ensures told { IfErr result (Tells (DefinitionNamesBreak definitions.now)) }
{
    let mut names = NameSet::new(alloc);
    let mut case = None;
    for definition in definitions {
        check_name(alloc, &mut names, definition)?;
        case = next_case(case, definition)?;
    }
    Ok(case)
}

/// The first pass: finds the test case of the module. 11 `Unknown` at the line of the module if
/// there is none. Then, in the order of the text: 12 `Duplicate` at the line of the second of two
/// definitions with one name, of a second test case, and of the second of two equal names of
/// fields, ports or parameters in one definition; 15 `Limit` at the line of a name after
/// 4,294,967,295 others.
pub fn check_names(alloc: Global, parsed: &Module) -> Result<CaseAt<'_>, ModuleFault>
    ensures case { IfOk result (λ found. test_cases parsed.now ≡ found.case.now ∷ []) }
    ensures names { OnOk result (HasUniqueNames parsed.now) }
    ensures begins { IfOk result (λ found.
        BeginsAmong parsed.now.definitions found.case.now found.line) }
    ensures refused { IfErr result (
        IsRefusedBy (HasUniqueNames parsed.now × HasOneTestCase parsed.now)) }
    ensures told { IfErr result (Tells (NamesBreak parsed.now)) }
{
    // Checked first, because this fault takes precedence over those of the definitions.
    if !has_case(parsed.definitions.as_slice()) {
        return Err(refused(ModuleRule::Unknown, parsed.line));
    }
    match find_case(alloc, parsed.definitions.as_slice())? {
        Some(found) => Ok(found),
        // This never happens: there is a test case.
        None => Err(refused(ModuleRule::Unknown, parsed.line)),
    }
}

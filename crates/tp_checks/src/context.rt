//! The place of a statement: what its names may mean, and its refusals.
use crate::fault::{ModuleFault, ModuleRule, refused};
use crate::name::BorrowedName;
use crate::scope::{BehaviourKind, Scope, Variables};
use tp_tree::tree::ComponentName;
use tp_value::types::Ty;

/// The place of a statement, a value or a template: what its names may mean, and the line for its
/// refusals.
#[derive(Clone, Copy)]
pub struct Context<'a, 'v, 'm> {
    pub scope: &'a Scope<'a>,
    pub variables: &'a Variables<'v>,
    pub turns: &'a [BorrowedName<'m>],
    /// The line for refusals: that of the statement, the branch or the variable.
    pub line: u32,
}

impl<'a, 'v, 'm> Context<'a, 'v, 'm> {
    ghost use Rattle.std.specs.Prelude.{◌≡◌, ◌≢◌, ◌⊎◌, ℕ, Contains, IfErr, OnErr, OnOk, Some};
    ghost use Rattle.tp_checks.specs.{Refused.TellsAt, Scoping.IsReference, Scoping.here, BrokenOperations.FromBreaks};

    pub fn unknown(&self) -> ModuleFault
        ensures { result ≡ ModuleFault.Refused ModuleRule.Unknown self.now.line }
    {
        refused(ModuleRule::Unknown, self.line)
    }

    pub fn duplicate(&self) -> ModuleFault
        ensures { result ≡ ModuleFault.Refused ModuleRule.Duplicate self.now.line }
    {
        refused(ModuleRule::Duplicate, self.line)
    }

    pub fn wrong_type(&self) -> ModuleFault
        ensures { result ≡ ModuleFault.Refused ModuleRule.WrongType self.now.line }
    {
        refused(ModuleRule::WrongType, self.line)
    }

    pub fn check_type(&self, ty: Ty, wanted: Ty) -> Result<(), ModuleFault>
        ensures ok { OnOk result (ty ≡ wanted) }
        ensures other { OnErr result (ty ≢ wanted) }
        ensures err { IfErr result (λ fault.
            fault ≡ ModuleFault.Refused ModuleRule.WrongType self.now.line) }
    {
        if ty != wanted {
            return Err(self.wrong_type());
        }
        Ok(())
    }

    pub fn direction(&self) -> ModuleFault
        ensures { result ≡ ModuleFault.Refused ModuleRule.Direction self.now.line }
    {
        refused(ModuleRule::Direction, self.line)
    }

    /// 16 `NotInSut` in the system under test.
    pub fn check_not_in_sut(&self) -> Result<(), ModuleFault>
        ensures ok { OnOk result (self.now.scope.now.behaviour ≢ BehaviourKind.SystemUnderTest) }
        ensures err { IfErr result (λ fault.
            fault ≡ ModuleFault.Refused ModuleRule.NotInSut self.now.line) }
        ensures sut { OnErr result (self.now.scope.now.behaviour ≡ BehaviourKind.SystemUnderTest) }
    {
        if self.scope.behaviour == BehaviourKind::SystemUnderTest {
            return Err(refused(ModuleRule::NotInSut, self.line));
        }
        Ok(())
    }

    /// The refusal of a name that can't stand here: 13 `WrongType` for a variable of the body,
    /// otherwise 11 `Unknown`, also for a loop variable.
    pub fn no_turn(&self, name: &str) -> ModuleFault
        ensures { (Contains self.now.variables.now.names name.now
            × (result ≡ ModuleFault.Refused ModuleRule.WrongType self.now.line))
            ⊎ ((Contains self.now.variables.now.names name.now → ⊥)
            × (result ≡ ModuleFault.Refused ModuleRule.Unknown self.now.line)) }
    {
        if self.variables.names.has(name) {
            self.wrong_type()
        } else {
            self.unknown()
        }
    }

    /// The refusal of a name in place of a variable that is neither a variable nor a loop variable:
    /// 13 `WrongType` for a parameter or a component variable, otherwise 11 `Unknown`.
    pub fn no_variable(&self, name: &str) -> ModuleFault
        ensures { ((Contains self.now.scope.now.parameters.now name.now
            ⊎ Contains self.now.scope.now.component_variables.now name.now)
            × (result ≡ ModuleFault.Refused ModuleRule.WrongType self.now.line))
            ⊎ ((Contains self.now.scope.now.parameters.now name.now → ⊥)
            × (Contains self.now.scope.now.component_variables.now name.now → ⊥)
            × (result ≡ ModuleFault.Refused ModuleRule.Unknown self.now.line)) }
    {
        if self.scope.parameters.has(name) || self.scope.component_variables.has(name) {
            return self.wrong_type();
        }
        self.unknown()
    }

    /// The refusal of a name after `from` that isn't a reference: 13 `WrongType` for a variable,
    /// otherwise 11 `Unknown`.
    pub fn no_reference(&self, component: &ComponentName) -> ModuleFault
        ensures { ((k : ℕ) → here IsReference self.now component.now k → ⊥)
            → TellsAt self.now.line (here FromBreaks self.now (Some component.now)) result }
    {
        if let ComponentName::Named(name) = component {
            return self.no_turn(name.as_str());
        }
        self.unknown()
    }
}

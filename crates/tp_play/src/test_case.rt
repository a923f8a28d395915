//! The test case of a module.
ghost use Rattle.std.specs.Prelude.{◌≡◌, ◌≤◌, ◌<◌, None, IfSome, MatchOption, length, map};
ghost use Rattle.std.specs.List.{slice_index_or};
ghost use Rattle.std.specs.Option.{option_copied, option_map};
ghost use Rattle.tp_config.specs.Allowed.{IsSetup};
ghost use Rattle.tp_config.specs.Setup.{IsComponent};
ghost use Rattle.tp_play.specs.TestCases.{behaviour_at};
ghost use Rattle.tp_play.specs.Instances.{body_in, behaviour_of};
ghost use Rattle.tp_play.specs.Ready.{CanDo, HasMain, HasNoSystem, IsReady, IsSystem};
ghost use Rattle.tp_play.specs.BorrowedBehaviours.{as_behaviour};

use crate::bodies::{Behaviours, Bodies};
use crate::body::Body;
use crate::instance::{Instance, WhichBody};
use std::marker::Model;
use tp_config::config::Config;
use tp_config::port_type::CompId;
use tp_value::types::Types;

/// A test case whose module obeys the rules: its components and what each of them does. Contracts
/// see the configuration, the types and each component's behaviour. It can always be executed: each
/// port, reference, variable and loop variable in the body of a component exists.
pub struct TestCase {
    config: Config,
    types: Types,
    bodies: Bodies,
    instances: Vec<Option<Instance>>,
}

impl Drop for TestCase {
    // Written out, so that an owner's drop calls this one, and needs no proof about the fields.
    fn drop(self) {
        let TestCase {
            config,
            types,
            bodies,
            instances,
        } = self;
        drop((config, types, bodies, instances));
    }
}

#[derive(Clone, Copy)]
pub struct Behaviour<'t> {
    /// Components that start the same function have the same body.
    pub body: &'t Body,
    /// The components that the references of the body name, by their places: `mtc` at 0, the
    /// component itself at 1, then the arguments of its start, then the components of the component
    /// variables of the test case.
    pub references: &'t [CompId],
}

fn instance_at(instances: &[Option<Instance>], comp: CompId) -> Option<&Instance>
    ensures { option_copied result ≡ slice_index_or instances.now comp.0 None }
{
    match instances.get(comp.0 as usize) {
        Some(Some(instance)) => Some(instance),
        Some(None) | None => None,
    }
}

fn body_of(bodies: &Bodies, which_body: WhichBody) -> Option<&Body>
    ensures { option_copied result ≡ body_in bodies.now which_body }
{
    match which_body {
        WhichBody::TestCase => Some(&bodies.main),
        WhichBody::Function(place) => bodies.functions.get(place as usize),
    }
}

fn find_behaviour<'t>(
    bodies: &'t Bodies,
    instances: &'t [Option<Instance>],
    comp: CompId,
) -> Option<Behaviour<'t>>
    ensures { let behaviours = map (behaviour_of bodies.now) instances.now in
        option_map as_behaviour result ≡ slice_index_or behaviours comp.0 None }
{
    let Some(instance) = instance_at(instances, comp) else {
        return None;
    };
    let Some(body) = body_of(bodies, instance.which_body) else {
        return None;
    };
    Some(Behaviour {
        body,
        references: instance.references.as_slice(),
    })
}

impl Model for TestCase {
    ghost use Rattle.std.specs.Prelude.{map};
    ghost use Rattle.tp_play.specs.TestCases.{Made};
    ghost use Rattle.tp_play.specs.Instances.{behaviour_of};
    ghost use Rattle.tp_play.specs.contracts.body.ResolvedStatement as statement_contract;
    ghost use Rattle.std.specs.Coded.{codes};

    ghost Value = { Made };

    ghost coded = { Prim.hlevel (codes, statement_contract.the_row.coded) };

    ghost use Rattle.tp_play.specs.Ready.{IsReady};

    ghost view = { λ t. record {
      config = t.config;
      types = t.types;
      behaviours = map (behaviour_of t.bodies) t.instances.items;
    } };

    ghost invariant = { λ t. IsReady (record {
      config = t.config;
      types = t.types;
      behaviours = map (behaviour_of t.bodies) t.instances.items;
    }) };
}

impl TestCase {
    /// A test case of these components, types and behaviours. It can be executed.
    pub fn new(config: Config, types: Types, behaviours: Behaviours) -> TestCase
        requires { let all = map (behaviour_of behaviours.bodies) behaviours.instances.items in
            IsReady (record { config = config; types = types; behaviours = all }) }
        ensures { result ≡ record {
          config = config;
          types = types;
          behaviours = map (behaviour_of behaviours.bodies) behaviours.instances.items;
        } }
    {
        let Behaviours { bodies, instances } = behaviours;
        TestCase {
            config,
            types,
            bodies,
            instances,
        }
    }

    /// The number of components, at most 64. They are numbered from 0: `mtc`, those that are
    /// created in their order, and the test system interface if the test case has a `system` clause
    /// (ES 201 873-1, 9.1, 21.3.1).
    pub fn components(&self) -> usize
        ensures count { result ≡ length self.now.config.components }
        ensures few { result ≤ 64 }
        ensures main { HasMain self.now.config }
        ensures lawful { IsSetup self.now.config }
    {
        self.config.len()
    }

    pub fn component(&self, number: usize) -> CompId
        requires { number < length self.now.config.components }
        ensures number { result.0 ≡ number }
        ensures there { IsComponent self.now.config result }
    {
        // Called for its clauses: there are components, 64 at most.
        let _count = self.components();
        CompId(number as u32)
    }

    pub fn mtc(&self) -> CompId
        ensures number { result.0 ≡ 0 }
        ensures there { IsComponent self.now.config result }
    {
        // Called for its clauses: there are components, 64 at most.
        let _count = self.components();
        CompId(0)
    }

    /// The test system interface, which is the last component, or `None` if there is none (ES 201
    /// 873-1, 9.2).
    pub fn system(&self) -> Option<CompId>
        ensures { MatchOption result (HasNoSystem self.now.config) (IsSystem self.now.config) }
    {
        let count = self.components();
        // There is at least one component, by the clauses of `components`.
        let last = CompId(count as u32 - 1);
        if self.config.role(last).is_system() {
            Some(last)
        } else {
            None
        }
    }

    pub fn config(&self) -> &Config
        ensures { result.now ≡ self.now.config }
    {
        &self.config
    }

    pub fn types(&self) -> &Types
        ensures { result.now ≡ self.now.types }
    {
        &self.types
    }

    /// What the component does: the test case's own body for `mtc`, that of its function for a
    /// component that is started, and that of `sut` for the test system interface. `None` for a
    /// test system interface without `sut`, and if there is no such component. The component can
    /// execute it.
    pub fn body(&self, comp: CompId) -> Option<Behaviour<'_>>
        ensures behaviour { option_map as_behaviour result ≡ behaviour_at self.now comp.0 }
        ensures can { IfSome result (λ c.
            CanDo self.now.config self.now.types comp.0 (as_behaviour c)) }
    {
        find_behaviour(&self.bodies, &self.instances, comp)
    }
}

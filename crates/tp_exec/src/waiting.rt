//! Behaviours that wait although a branch is open.
ghost use Rattle.std.specs.Prelude.{◌<◌, ◌≡◌, ◌↔◌, All, IsTrue};
ghost use Rattle.tp_behaviour.specs.Choices.{IsOpen, NoneOpen};
ghost use Rattle.tp_behaviour.specs.Outcomes.{WaitsWithin};
ghost use Rattle.tp_exec.specs.Reporting.{IsAtRest};

use crate::ended::EndedComponent;
use tp_behaviour::choice::Guard;
use tp_behaviour::outcome::Outcome;
use tp_common::operation::ReceiveKind;
use tp_inbox::desk::Desk;

fn discards(guard: &Guard) -> bool
    ensures { IsTrue result ↔ (guard.now.kind ≡ ReceiveKind.Trigger) }
{
    guard.kind == ReceiveKind::Trigger
}

fn is_open(desk: &Desk, guard: &Guard) -> bool
    requires { guard.now.port < desk.now.ports }
    ensures { IsTrue result ↔ IsOpen desk.now.log guard.now }
{
    match desk.queue(guard.port).top() {
        None => false,
        Some(env) => discards(guard) || env.satisfies(&guard.wanted, guard.sender),
    }
}

fn none_open(desk: &Desk, guards: &[Guard]) -> bool
    requires { All (λ g. g.port < desk.now.ports) guards.now }
    ensures { IsTrue result ↔ NoneOpen desk.now.log guards.now }
{
    for guard in guards {
        if is_open(desk, guard) {
            return false;
        }
    }
    true
}

fn is_at_rest(component: &EndedComponent) -> bool
    requires { WaitsWithin component.now.desk.ports component.now.outcome }
    ensures { IsTrue result ↔ IsAtRest component.now }
{
    match &component.outcome {
        Outcome::Waiting(guards) => none_open(&component.desk, guards.as_slice()),
        Outcome::Done | Outcome::Error(_) => true,
    }
}

pub(crate) fn are_at_rest(components: &[EndedComponent]) -> bool
    requires { All (λ e. WaitsWithin e.desk.ports e.outcome) components.now }
    ensures { IsTrue result ↔ All IsAtRest components.now }
{
    for component in components {
        if !is_at_rest(component) {
            return false;
        }
    }
    true
}

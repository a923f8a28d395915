//! Sends and receiving operations.
#![tactic(auto, using(crate::proofs::DefinitionLines::operations))]

ghost use Rattle.std.specs.Prelude.{◌≡◌, ◌↔◌, Contains, IfErr, IfOk, IsTrue, OnErr, Some};
ghost use Rattle.tp_checks.specs.{Named.IsAbsent, Named.texts, Refused.TellsAt, Messages.IsMessage};
ghost use Rattle.tp_checks.specs.Scoping.{AreTyped, IsSoundHere, IsVariable, breaks_here, here, stands_here, visible_in};
ghost use Rattle.tp_checks.specs.Bodies.{IsReceive, IsReceiver, IsSend, IsFrom, IsSenderTarget, IsSent, IsValueTarget};
ghost use Rattle.tp_checks.specs.Bodies.{IsVerdict, IsWanted};
ghost use Rattle.tp_checks.specs.BrokenOperations.{FromBreaks, MessageBreaks, NamesNoComponent, NamesNoMessage};
ghost use Rattle.tp_checks.specs.BrokenOperations.{NamesNoVariable, ReceiveBreaks, ReceiverBreaks, SendBreaks};
ghost use Rattle.tp_checks.specs.BrokenOperations.{SenderTargetBreaks, SentBreaks, ValueTargetBreaks, WantedBreaks};

use crate::context::Context;
use crate::fault::{ModuleFault, ModuleRule};
use crate::lookup::{
    find_port, find_reference, find_type, find_variable, lists, receivable, sendable,
};
use crate::messages::resolve_value;
use crate::name::find;
use crate::templates::resolve_template;
use std::alloc::Global;
use tp_config::type_list::TypeList;
use tp_play::body::{
    Receiver, Receiving, RecvMsg, SendMsg, SendOperation, SendValue, Sent, VariableType,
};
use tp_tree::message::{Message, MessageTemplate};
use tp_tree::name::Name;
use tp_tree::tree;
use tp_tree::tree::{ComponentName, Receivers, VerdictName};
use tp_value::types::Ty;
use tp_value::verdict::Verdict;

fn resolve_written(
    alloc: Global,
    context: &Context,
    sendable: &TypeList,
    message: &Message,
) -> Result<SendMsg, ModuleFault>
    ensures message { IfOk result (stands_here IsMessage context.now message.now) }
    ensures listed { IfOk result (λ m. Contains sendable.now m.ty) }
    ensures told { IsSoundHere context.now → IfErr result (TellsAt context.now.line
        (breaks_here MessageBreaks context.now sendable.now message.now)) }
{
    let Some(ty) = find_type(context.scope.types, &message.type_name) else {
        return Err(context.unknown());
    };
    if !lists(sendable, ty) {
        return Err(context.direction());
    }
    let value = resolve_value(alloc, context, ty, &message.value)?;
    Ok(SendMsg { ty, value })
}

fn resolve_counter(
    context: &Context,
    sendable: &TypeList,
    place: usize,
) -> Result<SendMsg, ModuleFault>
    ensures value { IfOk result (λ m.
        m ≡ record { ty = Ty.Integer; value = SendValue.Turn place }) }
    ensures listed { IfOk result (λ _. Contains sendable.now Ty.Integer) }
    ensures told { IfErr result (λ fault.
        fault ≡ ModuleFault.Refused ModuleRule.Direction context.now.line) }
    ensures unlisted { OnErr result (Contains sendable.now Ty.Integer → ⊥) }
{
    if !lists(sendable, Ty::Integer) {
        return Err(context.direction());
    }
    Ok(SendMsg {
        ty: Ty::Integer,
        value: SendValue::Turn(place),
    })
}

fn variable_named(context: &Context, name: &str) -> Result<(usize, VariableType), ModuleFault>
    ensures no_turn { IfOk result (λ _. IsAbsent (texts context.now.turns.now) name.now) }
    ensures held { IfOk result (λ found.
        IsVariable context.now.variables.now name.now found.0 found.1) }
    ensures told { AreTyped context.now.variables.now
        → IfErr result (TellsAt context.now.line (here NamesNoVariable context.now name.now)) }
{
    let None = find(context.turns, name) else {
        return Err(context.wrong_type());
    };
    match find_variable(context.variables, name) {
        Some(found) => Ok(found),
        None => Err(context.no_variable(name)),
    }
}

fn message_variable(context: &Context, name: &str) -> Result<(usize, Ty), ModuleFault>
    ensures no_turn { IfOk result (λ _. IsAbsent (texts context.now.turns.now) name.now) }
    ensures held { IfOk result (λ found.
        IsVariable context.now.variables.now name.now found.0 (VariableType.Message found.1)) }
    ensures told { AreTyped context.now.variables.now
        → IfErr result (TellsAt context.now.line (here NamesNoMessage context.now name.now)) }
{
    let (place, held) = variable_named(context, name)?;
    match held {
        VariableType::Message(ty) => Ok((place, ty)),
        VariableType::Component => Err(context.wrong_type()),
    }
}

fn component_variable(context: &Context, name: &str) -> Result<usize, ModuleFault>
    ensures no_turn { IfOk result (λ _. IsAbsent (texts context.now.turns.now) name.now) }
    ensures held { IfOk result (λ place.
        IsVariable context.now.variables.now name.now place VariableType.Component) }
    ensures told { AreTyped context.now.variables.now
        → IfErr result (TellsAt context.now.line (here NamesNoComponent context.now name.now)) }
{
    let (place, held) = variable_named(context, name)?;
    match held {
        VariableType::Message(_) => Err(context.wrong_type()),
        VariableType::Component => Ok(place),
    }
}

fn resolve_sent(
    alloc: Global,
    context: &Context,
    sendable: &TypeList,
    sent: &tree::SentExpression,
) -> Result<Sent, ModuleFault>
    ensures stands { IfOk result (here IsSent context.now sendable.now sent.now) }
    ensures told { IsSoundHere context.now → AreTyped context.now.variables.now → IfErr result
        (TellsAt context.now.line (here SentBreaks context.now sendable.now sent.now)) }
{
    match sent {
        tree::SentExpression::Message(message) => {
            let written = resolve_written(alloc, context, sendable, message)?;
            Ok(Sent::Written(written))
        }
        tree::SentExpression::Variable(name) => {
            let name = name.as_str();
            // A loop variable is sent as the integer that it holds.
            if let Some(place) = find(context.turns, name) {
                let counter = resolve_counter(context, sendable, place)?;
                return Ok(Sent::Written(counter));
            }
            let (place, ty) = message_variable(context, name)?;
            if !lists(sendable, ty) {
                return Err(context.direction());
            }
            Ok(Sent::Variable(place))
        }
    }
}

fn is_variable(context: &Context, name: &str) -> bool
    ensures { IsTrue result ↔ (IsAbsent (texts context.now.turns.now) name.now
        × Contains context.now.variables.now.names name.now) }
{
    let None = find(context.turns, name) else {
        return false;
    };
    context.variables.names.has(name)
}

fn resolve_component(context: &Context, component: &ComponentName) -> Result<Receiver, ModuleFault>
    ensures stands { IfOk result
        (here IsReceiver context.now (Some (Receivers.Component component.now))) }
    ensures told { AreTyped context.now.variables.now → IfErr result (TellsAt context.now.line
        (here ReceiverBreaks context.now (Some (Receivers.Component component.now)))) }
{
    if let ComponentName::Named(name) = component {
        let name = name.as_str();
        if is_variable(context, name) {
            let place = component_variable(context, name)?;
            return Ok(Receiver::Variable(place));
        }
    }
    let Some(place) = find_reference(context, component) else {
        return Err(context.unknown());
    };
    Ok(Receiver::Reference(place))
}

fn resolve_receiver(context: &Context, to: &Option<Receivers>) -> Result<Receiver, ModuleFault>
    ensures stands { IfOk result (here IsReceiver context.now to.now) }
    ensures told { AreTyped context.now.variables.now
        → IfErr result (TellsAt context.now.line (here ReceiverBreaks context.now to.now)) }
{
    match to {
        None => Ok(Receiver::Nobody),
        Some(Receivers::AllComponents) => Ok(Receiver::All),
        Some(Receivers::Component(component)) => resolve_component(context, component),
    }
}

/// Resolves a send (ES 201 873-1, 22.2.1). Its refusals, at the line of the context, in this order:
/// 11 `Unknown` for the port; for a message its type (11), the port's direction (14 `Direction`)
/// and the value; for a variable its name (11, 13 `WrongType`) and the direction (14); then the
/// receiver (11, 13).
pub fn resolve_send(
    alloc: Global,
    context: &Context,
    send: &tree::Send,
) -> Result<SendOperation, ModuleFault>
    ensures stands { IfOk result (here IsSend context.now send.now) }
    ensures told { IsSoundHere context.now → AreTyped context.now.variables.now
        → IfErr result (TellsAt context.now.line (here SendBreaks context.now send.now)) }
{
    let Some((place, port)) = find_port(context.scope, send.port.as_str()) else {
        return Err(context.unknown());
    };
    let sendable = sendable(context.scope.behaviour, port);
    let sent = resolve_sent(alloc, context, sendable, &send.sent)?;
    let to = resolve_receiver(context, &send.to)?;
    Ok(SendOperation {
        port: place,
        sent,
        to,
    })
}

fn resolve_wanted(
    alloc: Global,
    context: &Context,
    receivable: &TypeList,
    template: &Option<MessageTemplate>,
) -> Result<RecvMsg, ModuleFault>
    ensures stands { IfOk result (IsWanted (visible_in context.now.scope.now)
        (texts context.now.turns.now) receivable.now template.now) }
    ensures told { IsSoundHere context.now → IfErr result (TellsAt context.now.line
        (breaks_here WantedBreaks context.now receivable.now template.now)) }
{
    let Some(template) = template else {
        return Ok(RecvMsg::Any);
    };
    let Some(ty) = find_type(context.scope.types, &template.type_name) else {
        return Err(context.unknown());
    };
    if !lists(receivable, ty) {
        return Err(context.direction());
    }
    let made = resolve_template(alloc, context, ty, &template.template)?;
    Ok(RecvMsg::Of(ty, made))
}

fn resolve_sender(
    context: &Context,
    sender: &Option<ComponentName>,
) -> Result<Option<usize>, ModuleFault>
    ensures stands { IfOk result (here IsFrom context.now sender.now) }
    ensures told { IfErr result
        (TellsAt context.now.line (here FromBreaks context.now sender.now)) }
{
    let Some(component) = sender else {
        return Ok(None);
    };
    let Some(place) = find_reference(context, component) else {
        return Err(context.no_reference(component));
    };
    Ok(Some(place))
}

fn resolve_value_target(
    context: &Context,
    wanted: &RecvMsg,
    target: &Option<Name>,
) -> Result<Option<usize>, ModuleFault>
    ensures stands { IfOk result (IsValueTarget
        context.now.variables.now (texts context.now.turns.now) wanted.now target.now) }
    ensures told { AreTyped context.now.variables.now → IfErr result
        (TellsAt context.now.line (here ValueTargetBreaks context.now wanted.now target.now)) }
{
    let Some(name) = target else {
        return Ok(None);
    };
    let (place, held) = message_variable(context, name.as_str())?;
    match wanted {
        RecvMsg::Any => Err(context.wrong_type()),
        RecvMsg::Of(ty, _) => {
            context.check_type(*ty, held)?;
            Ok(Some(place))
        }
    }
}

fn resolve_sender_target(
    context: &Context,
    target: &Option<Name>,
) -> Result<Option<usize>, ModuleFault>
    ensures stands { IfOk result (IsSenderTarget
        context.now.variables.now (texts context.now.turns.now) target.now) }
    ensures told { AreTyped context.now.variables.now
        → IfErr result (TellsAt context.now.line (here SenderTargetBreaks context.now target.now)) }
{
    let Some(name) = target else {
        return Ok(None);
    };
    let place = component_variable(context, name.as_str())?;
    Ok(Some(place))
}

/// Resolves a receiving operation (ES 201 873-1, 22.2.2 to 22.2.4). Its refusals, at the line of
/// the context, in this order: 11 `Unknown` for the port; the template's type (11), the port's
/// direction (14 `Direction`) and the template; the component after `from` (11, 13 `WrongType`);
/// the variable after `value`, then the one after `sender` (11, 13).
pub fn resolve_receive(
    alloc: Global,
    context: &Context,
    receive: &tree::Receive,
) -> Result<Receiving, ModuleFault>
    ensures stands { IfOk result (here IsReceive context.now receive.now) }
    ensures told { IsSoundHere context.now → AreTyped context.now.variables.now
        → IfErr result (TellsAt context.now.line (here ReceiveBreaks context.now receive.now)) }
{
    let Some((place, port)) = find_port(context.scope, receive.port.as_str()) else {
        return Err(context.unknown());
    };
    let receivable = receivable(context.scope.behaviour, port);
    let template = &receive.template;
    let wanted = resolve_wanted(alloc, context, receivable, template)?;
    let sender = resolve_sender(context, &receive.sender)?;
    let redirect = &receive.redirect;
    let value_to = resolve_value_target(context, &wanted, &redirect.value)?;
    let sender_to = resolve_sender_target(context, &redirect.sender)?;
    Ok(Receiving {
        port: place,
        kind: receive.kind,
        wanted,
        sender,
        value_to,
        sender_to,
    })
}

/// 13 `WrongType` at the line of the context for `error`.
pub fn resolve_verdict(context: &Context, name: VerdictName) -> Result<Verdict, ModuleFault>
    ensures verdict { IfOk result (IsVerdict name) }
    ensures told { IfErr result (λ fault.
        fault ≡ ModuleFault.Refused ModuleRule.WrongType context.now.line) }
    ensures error { OnErr result (name ≡ VerdictName.Error) }
{
    match name {
        VerdictName::NoVerdict => Ok(Verdict::None),
        VerdictName::Pass => Ok(Verdict::Pass),
        VerdictName::Inconc => Ok(Verdict::Inconc),
        VerdictName::Fail => Ok(Verdict::Fail),
        VerdictName::Error => Err(context.wrong_type()),
    }
}

//! Statements and bodies.
#![tactic(auto, using(crate::proofs::DefinitionLines::statements))]

ghost use Rattle.std.specs.Prelude.{◌≡◌, ◌∷◌, ◌++◌, [], IfErr, IfOk, List, length};
ghost use Rattle.tp_checks.specs.{Named.texts, Refused.IsRefusedBy, Refused.Tells, BrokenBodies.StatementBreaks};
ghost use Rattle.tp_checks.specs.Bodies.{AreBranches, IsAfter, IsBlock, IsBody, IsBranch, IsStatement};
ghost use Rattle.tp_checks.specs.BrokenBodies.{AfterBreaks, BlockBreaks, BodyBreaks, BranchBreaks, BranchesBreak};
ghost use Rattle.tp_checks.specs.NeededLoopVariables.{needed_around_all};
ghost use Rattle.tp_checks.specs.Scoping.{AreTyped, IsSoundHere, IsSoundScope, here, reference_count, visible_in};
ghost use Rattle.tp_play.specs.Playable.{IsPlayable};

use crate::context::Context;
use crate::fault::{ModuleFault, ModuleRule, refused};
use crate::lookup::find_port;
use crate::name::BorrowedName;
use crate::operations::{resolve_receive, resolve_send, resolve_verdict};
use crate::scope::Scope;
use crate::variables::{are_no_ports, is_new, resolve_variables};
use std::alloc::Global;
use tp_common::operation::PortOperation;
use tp_play::body::{Body, ResolvedBranch, ResolvedStatement};
use tp_tree::tree;
use tp_tree::tree::{Action, BranchBody, Control, Counted, Turns, Variable, VerdictName};
use tp_value::items::Items;

#[tactic(auto, using(std::proofs::lemmas::List::map_push))]
fn turns_inside<'m>(
    alloc: Global,
    turns: &[BorrowedName<'m>],
    name: &'m str,
) -> Result<Vec<BorrowedName<'m>>, ModuleFault>
    ensures inside { IfOk result (λ inside. texts inside.items ≡ texts turns.now ++ name.now ∷ []) }
    ensures memory { IfErr result (λ fault. fault ≡ ModuleFault.Memory (record {})) }
{
    let mut inside = Vec::from_slice(alloc, turns)?;
    inside.push(BorrowedName { text: name })?;
    Ok(inside)
}

fn counted_for(turns: &Turns, block: Items<ResolvedStatement>) -> ResolvedStatement
    ensures { result ≡ ResolvedStatement.For turns.now.first turns.now.bound block }
{
    ResolvedStatement::For(turns.first, turns.bound, block)
}

fn resolve_control(context: &Context, control: &Control) -> Result<ResolvedStatement, ModuleFault>
    ensures stands { IfOk result (here IsStatement context.now (Action.Control control.now)) }
    ensures told { IsSoundHere context.now → IfErr result
        (Tells (here StatementBreaks context.now context.now.line (Action.Control control.now))) }
{
    context.check_not_in_sut()?;
    let Some((place, _)) = find_port(context.scope, control.port.as_str()) else {
        return Err(context.unknown());
    };
    Ok(ResolvedStatement::Control(place, control.operation))
}

fn resolve_all_ports(
    context: &Context,
    operation: PortOperation,
) -> Result<ResolvedStatement, ModuleFault>
    ensures stands { IfOk result (here IsStatement context.now (Action.AllPorts operation)) }
    ensures told { IfErr result
        (Tells (here StatementBreaks context.now context.now.line (Action.AllPorts operation))) }
{
    context.check_not_in_sut()?;
    Ok(ResolvedStatement::AllPorts(operation))
}

fn resolve_set_verdict(
    context: &Context,
    name: VerdictName,
) -> Result<ResolvedStatement, ModuleFault>
    ensures stands { IfOk result (here IsStatement context.now (Action.SetVerdict name)) }
    ensures told { IfErr result
        (Tells (here StatementBreaks context.now context.now.line (Action.SetVerdict name))) }
{
    context.check_not_in_sut()?;
    let verdict = resolve_verdict(context, name)?;
    Ok(ResolvedStatement::SetVerdict(verdict))
}

/// It returns the first fault in the order of the text, at the line of its statement or branch:
/// those of a send, of a receiving operation, of an operation on ports and of `setverdict`, and 12
/// `Duplicate` for a loop variable whose name isn't new, before the faults of its block.
#[cycle(statement)]
fn resolve_statement<'m>(
    alloc: Global,
    context: &Context<'_, '_, 'm>,
    action: &'m Action,
) -> Result<ResolvedStatement, ModuleFault>
    ensures stands { IfOk result (here IsStatement context.now action.now) }
    ensures told { IsSoundHere context.now → AreTyped context.now.variables.now
        → IfErr result (Tells (here StatementBreaks context.now context.now.line action.now)) }
{
    match action {
        Action::Send(send) => {
            let sending = resolve_send(alloc, context, send)?;
            Ok(ResolvedStatement::Send(sending))
        }
        Action::Receive(receive) => {
            let receiving = resolve_receive(alloc, context, receive)?;
            Ok(ResolvedStatement::Receive(receiving))
        }
        Action::Control(control) => resolve_control(context, control),
        Action::AllPorts(operation) => resolve_all_ports(context, *operation),
        Action::SetVerdict(name) => resolve_set_verdict(context, *name),
        Action::Alt(branches, otherwise) => {
            let made = resolve_branches(alloc, context, branches.as_slice())?;
            let Some(otherwise) = otherwise else {
                return Ok(ResolvedStatement::Alt(made, None));
            };
            let block = resolve_block(alloc, context, otherwise.block.as_slice())?;
            Ok(ResolvedStatement::Alt(made, Some(block)))
        }
        Action::For(looped) => resolve_for(alloc, context, looped),
    }
}

#[cycle(statement)]
fn resolve_for<'m>(
    alloc: Global,
    context: &Context<'_, '_, 'm>,
    looped: &'m Counted,
) -> Result<ResolvedStatement, ModuleFault>
    ensures stands { IfOk result (here IsStatement context.now (Action.For looped.now)) }
    ensures told { IsSoundHere context.now → AreTyped context.now.variables.now → IfErr result
        (Tells (here StatementBreaks context.now context.now.line (Action.For looped.now))) }
{
    let name = looped.turns.name.as_str();
    if !is_new(context, name) {
        return Err(context.duplicate());
    }
    let inside = turns_inside(alloc, context.turns, name)?;
    let around = Context {
        turns: &inside,
        ..*context
    };
    let block = resolve_block(alloc, &around, looped.block.as_slice())?;
    Ok(counted_for(&looped.turns, block))
}

#[cycle(statement)]
fn resolve_block<'m>(
    alloc: Global,
    context: &Context<'_, '_, 'm>,
    block: &'m [tree::Statement],
) -> Result<Items<ResolvedStatement>, ModuleFault>
    ensures stands { IfOk result (here IsBlock context.now block.now) }
    ensures told { IsSoundHere context.now → AreTyped context.now.variables.now
        → IfErr result (Tells (here BlockBreaks context.now block.now)) }
{
    let mut made = Items::new(alloc);
    for statement in block {
        let here = Context {
            line: statement.line,
            ..*context
        };
        let one = resolve_statement(alloc, &here, &statement.action)?;
        made.push(one)?;
    }
    Ok(made)
}

#[cycle(statement)]
fn resolve_after<'m>(
    alloc: Global,
    context: &Context<'_, '_, 'm>,
    body: &'m BranchBody,
) -> Result<Items<ResolvedStatement>, ModuleFault>
    ensures stands { IfOk result (here IsAfter context.now body.now) }
    ensures told { IsSoundHere context.now → AreTyped context.now.variables.now
        → IfErr result (Tells (here AfterBreaks context.now body.now)) }
{
    match body {
        BranchBody::Nothing => Ok(Items::new(alloc)),
        BranchBody::Block(statements) => resolve_block(alloc, context, statements.as_slice()),
    }
}

#[cycle(statement)]
fn resolve_branch<'m>(
    alloc: Global,
    context: &Context<'_, '_, 'm>,
    branch: &'m tree::Branch,
) -> Result<ResolvedBranch, ModuleFault>
    ensures stands { IfOk result (here IsBranch context.now branch.now) }
    ensures told { IsSoundHere context.now → AreTyped context.now.variables.now
        → IfErr result (Tells (here BranchBreaks context.now branch.now)) }
{
    let here = Context {
        line: branch.line,
        ..*context
    };
    let receiving = resolve_receive(alloc, &here, &branch.receive)?;
    let block = resolve_after(alloc, context, &branch.body)?;
    Ok(ResolvedBranch { receiving, block })
}

#[cycle(statement)]
fn resolve_branches<'m>(
    alloc: Global,
    context: &Context<'_, '_, 'm>,
    branches: &'m [tree::Branch],
) -> Result<Items<ResolvedBranch>, ModuleFault>
    ensures stands { IfOk result (here AreBranches context.now branches.now) }
    ensures told { IsSoundHere context.now → AreTyped context.now.variables.now
        → IfErr result (Tells (here BranchesBreak context.now branches.now)) }
{
    let mut made = Items::new(alloc);
    for branch in branches {
        let one = resolve_branch(alloc, context, branch)?;
        made.push(one)?;
    }
    Ok(made)
}

/// Resolves a body: its variables and its statements. It returns the first fault in the order of
/// the text: 12 `Duplicate`, at `line`, which is that of the function, for a parameter with the
/// name of a port; then those of [`resolve_variables`]; then those of the statements. The contract
/// says that the body breaks this rule only if the scope is sound: at most 64 ports, and no two
/// fields of a record type with one name.
pub fn resolve_body(
    alloc: Global,
    scope: &Scope,
    line: u32,
    declared: &[Variable],
    statements: &[tree::Statement],
) -> Result<Body, ModuleFault>
    ensures body { IfOk result (IsBody (visible_in scope.now) declared.now statements.now) }
    ensures told { IsSoundScope (visible_in scope.now) → IfErr result
        (Tells (BodyBreaks (visible_in scope.now) line declared.now statements.now)) }
    ensures refused { IsSoundScope (visible_in scope.now) → IfErr result (IsRefusedBy
        ((body : Body) × IsBody (visible_in scope.now) declared.now statements.now body)) }
    ensures closed { IfOk result (λ body. needed_around_all body.statements ≡ 0) }
    ensures playable { let seen = visible_in scope.now in
        IfOk result (IsPlayable seen.types (length seen.ports.names) (reference_count seen)) }
{
    if !are_no_ports(scope) {
        return Err(refused(ModuleRule::Duplicate, line));
    }
    let variables = resolve_variables(alloc, scope, declared)?;
    let context = Context {
        scope,
        variables: &variables,
        turns: &[],
        line,
    };
    let statements = resolve_block(alloc, &context, statements)?;
    Ok(Body {
        variables: variables.types,
        statements,
    })
}

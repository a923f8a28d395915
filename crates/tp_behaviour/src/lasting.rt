//! The templates without a loop variable, which last while a behaviour runs.
ghost use Rattle.std.specs.Prelude.{IfOk};
ghost use Rattle.tp_behaviour.specs.Lasting.{AreLasting, AreLastingBranches, IsLasting, IsLastingBranch};
ghost use Rattle.tp_behaviour.specs.Lasting.{IsWantedAlways};

use crate::fixed::is_fixed;
use std::alloc::Global;
use tp_common::memory::Memory;
use tp_play::body::{RecvMsg, ResolvedBranch, ResolvedStatement};
use tp_play::fill::fill_template;
use tp_value::items::Items;
use tp_value::message::MsgTemplate;

/// The lasting templates of a statement, or of a branch of an `alt`.
#[derive(Drop)]
pub struct Lasting {
    /// The template of its receiving operation, if it has no loop variable.
    pub wanted: Option<MsgTemplate>,
    pub branches: Items<Lasting>,
    /// For a `for`, a branch, or an `alt` with `[else]`: those of the statements of its block.
    pub block: Items<Lasting>,
}

/// The statements of a block, and the lasting templates of each.
#[derive(Clone, Copy)]
pub(crate) struct Block<'t> {
    pub statements: &'t [ResolvedStatement],
    pub lasting: &'t [Lasting],
}

/// The branches of an `alt`, and the lasting templates of each.
#[derive(Clone, Copy)]
pub(crate) struct Alt<'t> {
    pub branches: &'t [ResolvedBranch],
    /// True if `[else]` follows them.
    pub has_else: bool,
    pub lasting: &'t [Lasting],
}

fn lasting_template(alloc: Global, wanted: &RecvMsg) -> Result<Option<MsgTemplate>, Memory>
    ensures { IfOk result (IsWantedAlways wanted.now) }
{
    match wanted {
        RecvMsg::Any => Ok(Some(MsgTemplate::Any)),
        RecvMsg::Of(_, template) => {
            if !is_fixed(template) {
                return Ok(None);
            }
            let made = fill_template(alloc, wanted, &[])?;
            Ok(Some(made))
        }
    }
}

fn nothing(alloc: Global) -> Lasting {
    Lasting {
        wanted: None,
        branches: Items::new(alloc),
        block: Items::new(alloc),
    }
}

#[cycle(lasting)]
pub(crate) fn lasting_block(
    alloc: Global,
    block: &[ResolvedStatement],
) -> Result<Items<Lasting>, Memory>
    ensures { IfOk result (AreLasting block.now) }
{
    let mut made = Items::new(alloc);
    for statement in block {
        let one = lasting_statement(alloc, statement)?;
        made.push(one)?;
    }
    Ok(made)
}

#[cycle(lasting)]
fn lasting_statement(alloc: Global, statement: &ResolvedStatement) -> Result<Lasting, Memory>
    ensures { IfOk result (IsLasting statement.now) }
{
    match statement {
        ResolvedStatement::Receive(receiving) => {
            let wanted = lasting_template(alloc, &receiving.wanted)?;
            Ok(Lasting {
                wanted,
                branches: Items::new(alloc),
                block: Items::new(alloc),
            })
        }
        ResolvedStatement::Alt(branches, otherwise) => {
            let branches = lasting_branches(alloc, branches.as_slice())?;
            let block = match otherwise {
                Some(block) => lasting_block(alloc, block.as_slice())?,
                None => Items::new(alloc),
            };
            Ok(Lasting {
                wanted: None,
                branches,
                block,
            })
        }
        ResolvedStatement::For(_, _, block) => {
            let block = lasting_block(alloc, block.as_slice())?;
            Ok(Lasting {
                wanted: None,
                branches: Items::new(alloc),
                block,
            })
        }
        ResolvedStatement::Send(_) => Ok(nothing(alloc)),
        ResolvedStatement::Control(_, _) => Ok(nothing(alloc)),
        ResolvedStatement::AllPorts(_) => Ok(nothing(alloc)),
        ResolvedStatement::SetVerdict(_) => Ok(nothing(alloc)),
    }
}

#[cycle(lasting)]
fn lasting_branches(alloc: Global, branches: &[ResolvedBranch]) -> Result<Items<Lasting>, Memory>
    ensures { IfOk result (AreLastingBranches branches.now) }
{
    let mut made = Items::new(alloc);
    for branch in branches {
        let one = lasting_branch(alloc, branch)?;
        made.push(one)?;
    }
    Ok(made)
}

#[cycle(lasting)]
fn lasting_branch(alloc: Global, branch: &ResolvedBranch) -> Result<Lasting, Memory>
    ensures { IfOk result (IsLastingBranch branch.now) }
{
    let wanted = lasting_template(alloc, &branch.receiving.wanted)?;
    let block = lasting_block(alloc, branch.block.as_slice())?;
    Ok(Lasting {
        wanted,
        branches: Items::new(alloc),
        block,
    })
}

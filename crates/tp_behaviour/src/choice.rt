//! How the branches of an `alt` are tried.
ghost use Rattle.std.specs.Prelude.{◌<◌, ◌≡◌, All, IfOk};
ghost use Rattle.tp_behaviour.specs.Looks.{Looked, Tried};
ghost use Rattle.tp_behaviour.specs.Views.{all_viewed, viewed};

use crate::gate::Gate;
use tp_common::memory::Memory;
use tp_common::operation::ReceiveKind;
use tp_common::payload::Wanted;
use tp_inbox::desk::Desk;
use tp_inbox::triggered::Triggered;
use tp_value::message::{Message, MsgTemplate};

/// A receiving operation with the values of its loop variables and references.
#[derive(Drop)]
pub struct Guard {
    /// The port, by its place in the component type.
    pub port: u32,
    pub kind: ReceiveKind,
    pub wanted: MsgTemplate,
    /// The number of the component after `from`.
    pub sender: Option<u32>,
}

#[derive(Drop)]
pub enum TemplateView<'t> {
    /// A template without a loop variable: it was filled once for the whole behaviour.
    Lasting(&'t MsgTemplate),
    /// A template filled for this turn of the loop. Boxed, because few are, and each look at a
    /// branch moves a view.
    Filled(Box<MsgTemplate>),
}

impl Wanted<Message> for TemplateView<'_> {
    ghost use Rattle.tp_behaviour.specs.Views.{Seeks};

    ghost admits = { Seeks };

    fn admits(&self, msg: &Message) -> bool {
        match self {
            TemplateView::Lasting(template) => template.admits(msg),
            TemplateView::Filled(template) => template.admits(msg),
        }
    }
}

#[derive(Drop)]
pub struct GuardView<'t> {
    pub port: u32,
    pub kind: ReceiveKind,
    pub wanted: TemplateView<'t>,
    pub sender: Option<u32>,
}

/// The result of trying branches.
#[derive(Clone, Copy)]
pub enum LookResult {
    /// The branch at this place took or found the message in the last entry of the history.
    Taken(usize),
    Discarded,
    Nothing,
}

/// Tries a `receive` (ES 201 873-1, 22.2.2).
fn try_receive(desk: &mut Desk, guard: &GuardView<'_>, branch: usize) -> Result<LookResult, Memory>
    requires within { guard.now.port < desk.old.ports }
    requires kind { guard.now.kind ≡ ReceiveKind.Receive }
    ensures { IfOk result (λ look. Tried (viewed guard.now) branch desk.old look desk.new) }
{
    if desk.receive(guard.port, &guard.wanted, guard.sender, branch)? {
        Ok(LookResult::Taken(branch))
    } else {
        Ok(LookResult::Nothing)
    }
}

/// Tries a `trigger` (22.2.3).
fn try_trigger(desk: &mut Desk, guard: &GuardView<'_>, branch: usize) -> Result<LookResult, Memory>
    requires within { guard.now.port < desk.old.ports }
    requires kind { guard.now.kind ≡ ReceiveKind.Trigger }
    ensures { IfOk result (λ look. Tried (viewed guard.now) branch desk.old look desk.new) }
{
    match desk.trigger(guard.port, &guard.wanted, guard.sender, branch)? {
        Triggered::Took => Ok(LookResult::Taken(branch)),
        Triggered::Dropped => Ok(LookResult::Discarded),
        Triggered::Nothing => Ok(LookResult::Nothing),
    }
}

/// Tries a `check` (22.4).
fn try_check(desk: &mut Desk, guard: &GuardView<'_>, branch: usize) -> Result<LookResult, Memory>
    requires within { guard.now.port < desk.old.ports }
    requires kind { guard.now.kind ≡ ReceiveKind.Check }
    ensures { IfOk result (λ look. Tried (viewed guard.now) branch desk.old look desk.new) }
{
    match desk.check(guard.port, &guard.wanted, guard.sender, branch)? {
        Some(_) => Ok(LookResult::Taken(branch)),
        None => Ok(LookResult::Nothing),
    }
}

pub(crate) fn attempt(
    desk: &mut Desk,
    guard: &GuardView<'_>,
    branch: usize,
) -> Result<LookResult, Memory>
    requires { guard.now.port < desk.old.ports }
    ensures { IfOk result (λ look. Tried (viewed guard.now) branch desk.old look desk.new) }
{
    match guard.kind {
        ReceiveKind::Receive => try_receive(desk, guard, branch),
        ReceiveKind::Trigger => try_trigger(desk, guard, branch),
        ReceiveKind::Check => try_check(desk, guard, branch),
    }
}

/// Tries the branches from top to bottom, up to the first that does something (20.2). Calls the
/// gate before each.
pub(crate) fn snapshot<G: Gate>(
    gate: &G,
    desk: &mut Desk,
    guards: &[GuardView<'_>],
) -> Result<LookResult, Memory>
    requires { All (λ g. g.port < desk.old.ports) guards.now }
    ensures { IfOk result (λ look. Looked (all_viewed guards.now) desk.old look desk.new) }
{
    for (branch, guard) in guards.iter().enumerate() {
        gate.inside(desk.comp(), guard.port);
        match attempt(&mut *desk, guard, branch)? {
            LookResult::Nothing => {}
            look => return Ok(look),
        }
    }
    Ok(LookResult::Nothing)
}

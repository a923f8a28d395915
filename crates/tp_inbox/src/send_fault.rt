//! Reasons why a send fails.
ghost use Rattle.std.specs.Prelude.{◌≡◌};
ghost use Rattle.tp_inbox.specs.Faults.{send_refusal};

use tp_common::refusal::Refusal;
use tp_config::routes::RouteFault;

/// Why a send failed, which ends the behaviour (ES 201 873-1, 22.2.1, 24.1): the first of these
/// causes that holds, in this order.
#[derive(Clone, Copy, Debug)]
pub enum SendFault {
    /// 40 NotSending: the port isn't started.
    NotSending,
    /// 43 UnsetVariable: the variable that is sent, or the one that names the receiver, has no
    /// value.
    UnsetVariable,
    /// 41 NoRoute or 42 NeedsTo: the port has no route, none to the component named, or several
    /// while none is named.
    Unrouted(RouteFault),
}

impl SendFault {
    pub fn refusal(self) -> Refusal
        ensures { result ≡ send_refusal self }
    {
        match self {
            SendFault::NotSending => Refusal::NotSending,
            SendFault::UnsetVariable => Refusal::UnsetVariable,
            SendFault::Unrouted(fault) => fault.refusal(),
        }
    }
}

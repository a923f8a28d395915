//! Laws about reports. Each is the contract of a function that does nothing.
ghost use Rattle.tp_exec.specs.Laws.{RoutesFollow, TracesAreLawful};
ghost use Rattle.tp_exec.specs.LookLaws.{CrossedLooks, LooksSeeSent};
ghost use Rattle.tp_exec.specs.MessageLaws.{DeliveryIsCausal, MessagesComeAsSent};

/// Delivery between two components implies delivery on each route from one to the other.
pub fn routes_follow()
    ensures { RoutesFollow }
{}

/// The trace of a report is lawful: its histories obey the rules of ports, of delivery on every
/// route, and of circles.
pub fn traces_are_lawful()
    ensures { TracesAreLawful }
{}

/// In an order that gives the histories of a report, a look at ports sees exactly the messages sent
/// to its component before.
pub fn looks_see_sent()
    ensures { LooksSeeSent }
{}

/// If two components each send to the other and then look, at least one of them sees the other's
/// message, in any histories that one order gives.
pub fn crossed_looks()
    ensures { CrossedLooks }
{}

/// In an order that gives the histories of a report, all messages to a component arrive as they are
/// sent: before one is on top of a queue, the component has got everything sent to it before.
pub fn messages_come_as_sent()
    ensures { MessagesComeAsSent }
{}

/// If one order gives a report, delivery is causal: of two messages to one component, the one whose
/// sending happened before the other's arrives first.
pub fn delivery_is_causal()
    ensures { DeliveryIsCausal }
{}

//! The lines of a trace, with numbers instead of names and messages.
ghost use Rattle.std.specs.Prelude.{◌≡◌};
ghost use Rattle.tp_judge.specs.OneRun.{is_own};
ghost use Rattle.tp_judge.specs.Lines.{came_route, event_port, key_of, left_port, parcel_of, sent_route};

/// Two messages have the same number if and only if their bytes are the same.
#[derive(Clone, Copy, PartialEq, Eq)]
pub struct MessageId(pub u32);

#[derive(Clone, Copy, PartialEq, Eq)]
pub struct Parcel {
    /// The number on the route, from 0.
    pub number: u64,
    pub message: MessageId,
}

/// A parcel that a line names, with its route and the port at the route's end. A route is a sender
/// and a port, so at one port a route stands for its sender.
#[derive(Clone, Copy)]
pub struct Mention {
    pub port: u32,
    pub route: u32,
    pub parcel: Parcel,
}

/// The content of a line. A port is a number among the ports of all components.
#[derive(Clone, Copy)]
pub enum Act {
    Sent(Mention),
    Came(Mention),
    Took(Mention),
    Found(Mention),
    Dropped(Mention),
    /// It was still queued when the component ended.
    Left(Mention),
    Cleared(u32),
    Started(u32),
    Stopped(u32),
    Halted(u32),
    /// The component chose `[else]`.
    Else,
    End,
    /// No rule concerns this line.
    Other,
}

#[derive(Clone, Copy)]
pub struct IndexedLine {
    pub number: u32,
    /// The component of its section. A component has at most one section.
    pub component: u32,
    pub act: Act,
}

/// The number by which lines are gathered.
#[derive(Clone, Copy)]
pub enum By {
    /// For sendings, the route.
    Sent,
    /// For arrivals, the route.
    Came,
    /// For events at a port, the port.
    Port,
    /// For messages left in a queue, the port.
    Left,
    /// For lines that say what was left, or that the component ended, the component.
    Closing,
    /// For all lines, the component.
    Component,
}

impl IndexedLine {
    pub fn key(&self, by: By) -> Option<u32>
        ensures { result ≡ key_of by self.now }
    {
        match by {
            By::Sent => self.act.sent(),
            By::Came => self.act.came(),
            By::Port => self.act.port(),
            By::Left => self.act.left(),
            By::Closing => self.closed_section(),
            By::Component => Some(self.component),
        }
    }

    fn closed_section(&self) -> Option<u32>
        ensures { result ≡ key_of By.Closing self.now }
    {
        match self.act {
            Act::Left(_) | Act::End => Some(self.component),
            _ => None,
        }
    }
}

impl Act {
    fn sent(self) -> Option<u32>
        ensures { result ≡ sent_route self }
    {
        match self {
            Act::Sent(mention) => Some(mention.route),
            _ => None,
        }
    }

    fn came(self) -> Option<u32>
        ensures { result ≡ came_route self }
    {
        match self {
            Act::Came(mention) => Some(mention.route),
            _ => None,
        }
    }

    fn port(self) -> Option<u32>
        ensures { result ≡ event_port self }
    {
        match self {
            Act::Came(mention) | Act::Took(mention) | Act::Found(mention) | Act::Dropped(mention) =>
                { Some(mention.port) }
            Act::Cleared(port) | Act::Started(port) | Act::Stopped(port) | Act::Halted(port) => {
                Some(port)
            }
            Act::Sent(_) | Act::Left(_) | Act::Else | Act::End | Act::Other => None,
        }
    }

    fn left(self) -> Option<u32>
        ensures { result ≡ left_port self }
    {
        match self {
            Act::Left(mention) => Some(mention.port),
            _ => None,
        }
    }

    /// Whether the component did this itself.
    pub(crate) fn is_own(self) -> bool
        ensures { result ≡ is_own self }
    {
        match self {
            Act::Came(_) | Act::Left(_) => false,
            Act::Sent(_)
            | Act::Took(_)
            | Act::Found(_)
            | Act::Dropped(_)
            | Act::Cleared(_)
            | Act::Started(_)
            | Act::Stopped(_)
            | Act::Halted(_)
            | Act::Else
            | Act::End
            | Act::Other => true,
        }
    }

    pub(crate) fn parcel(self) -> Option<Parcel>
        ensures { result ≡ parcel_of self }
    {
        match self {
            Act::Sent(mention) | Act::Came(mention) => Some(mention.parcel),
            _ => None,
        }
    }
}

//! The bodies of a test case, with resolved statements.
use tp_common::operation::{PortOperation, ReceiveKind};
use tp_value::items::Items;
use tp_value::shared::Shared;
use tp_value::template::PatternPart;
use tp_value::types::Ty;
use tp_value::verdict::Verdict;

/// A value to send, in which a loop variable may stand for an integer (ES 201 873-1, 22.2.1).
#[derive(Drop)]
pub enum SendValue {
    Int(i64),
    Bool(bool),
    /// A charstring, as its characters, which all messages made of it share.
    Text(Shared<u8>),
    /// The value of the loop variable at this place; the outermost one has place 0.
    Turn(usize),
    /// A record, as the values of its fields in declared order.
    Record(Items<SendValue>),
    List(Items<SendValue>),
}

#[derive(Drop)]
pub struct SendMsg {
    /// The type under which it is sent.
    pub ty: Ty,
    pub value: SendValue,
}

/// A template in which a loop variable may stand for an integer (ES 201 873-1, 15 and Annex B).
#[derive(Drop)]
pub enum RecvTemplate {
    Exact(SendValue),
    /// `?`
    Any,
    /// `*`, which is allowed only among the elements of a `List`.
    AnyOrNone,
    /// `(t1, t2, ..)`
    OneOf(Items<RecvTemplate>),
    /// `complement (t1, ..)`
    NoneOf(Items<RecvTemplate>),
    /// `(lower .. upper)`; a missing bound is `-infinity` or `infinity`.
    Range(Option<i64>, Option<i64>),
    /// `pattern "..."`
    Pattern(Items<PatternPart>),
    /// `{..}` for a record: one template for each field, in declared order.
    Record(Items<RecvTemplate>),
    /// `{..}` for a record of.
    List(Items<RecvTemplate>),
}

/// The wanted part of a receiving operation, in which loop variables may stand for integers.
#[derive(Drop)]
pub enum RecvMsg {
    /// Every message: there is no template.
    Any,
    /// The messages of exactly this type whose value matches the template.
    Of(Ty, RecvTemplate),
}

#[derive(Drop)]
pub enum Sent {
    Written(SendMsg),
    /// The message held by the variable at this place of the body's variables.
    Variable(usize),
}

#[derive(Clone, Copy)]
pub enum Receiver {
    Nobody,
    /// The component at this place of the references.
    Reference(usize),
    /// The component held by the variable at this place of the body's variables.
    Variable(usize),
    All,
}

/// A send (ES 201 873-1, 22.2.1).
#[derive(Drop)]
pub struct SendOperation {
    /// The port, by its place in the component type.
    pub port: u32,
    pub sent: Sent,
    pub to: Receiver,
}

/// A receiving operation (ES 201 873-1, 22.2.2 to 22.2.4).
#[derive(Drop)]
pub struct Receiving {
    pub port: u32,
    pub kind: ReceiveKind,
    pub wanted: RecvMsg,
    /// The component after `from`, by its place among the references.
    pub sender: Option<usize>,
    /// The variable that stores the value, by its place among the body's variables.
    pub value_to: Option<usize>,
    /// The variable that stores the sender, by its place among the body's variables.
    pub sender_to: Option<usize>,
}

/// A statement (ES 201 873-1, 19 to 24).
#[derive(Drop)]
#[cycle(body)]
pub enum ResolvedStatement {
    Send(SendOperation),
    Receive(Receiving),
    Control(u32, PortOperation),
    /// An operation on each port, in declared order.
    AllPorts(PortOperation),
    SetVerdict(Verdict),
    Alt(Items<ResolvedBranch>, Option<Items<ResolvedStatement>>),
    /// A counted `for`: the first value of its variable, the bound that the variable stays below,
    /// and its block.
    For(i64, i64, Items<ResolvedStatement>),
}

/// A branch of an `alt` with a receiving operation (ES 201 873-1, 20.2).
#[derive(Drop)]
#[cycle(body)]
pub struct ResolvedBranch {
    pub receiving: Receiving,
    pub block: Items<ResolvedStatement>,
}

/// The type of a variable of a body (ES 201 873-1, 11.1).
#[derive(Clone, Copy)]
pub enum VariableType {
    Message(Ty),
    /// A component of any type.
    Component,
}

/// A body: its variables, in the order of the text, and its statements.
pub struct Body {
    pub variables: Items<VariableType>,
    pub statements: Items<ResolvedStatement>,
}

impl Drop for Body {
    // Written out, so that an owner's drop calls this one, and needs no proof about the fields.
    fn drop(self) {
        let Body {
            variables,
            statements,
        } = self;
        drop((variables, statements));
    }
}

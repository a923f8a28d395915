//! The tree of a module, in the order of the text. It keeps whether each `;` that may be missing
//! was there, and which of the two record notations was used, so that the tokens of the text are
//! those of the tree. A `line` is that of the first token of its statement, branch or definition.
//! `has_semicolon` says whether a `;` follows.
use crate::message::{Message, MessageTemplate, TypeName, Value};
use crate::name::Name;
use tp_common::operation::{PortOperation, ReceiveKind};
use tp_value::items::Items;

/// A name where it is declared (ES 201 873-1, 5.2.2).
#[derive(Drop)]
pub struct DeclaredName {
    pub line: u32,
    pub name: Name,
}

/// A component, as a statement names it (ES 201 873-1, 6.2.11).
#[derive(Drop)]
pub enum ComponentName {
    /// A component variable or parameter.
    Named(Name),
    Mtc,
    SelfComponent,
}

#[derive(Drop)]
pub enum SentExpression {
    Message(Message),
    Variable(Name),
}

#[derive(Drop)]
pub enum Receivers {
    Component(ComponentName),
    AllComponents,
}

/// A send (ES 201 873-1, 22.2.1).
#[derive(Drop)]
pub struct Send {
    pub port: Name,
    pub sent: SentExpression,
    pub to: Option<Receivers>,
}

/// The variables that store what was received: after `->`, which is there if one of the two is.
#[derive(Drop)]
pub struct Redirect {
    pub value: Option<Name>,
    pub sender: Option<Name>,
}

/// A receiving operation (ES 201 873-1, 22.2.2 to 22.2.4).
#[derive(Drop)]
pub struct Receive {
    pub port: Name,
    pub kind: ReceiveKind,
    pub template: Option<MessageTemplate>,
    pub sender: Option<ComponentName>,
    pub redirect: Redirect,
}

/// An operation on one port (ES 201 873-1, 22.5).
#[derive(Drop)]
pub struct Control {
    pub port: Name,
    pub operation: PortOperation,
}

/// A verdict, as `setverdict` names it (ES 201 873-1, 24.2).
#[derive(Clone, Copy)]
pub enum VerdictName {
    NoVerdict,
    Pass,
    Inconc,
    Fail,
    Error,
}

/// A statement (ES 201 873-1, 19 to 24).
#[derive(Drop)]
#[cycle(statement)]
pub struct Statement {
    pub line: u32,
    pub action: Action,
    pub has_semicolon: bool,
}

#[derive(Drop)]
#[cycle(statement)]
pub enum Action {
    Send(Send),
    Receive(Receive),
    Control(Control),
    /// `all port`, and an operation on each of them.
    AllPorts(PortOperation),
    SetVerdict(VerdictName),
    /// The branches, and `[else]` if it is the last one. There is at least one.
    Alt(Items<Branch>, Option<ElseBranch>),
    For(Counted),
}

/// A branch of an `alt` with a receiving operation (ES 201 873-1, 20.2).
#[derive(Drop)]
#[cycle(statement)]
pub struct Branch {
    pub line: u32,
    pub receive: Receive,
    pub body: BranchBody,
    pub has_semicolon: bool,
}

#[derive(Drop)]
#[cycle(statement)]
pub enum BranchBody {
    Nothing,
    Block(Items<Statement>),
}

/// The branch `[else]` of an `alt` (ES 201 873-1, 20.2).
#[derive(Drop)]
#[cycle(statement)]
pub struct ElseBranch {
    pub line: u32,
    pub block: Items<Statement>,
    pub has_semicolon: bool,
}

/// The head of a counted `for` (ES 201 873-1, 19.4), which names its variable four times.
#[derive(Drop)]
pub struct Turns {
    pub name: Name,
    pub first: i64,
    /// The bound that the variable stays below.
    pub bound: i64,
}

/// A counted `for` (ES 201 873-1, 19.4).
#[derive(Drop)]
#[cycle(statement)]
pub struct Counted {
    pub turns: Turns,
    pub block: Items<Statement>,
}

/// A `var` statement: a variable without a value (ES 201 873-1, 11.1).
#[derive(Drop)]
pub struct Variable {
    pub line: u32,
    pub type_name: TypeName,
    pub name: Name,
    pub has_semicolon: bool,
}

#[derive(Drop)]
pub struct FieldType {
    pub type_name: TypeName,
    pub name: DeclaredName,
}

/// A record type (ES 201 873-1, 6.2.1).
#[derive(Drop)]
pub struct RecordType {
    pub name: Name,
    pub fields: Items<FieldType>,
}

/// A list type, `record of` (ES 201 873-1, 6.2.3).
#[derive(Drop)]
pub struct ListType {
    pub element: TypeName,
    pub name: Name,
}

/// The way of messages through a port.
#[derive(Clone, Copy)]
pub enum Way {
    In,
    Out,
    InOut,
}

/// The types of messages that go one way through a port.
#[derive(Drop)]
pub struct Direction {
    pub way: Way,
    /// At least one.
    pub types: Items<TypeName>,
    pub has_semicolon: bool,
}

/// A message port type (ES 201 873-1, 6.2.9).
#[derive(Drop)]
pub struct PortType {
    pub name: Name,
    /// At least one.
    pub directions: Items<Direction>,
}

#[derive(Drop)]
pub struct PortDeclaration {
    pub type_name: Name,
    /// At least one.
    pub names: Items<DeclaredName>,
    pub has_semicolon: bool,
}

/// A component type (ES 201 873-1, 6.2.10).
#[derive(Drop)]
pub struct ComponentType {
    pub name: Name,
    pub ports: Items<PortDeclaration>,
}

#[derive(Drop)]
pub struct Parameter {
    pub type_name: Name,
    pub name: DeclaredName,
}

/// A function (ES 201 873-1, 16.1).
#[derive(Drop)]
pub struct Function {
    pub name: Name,
    pub parameters: Items<Parameter>,
    pub runs_on: Name,
    /// The variables come before the statements.
    pub variables: Items<Variable>,
    pub statements: Items<Statement>,
}

#[derive(Drop)]
pub enum EndComponent {
    Named(Name),
    Mtc,
    SelfComponent,
    System,
}

#[derive(Drop)]
pub struct PairEnd {
    pub component: EndComponent,
    pub port: Name,
}

/// The action of a setup statement (ES 201 873-1, 21.1 and 21.3.1).
#[derive(Drop)]
pub enum SetupAction {
    Create(Creation),
    Connect(PairEnd, PairEnd),
    Map(PairEnd, PairEnd),
}

#[derive(Drop)]
pub struct Creation {
    pub type_name: Name,
    pub name: Name,
    /// The type of the component.
    pub created: Name,
}

#[derive(Drop)]
pub struct SetupStatement {
    pub line: u32,
    pub action: SetupAction,
    pub has_semicolon: bool,
}

/// The start of a component (ES 201 873-1, 21.3.2).
#[derive(Drop)]
pub struct ComponentStart {
    pub line: u32,
    pub component: Name,
    pub function: Name,
    pub arguments: Items<ComponentName>,
    pub has_semicolon: bool,
}

/// `all component.done` at the end of a test case (ES 201 873-1, 21.3.7).
#[derive(Clone, Copy)]
pub struct AllDone {
    pub line: u32,
    pub has_semicolon: bool,
}

/// A test case (ES 201 873-1, 16.3).
#[derive(Drop)]
pub struct TestCase {
    pub name: Name,
    pub runs_on: Name,
    pub system: Option<Name>,
    pub setups: Items<SetupStatement>,
    pub starts: Items<ComponentStart>,
    pub variables: Items<Variable>,
    pub statements: Items<Statement>,
    pub all_done: Option<AllDone>,
}

#[derive(Drop)]
pub enum Defined {
    Record(RecordType),
    List(ListType),
    Port(PortType),
    Component(ComponentType),
    Function(Function),
    TestCase(TestCase),
}

#[derive(Drop)]
pub struct Definition {
    pub line: u32,
    pub defined: Defined,
    pub has_semicolon: bool,
}

/// A module (ES 201 873-1, 8).
pub struct Module {
    pub line: u32,
    pub name: Name,
    pub definitions: Items<Definition>,
    pub has_semicolon: bool,
}

impl Drop for Module {
    // Written out, so that an owner's drop calls this one, and needs no proof about the fields.
    fn drop(self) {
        let Module {
            line: _,
            name,
            definitions,
            has_semicolon: _,
        } = self;
        drop((name, definitions));
    }
}

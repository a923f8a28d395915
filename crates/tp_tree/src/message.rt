//! Messages and templates, as a text writes them: the leaves of the tree.
use crate::name::Name;
use tp_value::items::Items;

/// The name of a type (ES 201 873-1, 6).
#[derive(Drop)]
pub enum TypeName {
    Integer,
    Boolean,
    Charstring,
    /// The name of a definition.
    Named(Name),
}

/// A value (ES 201 873-1, 6.1 and 6.2).
#[derive(Drop)]
#[cycle(value)]
pub enum Value {
    Int(i64),
    Bool(bool),
    Text(Items<u8>),
    Name(Name),
    /// Values in braces, by their places.
    List(Items<Value>),
    /// At least one field, by their names, in braces.
    Record(Items<ValueField>),
}

#[derive(Drop)]
#[cycle(value)]
pub struct ValueField {
    pub name: Name,
    pub value: Value,
}

/// A template (ES 201 873-1, 15 and Annex B).
#[derive(Drop)]
#[cycle(template)]
pub enum Template {
    Int(i64),
    Bool(bool),
    Text(Items<u8>),
    Name(Name),
    /// `?`
    Any,
    /// `*`
    AnyOrNone,
    /// At least one template in parentheses, one of which must match.
    OneOf(Items<Template>),
    /// `complement`, and at least one template in parentheses, none of which may match.
    Complement(Items<Template>),
    /// A range: its lower bound, or `-infinity`, and its upper bound, or `infinity`.
    Range(Option<i64>, Option<i64>),
    /// The characters of the text after `pattern`.
    Pattern(Items<u8>),
    /// Templates in braces, by their places.
    List(Items<Template>),
    /// At least one field, by their names, in braces.
    Record(Items<TemplateField>),
}

#[derive(Drop)]
#[cycle(template)]
pub struct TemplateField {
    pub name: Name,
    pub template: Template,
}

#[derive(Drop)]
pub struct Message {
    pub type_name: TypeName,
    pub value: Value,
}

#[derive(Drop)]
pub struct MessageTemplate {
    pub type_name: TypeName,
    pub template: Template,
}

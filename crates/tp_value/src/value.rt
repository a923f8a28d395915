//! Values, and their copies.
ghost use Rattle.std.specs.Prelude.{◌≡◌, IfOk};

use crate::shared::Shared;
use std::alloc::Global;
use tp_common::memory::Memory;

/// A value, fully specified (ES 201 873-1, 6). [`has_type`](crate::typing::has_type) says which
/// values have a type.
///
/// Values may be nested to any depth that memory allows. A script nests them to 32 brackets;
/// nothing bounds those that a caller builds. Each call that goes through a value, including its
/// drop, calls itself once for each level; a stack of 8 MiB is enough for 16,000 levels of any call
/// of this crate.
#[derive(Debug, Drop)]
pub enum Value {
    /// An integer of 64 signed bits (6.1.0).
    Int(i64),
    /// A boolean (6.1.0).
    Bool(bool),
    /// A charstring, as its characters. If the value has the type, they are among 32 to 126
    /// (6.1.1).
    Text(Shared<u8>),
    /// A record, as the values of its fields in declared order (6.2.1).
    Record(Shared<Value>),
    /// A record of, as its elements, the first at place 0 (6.2.3).
    List(Shared<Value>),
}

impl Value {
    /// A copy, which equals the original and shares its texts and lists. It doesn't allocate: 50
    /// `Memory` only if a text or list in it has 2^63 - 1 owners, for which no memory has room.
    pub fn copy(&self, _alloc: Global) -> Result<Value, Memory>
        ensures { IfOk result (λ twin. twin ≡ self.now) }
    {
        match self {
            Value::Int(number) => Ok(Value::Int(*number)),
            Value::Bool(truth) => Ok(Value::Bool(*truth)),
            Value::Text(text) => Ok(Value::Text(text.share()?)),
            Value::Record(fields) => Ok(Value::Record(fields.share()?)),
            Value::List(elements) => Ok(Value::List(elements.share()?)),
        }
    }
}

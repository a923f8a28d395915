//! The wanted part of a receiving operation in a queue file.
use tp_common::payload::Wanted;

/// The integers that are wanted.
#[derive(Clone, Copy)]
pub enum IntegerPattern {
    /// `?`: every integer.
    Any,
    /// An integer of 64 signed bits: itself alone.
    Number(i64),
}

impl Wanted<i64> for IntegerPattern {
    ghost use Rattle.tp_port.specs.Admits.{Admits};

    ghost admits = { Admits };

    fn admits(&self, msg: &i64) -> bool {
        match self {
            IntegerPattern::Any => true,
            IntegerPattern::Number(wanted) => *wanted == *msg,
        }
    }
}

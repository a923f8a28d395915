//! The printed form of a value, and a comparison of texts. They take what they show, so that the
//! caller has nothing left to drop: a drop is written out, and proved, at each exit.
use std::fmt::{Debug, Display};
use std::process::Abort;

/// A value as `{:?}` prints it, written a second time if memory is refused.
pub fn debug<R: AllocGlobal + Abort, D: Debug + Drop>(rt: &R, value: D) -> String {
    match format!(in rt.alloc(); "{value:?}") {
        Ok(text) => text,
        Err(_) => format!(in rt.alloc(); "{value:?}").expect(rt, "memory"),
    }
}

pub fn display<R: AllocGlobal + Abort, D: Display + Drop>(rt: &R, value: D) -> String {
    format!(in rt.alloc(); "{value}").expect(rt, "memory")
}

pub fn is_shown<R: Abort>(rt: &R, place: usize, shown: &str, wanted: &str) {
    assert_eq!(rt; shown, wanted, "in row {place}");
}

pub fn says<R: Abort>(rt: &R, place: usize, shown: String, wanted: &str) {
    is_shown(rt, place, shown.as_str(), wanted);
}

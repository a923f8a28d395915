//! A hook by which a test changes a floor's counts during a call.

/// Called between a load of the counts and the exchange after it, at each turn of the loop of the
/// two, so that a test can force each race. The call returns. The hook is a type parameter, so that
/// `NoHook` costs nothing.
pub trait RaceHook {
    fn between(&mut self);
}

#[derive(Clone, Copy)]
pub struct NoHook;

impl RaceHook for NoHook {
    fn between(&mut self) {}
}

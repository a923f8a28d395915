//! A demand that one number comes before another.
ghost use Rattle.std.specs.Prelude.{◌↔◌, All, IsTrue};
ghost use Rattle.tp_judge.specs.Order.{IsBelow};

#[derive(Clone, Copy)]
pub struct Demand {
    pub before: usize,
    pub after: usize,
}

/// Returns whether the demands name only numbers below the count.
pub fn are_below(count: usize, demands: &[Demand]) -> bool
    ensures { IsTrue result ↔ All (IsBelow count) demands.now }
{
    demands.iter().all(|d| d.before < count && d.after < count)
}

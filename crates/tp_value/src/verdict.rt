//! Verdicts.
ghost use Rattle.std.specs.Prelude.{◌≡◌, ◌≢◌, ◌<◌};
ghost use Rattle.tp_value.specs.Verdicts.{verdict_of_rank, worse};

/// The verdict of a test (ES 201 873-1, 24.1). Each is worse than the one before.
#[derive(Clone, Copy, Debug)]
pub enum Verdict {
    /// No verdict was set.
    None,
    /// The system under test did what was expected.
    Pass,
    /// Neither pass nor fail can be decided.
    Inconc,
    /// The system under test did something else.
    Fail,
    /// The test itself failed. Only the system sets it, and nothing overrides it.
    Error,
}

impl Verdict {
    /// The place in the order, from `none` 0 to `error` 4.
    pub const fn rank(self) -> u32
        ensures { result ≡ Rattle.tp_value.specs.Verdicts.rank self }
    {
        match self {
            Verdict::None => 0,
            Verdict::Pass => 1,
            Verdict::Inconc => 2,
            Verdict::Fail => 3,
            Verdict::Error => 4,
        }
    }

    /// The verdict of this rank; `error` for a number above 4.
    pub const fn of_rank(number: u32) -> Verdict
        ensures verdict { result ≡ verdict_of_rank number }
        ensures rank { number < 5 → Rattle.tp_value.specs.Verdicts.rank result ≡ number }
    {
        match number {
            0 => Verdict::None,
            1 => Verdict::Pass,
            2 => Verdict::Inconc,
            3 => Verdict::Fail,
            _ => Verdict::Error,
        }
    }

    /// The verdict after a statement has set `verdict`, which is not `Error`: the worse of the two,
    /// so that a verdict never improves (24.2).
    pub fn set(self, verdict: Verdict) -> Verdict
        requires { verdict ≢ Verdict.Error }
        ensures { result ≡ worse self verdict }
    {
        self.join(verdict)
    }

    /// The worse of two verdicts. The overall verdict is the worst of the local ones (24.1).
    pub fn join(self, other: Verdict) -> Verdict
        ensures { result ≡ worse self other }
    {
        if self.rank() < other.rank() {
            other
        } else {
            self
        }
    }
}

//! Units in which columns count time.
ghost use Rattle.std.specs.Prelude.{◌≡◌};
ghost use Rattle.vortex_logical.specs.LogicalTypes as spec;

/// A unit of times and timestamps.
#[derive(Debug, Clone, Copy, PartialEq, Eq)]
pub enum TimeUnit {
    Nanoseconds,
    Microseconds,
    Milliseconds,
    Seconds,
}

impl TimeUnit {
    /// Returns how many digits behind the point of a second the unit has.
    pub fn digits(self) -> u32
        ensures { result ≡ spec.digits self }
    {
        match self {
            TimeUnit::Nanoseconds => 9,
            TimeUnit::Microseconds => 6,
            TimeUnit::Milliseconds => 3,
            TimeUnit::Seconds => 0,
        }
    }
}

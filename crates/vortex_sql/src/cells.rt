//! The meaning of the cells of a column.
ghost use Rattle.std.specs.Prelude.{◌≡◌};
ghost use Rattle.vortex_sql.specs.Readings.{ordered};
ghost use Rattle.vortex_sql.specs.Typing as spec;

use vortex_logical::float_test::NanMeaning;
use vortex_logical::float_type::FloatType;
use vortex_logical::logical_type::LogicalType;

/// Says what the cells of a column stand for.
#[derive(Clone, Copy, Debug, PartialEq, Eq)]
pub enum Cells {
    /// The values themselves.
    Values,
    /// Dates, times, timestamps or decimals.
    Exact(LogicalType),
    /// Floats by their whole numbers, as `FloatType::key` gives them, and what a comparison with
    /// NaN means. Where that isn't said, only tests are read on which both meanings agree.
    Floats(FloatType, Option<NanMeaning>),
}

impl Cells {
    /// Returns the type of the dates, times, timestamps or decimals, or `None` for other cells.
    pub fn logical(self) -> Option<LogicalType>
        ensures { result ≡ spec.logical_of self }
    {
        match self {
            Cells::Exact(logical) => Some(logical),
            Cells::Values | Cells::Floats(_, _) => None,
        }
    }

    /// Returns the same cells with NaN above all other numbers, where nothing is said of it.
    pub(crate) fn ordered(self) -> Cells
        ensures { result ≡ ordered self }
    {
        match self {
            Cells::Floats(float, None) => Cells::Floats(float, Some(NanMeaning::Greatest)),
            _ => self,
        }
    }
}

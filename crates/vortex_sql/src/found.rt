//! The place of a column, its type, and what its cells stand for.
use crate::cells::Cells;
use vortex_base::dtype::DType;

/// Names the place of a column, with its type and what its cells stand for.
#[derive(Clone, Copy)]
pub struct Found {
    pub index: usize,
    pub dtype: DType,
    pub cells: Cells,
}

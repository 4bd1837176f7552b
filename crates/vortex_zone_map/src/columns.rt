//! The columns of a table from their cells.
ghost use Rattle.std.specs.Prelude.{◌≡◌, IfOk, List, map};
ghost use Rattle.vortex_zone_map.specs.Zone.{ZoneData};
ghost use Rattle.vortex_zone_map.specs.ZoneMaps.{zone_column};
ghost use Rattle.vortex_zone_map.specs.Tables.{AreCells, IsTable};

use crate::zone_map::StatColumn;
use std::alloc::{AllocError, Global};
use vortex_base::array_data::ArrayData;
use vortex_base::column::Column;

/// The column under each head.
pub fn columns_of(
    alloc: Global,
    heads: &[StatColumn],
    table: Vec<ArrayData>,
) -> Result<Vec<Column>, AllocError>
    requires { IsTable heads.now table.items }
    ensures { IfOk result (λ columns. (zones : List ZoneData)
        → AreCells heads.now zones table.items
        → columns.items ≡ map (zone_column zones) heads.now) }
{
    let mut columns = Vec::with_capacity(alloc, heads.len())?;
    for cells in table {
        let dtype = heads[columns.len()].dtype();
        columns.push(Column::new_unchecked(dtype, cells, 0))?;
    }
    Ok(columns)
}

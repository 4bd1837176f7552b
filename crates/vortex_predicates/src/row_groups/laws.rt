//! Laws of this layer, in the words of its definitions.
ghost use Rattle.vortex_predicates.specs.RowGroups.Pruning.{GroupsAreParts};

use vortex_parquet::laws::groups_are_true;

/// Rows of which the footer's statistics of a row group are true are a part of its zone, and the
/// part's statistics are true.
pub fn groups_are_parts()
    ensures { GroupsAreParts }
{
    groups_are_true();
}

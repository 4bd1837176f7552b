//! The explanation of a scan that a text names.
use crate::explain::explanation::explain;
use crate::naming::read_input;
use std::alloc::Global;
use vortex_stats::error::StatsError;

/// The explanation of the scan that a text names; none where a line of it is bad.
///
/// `NotPredicate` if the predicate isn't of type Bool, else `Memory` alone.
pub fn explain_text(alloc: Global, text: &[u8]) -> Result<Option<String>, StatsError> {
    let Ok(query) = read_input(alloc, text) else {
        return Ok(None);
    };
    let map = query.map(alloc)?;
    Ok(Some(explain(alloc, &query.scope, &map, &query.predicate)?))
}

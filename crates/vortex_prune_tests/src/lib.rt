//! Tests of `vortex_prune`, `vortex_zone_map` and `vortex_predicates` by their public calls, and of
//! the callers in `vortex_examples`. `vortex_testing` has what they stand on.
#![tactic(auto)]

#[cfg(test)]
mod bind;
#[cfg(test)]
mod builder;
#[cfg(test)]
mod complete;
#[cfg(test)]
mod equal_bounds;
#[cfg(test)]
mod fixtures;
#[cfg(test)]
mod normal;
#[cfg(test)]
mod part;
#[cfg(test)]
mod refused;
#[cfg(test)]
mod scan;
#[cfg(test)]
mod stat_fn;
#[cfg(test)]
mod zone_map;

//! Tests of `vortex_text` through `run`, its program's whole work, of texts that come in pieces, of
//! values in plain form, and of explanations.
#![tactic(auto)]

#[cfg(test)]
mod explained;
#[cfg(test)]
mod open_text;
#[cfg(test)]
mod plain;
#[cfg(test)]
mod program;
#[cfg(test)]
mod running;

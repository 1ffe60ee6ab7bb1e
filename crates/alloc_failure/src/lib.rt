//! Every call that allocates, held to "out of memory, or exactly this", while each allocation fails
//! in turn (`.ci/alloc_failure.sh`).
#![tactic(auto)]

#[cfg(test)]
mod awaits;
#[cfg(test)]
mod building;
#[cfg(test)]
mod commands;
#[cfg(test)]
mod hosts;
#[cfg(test)]
mod links;
#[cfg(test)]
mod mending;
#[cfg(test)]
mod orders;
#[cfg(test)]
mod queries;
#[cfg(test)]
mod requests;
#[cfg(test)]
mod rows;
#[cfg(test)]
mod streams;
#[cfg(test)]
mod texts;
#[cfg(test)]
mod values;
#[cfg(test)]
mod without_memory;

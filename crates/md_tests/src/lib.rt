//! Tests of what neither an example nor a row of a table reaches: the adapters over a real folder, real readers and writers,
//! the machine's clock, claims by two threads, acts of several threads on one server, and replies of the server that no script
//! brings about.
#![tactic(auto)]

#[cfg(test)]
mod acting;
#[cfg(test)]
mod claims;
#[cfg(test)]
mod folders;
#[cfg(test)]
mod servers;
#[cfg(test)]
mod sparing;
#[cfg(test)]
mod streams;
#[cfg(test)]
mod turns;

//! Tests of a solve by several workers.
#![tactic(auto)]

#[cfg(test)]
mod all_keys;
#[cfg(test)]
mod alone;
#[cfg(test)]
mod beginnings;
#[cfg(test)]
mod ends;
#[cfg(test)]
mod held_jobs;
#[cfg(test)]
mod joining;
#[cfg(test)]
mod kept_entries;
#[cfg(test)]
mod lent_tables;
#[cfg(test)]
mod solves;

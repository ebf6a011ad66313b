//! Tests of a solver that lives, of what stops it, and of the word by which it is asked to.
#![tactic(auto)]

#[cfg(test)]
mod crew;
#[cfg(test)]
mod midway;
#[cfg(test)]
mod requests;
#[cfg(test)]
mod stopped;
#[cfg(test)]
mod telling;

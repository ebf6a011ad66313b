//! Tests that cross crates, with expected values from outside the program.
#![tactic(auto)]

#[cfg(test)]
mod boards;
#[cfg(test)]
mod certified;
#[cfg(test)]
mod claims;
#[cfg(test)]
mod composed_texts;
#[cfg(test)]
mod composing;
#[cfg(test)]
mod deciding;
#[cfg(test)]
mod expansions;
#[cfg(test)]
mod held;
#[cfg(test)]
mod leaves;
#[cfg(test)]
mod mates;
#[cfg(test)]
mod order_at_first;
#[cfg(test)]
mod orders;
#[cfg(test)]
mod perft;
#[cfg(test)]
mod rules_of_play;
#[cfg(test)]
mod searching;
#[cfg(test)]
mod sets_of_cells;
#[cfg(test)]
mod solving;
#[cfg(test)]
mod tables;
#[cfg(test)]
mod turnings;
#[cfg(test)]
mod whole_texts;
#[cfg(test)]
mod winning;
#[cfg(test)]
mod without_lists;
#[cfg(test)]
mod worked_by_hand;

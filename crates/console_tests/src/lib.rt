//! Tests of whole runs of the program, over devices in memory.
#![tactic(auto)]

#[cfg(test)]
mod batch_tests;
#[cfg(test)]
mod device_tests;
#[cfg(test)]
mod failure_tests;
#[cfg(test)]
mod program_tests;
#[cfg(test)]
mod refusal_tests;
#[cfg(test)]
mod reply_tests;
#[cfg(test)]
mod verify_tests;
#[cfg(test)]
mod whole_runs;

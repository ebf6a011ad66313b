//! Tests of the tables: of the free one, its plain form, the job board and the jobs that threads steal.
#![tactic(auto)]

#[cfg(test)]
mod bounded;
#[cfg(test)]
mod dealt_jobs;
#[cfg(test)]
mod held;
#[cfg(test)]
mod job_boards;
#[cfg(test)]
mod pauses;
#[cfg(test)]
mod plain_form;
#[cfg(test)]
mod replay;
#[cfg(test)]
mod sequences;
#[cfg(test)]
mod sizes;
#[cfg(test)]
mod threads;
#[cfg(test)]
mod triples;

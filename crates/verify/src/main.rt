//! The checker of certificates of forced mates in minichess: the program.
#![tactic(auto)]

use devices::Counted;
use std::process::ExitCode;
use std::{env, io};
use verdicts::{Keeping, run_program};

/// The words of the command line, or why they cannot be had. Help names the command line that all programs share, and not this file.
fn words(rt: &HostRuntime) -> io::Result<Vec<String>> {
    let mut words: Vec<String> = env::args(rt)?.collect(rt.alloc())?;
    if !words.is_empty() {
        words[0] = "minimate".to_string(rt.alloc())?;
    }
    Ok(words)
}

fn main(rt: HostRuntime) -> ExitCode {
    let words = words(&rt);
    let mut reader = Keeping::new(Counted::new(rt.stdin()));
    let mut writer = Counted::new(rt.stdout());
    let mut errors = rt.stderr();
    ExitCode::from(run_program(&rt, words, &mut reader, &mut writer, &mut errors))
}

//! The program's usage, which the crate `clap` renders from a command described by its builder. `clap` reads no arguments
//! here: which are accepted is the top call's to say (`catsync_top`).

use base_types::NoMemory;
use clap::Command;
use std::alloc::Global;

// How the program is called.
const CALLS: &str = "catsync walk < SCRIPT > OUTPUT
       catsync run < SCRIPT > OUTPUT
       catsync check walk < SCRIPT_AND_OUTPUT
       catsync check run < SCRIPT_AND_OUTPUT
       catsync make N > SCRIPT";

// What it does with each list of arguments.
const WORDS: &[(&str, &str)] = &[
    (
        "walk",
        "Runs a script step by step, by its schedule, and prints the history and the answers",
    ),
    (
        "run",
        "Runs a script with a thread for each backend, and prints the same of whatever order came",
    ),
    (
        "check walk",
        "Says whether what follows a script is an output of its walk",
    ),
    (
        "check run",
        "Says whether what follows a script is an output of its run",
    ),
    (
        "make N",
        "Prints the script of a number from 1 to 1000, made by a generator",
    ),
];

/// How the program is called, and what it does with each list of arguments.
pub fn usage(alloc: Global) -> Result<String, NoMemory> {
    let mut command = described(alloc)?;
    Ok(command.render_help()?)
}

// The program as a command.
fn described(alloc: Global) -> Result<Command<'static>, NoMemory> {
    let mut command = Command::new(alloc, "catsync")
        .override_usage(CALLS)
        .disable_help_flag(true)
        .disable_help_subcommand(true);
    for &(word, about) in WORDS {
        command = command.subcommand(Command::new(alloc, word).about(about))?;
    }
    Ok(command)
}

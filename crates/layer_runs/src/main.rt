//! Runs of single layers, beside the program: what a script allows of a history (`lines`), which tests ask too; and what the
//! scripts of `bench` measure of the queue of messages (`ring`), of a backend's caches (`caches`) and of texts (`texts`). The exit
//! status is 0, or 1 where the arguments are none of the usage's or the task fails.
#![tactic(auto)]

mod caches;
mod lines;
mod ring;
mod texts;

use std::alloc::Global;
use std::env;
use std::process::ExitCode;
use std::rt::Env;

// The most bytes that are read of standard input.
const MOST_INPUT: usize = 268_435_456;

const USAGE: &str = "\
usage: layer_runs lines answers|count|read < CASES
       layer_runs ring batches|singles|fetches MESSAGES
       layer_runs caches absent|present LOOKUPS NAMES
       layer_runs caches messages MESSAGES NAMES
       layer_runs caches puts PUTS NAMES
       layer_runs texts script|walk < SCRIPT
       layer_runs texts read|copy < HISTORY
";

// What the arguments ask for.
#[derive(Clone, Copy)]
enum Asked {
    Lines(lines::Task),
    Ring(ring::Task, u64),
    Caches(caches::Task, u64, u32),
    Texts(texts::Task),
}

fn main(rt: HostRuntime) -> ExitCode {
    let done = match read_arguments(&rt) {
        Some(asked) => run(&rt, rt.alloc(), asked),
        None => {
            let _ = eprint!(rt; "{USAGE}");
            None
        }
    };
    match done {
        Some(()) => ExitCode::SUCCESS,
        None => ExitCode::from(1),
    }
}

fn run<R: Input + Print>(rt: &R, alloc: Global, asked: Asked) -> Option<()> {
    match asked {
        Asked::Lines(task) => lines::run(rt, alloc, task),
        Asked::Ring(task, count) => ring::run(alloc, task, count),
        Asked::Caches(task, count, names) => caches::run(alloc, task, count, names),
        Asked::Texts(task) => texts::run(rt, alloc, task),
    }
}

fn read_arguments<R: Env + AllocGlobal>(rt: &R) -> Option<Asked> {
    let mut arguments = env::args(rt).ok()?.skip(1);
    let part = arguments.next()?;
    let word = arguments.next()?;
    match part.as_str() {
        "lines" => Some(Asked::Lines(lines::Task::named(word.as_str())?)),
        "ring" => {
            let task = ring::Task::named(word.as_str())?;
            Some(Asked::Ring(task, arguments.next()?.parse::<u64>().ok()?))
        }
        "caches" => {
            let task = caches::Task::named(word.as_str())?;
            let count = arguments.next()?.parse::<u64>().ok()?;
            let names = arguments.next()?.parse::<u32>().ok()?;
            Some(Asked::Caches(task, count, names))
        }
        "texts" => Some(Asked::Texts(texts::Task::named(word.as_str())?)),
        _ => None,
    }
}

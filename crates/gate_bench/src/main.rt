//! Advances cores through a clock table: `gate_bench alone CORES SLACK CLOCKS` in one thread, which looks at each core
//! and raises global time in each round; `gate_bench apart CORES SLACK CLOCKS` with a thread for each of 2 or 4 cores,
//! and one for the overseer. It prints the global time at the end. `bench/run.sh` times it.
#![tactic(auto)]

mod cores;
mod rounds;

use rounds::run;
use std::{env, io};

fn main(rt: HostRuntime) -> io::Result<()> {
    let mut words = env::args(&rt)?.skip(1);
    let threads = words.next();
    let cores = words.next().and_then(|word| word.parse::<u32>().ok());
    let slack = words.next().and_then(|word| word.parse::<u32>().ok());
    let clocks = words.next().and_then(|word| word.parse::<u32>().ok());
    let apart = match threads.as_deref() {
        Some("alone") => Some(false),
        Some("apart") => Some(true),
        _ => None,
    };
    let (Some(apart), Some(cores), Some(slack), Some(clocks)) = (apart, cores, slack, clocks) else {
        return println!(rt; "usage: gate_bench alone|apart CORES SLACK CLOCKS");
    };
    if (cores != 2 && cores != 4) || slack == 0 {
        return println!(rt; "CORES is 2 or 4, and SLACK at least 1");
    }
    match run(&rt, rt.alloc(), apart, cores, slack, clocks) {
        Ok(global) => println!(rt; "global time {global}"),
        Err(_) => println!(rt; "out of memory"),
    }
}

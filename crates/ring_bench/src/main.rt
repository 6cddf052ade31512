//! Sends posts through a ring and receives them: `ring_bench one N` in one thread, `ring_bench two N` across two, in N
//! rounds of 100,000 posts. It prints how many came in their order. `bench/run.sh` times it.
#![tactic(auto)]

mod rounds;

use rounds::{across, alone};
use std::{env, io};

fn main(rt: HostRuntime) -> io::Result<()> {
    let mut words = env::args(&rt)?.skip(1);
    let threads = words.next();
    let rounds = words.next().and_then(|word| word.parse::<u32>().ok());
    let received = match (threads.as_deref(), rounds) {
        (Some("one"), Some(rounds)) => alone(rt.alloc(), rounds),
        (Some("two"), Some(rounds)) => across(&rt, rt.alloc(), rounds),
        _ => return println!(rt; "usage: ring_bench one|two ROUNDS"),
    };
    match received {
        Ok(received) => println!(rt; "{received} posts in order"),
        Err(_) => println!(rt; "out of memory"),
    }
}

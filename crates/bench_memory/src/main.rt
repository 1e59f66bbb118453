//! Measures in memory, one after another: sealing, with a new key for each call or one that is kept, and work on one tree of
//! blocks. Each is a word with two numbers behind it.
#![tactic(auto)]

mod seal;
mod trees;

use std::{env, io};

/// Takes one measure, and prints its lines.
fn measure(rt: &HostRuntime, name: &str, first: u64, second: u64) -> io::Result<()> {
    match name {
        "seal" => seal::measure(rt, first, second, false),
        "seal-kept" => seal::measure(rt, first, second, true),
        "trees" => trees::measure(rt, first, second),
        _ => usage(rt),
    }
}

fn usage(rt: &HostRuntime) -> io::Result<()> {
    println!(rt; "usage: bench_memory (seal|seal-kept BLOCKS BYTES | trees BYTES STEPS)..")
}

fn main(rt: HostRuntime) -> io::Result<()> {
    let mut words = env::args(&rt)?;
    words.next();
    let words: Vec<String> = words.collect(rt.alloc())?;
    if words.is_empty() {
        return usage(&rt);
    }
    for words in words.chunks(3) {
        let [name, first, second] = words else {
            return usage(&rt);
        };
        let (Ok(first), Ok(second)) = (first.as_str().parse(), second.as_str().parse()) else {
            return usage(&rt);
        };
        measure(&rt, name.as_str(), first, second)?;
    }
    Ok(())
}

//! Runs a list of calls, one a line on standard input, on a fresh bench over the source that its argument names.

#![tactic(auto)]

mod answer;
mod command;
mod run;

use anyhow::anyhow;
use bench::Bench;
use run::answers;
use sources::Delivered;
use std::env;
use std::io::{Read, Write};

/// The source named by the one word after the program's name.
fn source_of(words: &[String]) -> Option<Delivered> {
    match words {
        [word] => word.as_str().parse::<Delivered>().ok(),
        _ => None,
    }
}

fn main(rt: HostRuntime) -> anyhow::Result<()> {
    let words: Vec<String> = env::args(&rt)?.skip(1).collect(rt.alloc())?;
    let Some(source) = source_of(&words) else {
        eprintln!(rt; "usage: calls table|line, with a list of calls on standard input")?;
        return Err(anyhow!("no source"));
    };
    let mut list = Vec::new(rt.alloc());
    rt.stdin().read_to_end(&mut list)?;
    let text = answers(rt.alloc(), &mut Bench::new(source), &list)?;
    rt.stdout().write_all(text.as_bytes())?;
    Ok(())
}

//! Prints the work sheet of a quotient or of a root over one of the delivered sources, or the refinement of a reciprocal.

#![tactic(auto)]

mod decimal;
mod page;
mod refine;
mod request;
mod row;
mod trouble;

use anyhow::anyhow;
use request::answer;
use std::env;
use std::io::Write;

fn run(rt: &HostRuntime) -> anyhow::Result<()> {
    let words: Vec<String> = env::args(rt)?.skip(1).collect(rt.alloc())?;
    match answer(rt.alloc(), &words) {
        Ok(text) => {
            rt.stdout().write_all(text.as_bytes())?;
            Ok(())
        }
        Err(trouble) => {
            eprintln!(rt; "worksheet: {trouble}")?;
            Err(anyhow!("no worksheet"))
        }
    }
}

fn main(rt: HostRuntime) -> anyhow::Result<()> {
    run(&rt)
}

//! Frames as bytes, tried from outside. Its words say what: `cases` reads lines and tells what comes of their bytes;
//! `decode N` and `encode N` read or write one frame N times, for `bench/wire`.
#![tactic(auto)]

mod cases;
mod speed;

use crate::cases::told;
use crate::speed::total;
use anyhow::{Context, Result};
use std::env::{self, Env};
use std::io::{BufRead, BufReader};

fn main(rt: HostRuntime) -> Result<()> {
    let alloc = rt.alloc();
    let mut words = env::args(&rt)?.skip(1);
    let what = words.next().context("no word")?;
    if what.as_str() == "cases" {
        for line in BufReader::new(alloc, rt.reader())?.lines(alloc) {
            let line = line?;
            println!(rt; "{}", told(alloc, line.as_str())?)?;
        }
        return Ok(());
    }
    let times = words.next().context("no number")?.parse::<u32>()?;
    let mut line = String::new(alloc);
    rt.read_line(&mut line)?;
    println!(rt; "{}", total(alloc, what.as_str(), times, line.as_str())?)?;
    Ok(())
}

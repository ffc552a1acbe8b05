//! Reads or writes the frame that a line spells in hexadecimal, many times, and counts its bytes.
use anyhow::{Result, bail, ensure};
use ct_frame_fields::fields::well_formed;
use ct_wire::decode::decode;
use ct_wire::encode::encode;
use std::alloc::Global;

fn decoded(alloc: Global, bytes: &[u8], times: u32) -> Result<u64> {
    let mut sum = 0u64;
    for _ in 0..times {
        let (_, length) = decode(alloc, bytes)?;
        sum = sum.wrapping_add(length as u64);
    }
    Ok(sum)
}

fn encoded(alloc: Global, bytes: &[u8], times: u32) -> Result<u64> {
    let (frame, _) = decode(alloc, bytes)?;
    ensure!(well_formed(&frame), "a frame that is not well formed");
    let mut sum = 0u64;
    for _ in 0..times {
        sum = sum.wrapping_add(encode(alloc, &frame)?.len() as u64);
    }
    Ok(sum)
}

/// How many bytes were read or written, of so many times the frame of the line.
pub fn total(alloc: Global, what: &str, times: u32, line: &str) -> Result<u64> {
    let bytes = hex::decode(alloc, line.trim())?;
    match what {
        "decode" => decoded(alloc, bytes.as_slice(), times),
        "encode" => encoded(alloc, bytes.as_slice(), times),
        _ => bail!("none of cases, decode and encode"),
    }
}

//! Lists of words, and what they ask for.
use ct_words::words::{PlanNumbers, Word, WordsFault, read_words};
use std::alloc::Global;
use std::test::Fail;

fn soak(seed: u64, steps: u32) -> Result<Word, WordsFault> {
    Ok(Word::Soak { seed, steps })
}

fn cluster(nodes: u32, calls: u32, seed: u64) -> Result<Word, WordsFault> {
    Ok(Word::Cluster(PlanNumbers { nodes, calls, seed }))
}

fn loopback(nodes: u32, calls: u32, seed: u64) -> Result<Word, WordsFault> {
    Ok(Word::Loopback(PlanNumbers { nodes, calls, seed }))
}

fn strings(alloc: Global, words: &[&str]) -> Result<Vec<String>, Fail> {
    let mut strings = Vec::new(alloc);
    for word in words {
        strings.push(String::from_str(alloc, word)?)?;
    }
    Ok(strings)
}

/// Is this read of the words?
fn is_read(alloc: Global, words: &[&str], wanted: Result<Word, WordsFault>) -> Result<bool, Fail> {
    let words = strings(alloc, words)?;
    Ok(read_words(alloc, words.as_slice()) == wanted)
}

fn has_no_reading(alloc: Global, words: &[&str]) -> Result<bool, Fail> {
    is_read(alloc, words, Err(WordsFault::Usage))
}

#[test]
fn play_and_lcp2(rt: HostRuntime) -> Result<(), Fail> {
    let alloc = rt.alloc();
    assert!(rt; is_read(alloc, &["play"], Ok(Word::Play))?);
    assert!(rt; is_read(alloc, &["play", "--"], Ok(Word::Play))?);
    assert!(rt; is_read(alloc, &["lcp2"], Ok(Word::Lcp2))?);
    assert!(rt; is_read(alloc, &["lcp2", "--"], Ok(Word::Lcp2))?);
    Ok(())
}

#[test]
fn soaks(rt: HostRuntime) -> Result<(), Fail> {
    let alloc = rt.alloc();
    assert!(rt; is_read(alloc, &["soak", "1", "2000"], soak(1, 2000))?);
    assert!(rt; is_read(alloc, &["soak", "0", "1"], soak(0, 1))?);
    assert!(rt; is_read(alloc, &["soak", "0", "100000"], soak(0, 100000))?);
    let last = soak(18446744073709551615, 7);
    assert!(rt; is_read(alloc, &["soak", "18446744073709551615", "7"], last)?);
    Ok(())
}

#[test]
fn soaks_with_a_double_dash(rt: HostRuntime) -> Result<(), Fail> {
    let alloc = rt.alloc();
    assert!(rt; is_read(alloc, &["soak", "--", "1", "2000"], soak(1, 2000))?);
    assert!(rt; is_read(alloc, &["soak", "1", "--", "2000"], soak(1, 2000))?);
    assert!(rt; is_read(alloc, &["soak", "1", "2000", "--"], soak(1, 2000))?);
    Ok(())
}

#[test]
fn soaks_of_few_steps_with_a_double_dash(rt: HostRuntime) -> Result<(), Fail> {
    let alloc = rt.alloc();
    assert!(rt; is_read(alloc, &["soak", "7", "--", "7"], soak(7, 7))?);
    assert!(rt; is_read(alloc, &["soak", "--", "0", "10"], soak(0, 10))?);
    Ok(())
}

#[test]
fn clusters(rt: HostRuntime) -> Result<(), Fail> {
    let alloc = rt.alloc();
    assert!(rt; is_read(alloc, &["cluster", "1", "1", "0"], cluster(1, 1, 0))?);
    let words = ["cluster", "8", "1000", "18446744073709551615"];
    assert!(rt; is_read(alloc, &words, cluster(8, 1000, 18446744073709551615))?);
    assert!(rt; is_read(alloc, &["cluster", "2", "3", "4"], cluster(2, 3, 4))?);
    assert!(rt; is_read(alloc, &["cluster", "--", "2", "3", "4"], cluster(2, 3, 4))?);
    Ok(())
}

#[test]
fn loopbacks(rt: HostRuntime) -> Result<(), Fail> {
    let alloc = rt.alloc();
    assert!(rt; is_read(alloc, &["loopback", "2", "5", "1"], loopback(2, 5, 1))?);
    assert!(rt; is_read(alloc, &["loopback", "2", "--", "5", "1"], loopback(2, 5, 1))?);
    assert!(rt; is_read(alloc, &["loopback", "2", "5", "1", "--"], loopback(2, 5, 1))?);
    Ok(())
}

#[test]
fn nothing_is_asked_for(rt: HostRuntime) -> Result<(), Fail> {
    let alloc = rt.alloc();
    assert!(rt; has_no_reading(alloc, &[])?);
    assert!(rt; has_no_reading(alloc, &[""])?);
    assert!(rt; has_no_reading(alloc, &["--"])?);
    assert!(rt; has_no_reading(alloc, &["-"])?);
    Ok(())
}

#[test]
fn other_words(rt: HostRuntime) -> Result<(), Fail> {
    let alloc = rt.alloc();
    assert!(rt; has_no_reading(alloc, &["x"])?);
    assert!(rt; has_no_reading(alloc, &["Play"])?);
    assert!(rt; has_no_reading(alloc, &["pla"])?);
    assert!(rt; has_no_reading(alloc, &["play "])?);
    Ok(())
}

#[test]
fn helps(rt: HostRuntime) -> Result<(), Fail> {
    let alloc = rt.alloc();
    assert!(rt; has_no_reading(alloc, &["help"])?);
    assert!(rt; has_no_reading(alloc, &["--help"])?);
    assert!(rt; has_no_reading(alloc, &["-h"])?);
    Ok(())
}

#[test]
fn versions(rt: HostRuntime) -> Result<(), Fail> {
    let alloc = rt.alloc();
    assert!(rt; has_no_reading(alloc, &["--version"])?);
    assert!(rt; has_no_reading(alloc, &["-V"])?);
    Ok(())
}

#[test]
fn plays_with_other_words(rt: HostRuntime) -> Result<(), Fail> {
    let alloc = rt.alloc();
    assert!(rt; has_no_reading(alloc, &["--", "play"])?);
    assert!(rt; has_no_reading(alloc, &["play", "x"])?);
    assert!(rt; has_no_reading(alloc, &["play", ""])?);
    assert!(rt; has_no_reading(alloc, &["play", "play"])?);
    Ok(())
}

#[test]
fn helps_of_plays(rt: HostRuntime) -> Result<(), Fail> {
    let alloc = rt.alloc();
    assert!(rt; has_no_reading(alloc, &["play", "--help"])?);
    assert!(rt; has_no_reading(alloc, &["play", "-h"])?);
    assert!(rt; has_no_reading(alloc, &["play", "help"])?);
    Ok(())
}

#[test]
fn words_behind_a_double_dash(rt: HostRuntime) -> Result<(), Fail> {
    let alloc = rt.alloc();
    assert!(rt; has_no_reading(alloc, &["play", "--", "--"])?);
    assert!(rt; has_no_reading(alloc, &["play", "--", "x"])?);
    assert!(rt; has_no_reading(alloc, &["lcp2", "--", "--"])?);
    Ok(())
}

#[test]
fn soaks_with_too_few_words(rt: HostRuntime) -> Result<(), Fail> {
    let alloc = rt.alloc();
    assert!(rt; has_no_reading(alloc, &["soak"])?);
    assert!(rt; has_no_reading(alloc, &["soak", "1"])?);
    assert!(rt; has_no_reading(alloc, &["soak", "1", "--"])?);
    assert!(rt; has_no_reading(alloc, &["soak", "--", "1", "--"])?);
    Ok(())
}

#[test]
fn soaks_with_too_many_words(rt: HostRuntime) -> Result<(), Fail> {
    let alloc = rt.alloc();
    assert!(rt; has_no_reading(alloc, &["soak", "1", "2", "3"])?);
    assert!(rt; has_no_reading(alloc, &["soak", "1", "2", "--", "--"])?);
    assert!(rt; has_no_reading(alloc, &["soak", "1", "--", "2", "3"])?);
    Ok(())
}

#[test]
fn soaks_out_of_range(rt: HostRuntime) -> Result<(), Fail> {
    let alloc = rt.alloc();
    assert!(rt; has_no_reading(alloc, &["soak", "0", "0"])?);
    assert!(rt; has_no_reading(alloc, &["soak", "1", "100001"])?);
    assert!(rt; has_no_reading(alloc, &["soak", "1", "4294967297"])?);
    assert!(rt; has_no_reading(alloc, &["soak", "18446744073709551616", "1"])?);
    Ok(())
}

#[test]
fn soaks_with_zeros_in_front(rt: HostRuntime) -> Result<(), Fail> {
    let alloc = rt.alloc();
    assert!(rt; has_no_reading(alloc, &["soak", "01", "1"])?);
    assert!(rt; has_no_reading(alloc, &["soak", "1", "01"])?);
    Ok(())
}

#[test]
fn soaks_with_signs(rt: HostRuntime) -> Result<(), Fail> {
    let alloc = rt.alloc();
    assert!(rt; has_no_reading(alloc, &["soak", "+1", "1"])?);
    assert!(rt; has_no_reading(alloc, &["soak", "1", "-1"])?);
    assert!(rt; has_no_reading(alloc, &["soak", "--", "1", "-1"])?);
    Ok(())
}

#[test]
fn soaks_with_words_that_are_no_numbers(rt: HostRuntime) -> Result<(), Fail> {
    let alloc = rt.alloc();
    assert!(rt; has_no_reading(alloc, &["soak", "", "1"])?);
    assert!(rt; has_no_reading(alloc, &["soak", "1", "1x"])?);
    assert!(rt; has_no_reading(alloc, &["soak", "-", "1"])?);
    Ok(())
}

#[test]
fn soaks_with_options(rt: HostRuntime) -> Result<(), Fail> {
    let alloc = rt.alloc();
    assert!(rt; has_no_reading(alloc, &["soak", "1", "--steps=1"])?);
    assert!(rt; has_no_reading(alloc, &["soak", "--seed=1", "--steps=1"])?);
    Ok(())
}

#[test]
fn clusters_with_other_counts_of_words(rt: HostRuntime) -> Result<(), Fail> {
    let alloc = rt.alloc();
    assert!(rt; has_no_reading(alloc, &["cluster"])?);
    assert!(rt; has_no_reading(alloc, &["cluster", "1", "1"])?);
    assert!(rt; has_no_reading(alloc, &["cluster", "1", "1", "--"])?);
    assert!(rt; has_no_reading(alloc, &["cluster", "1", "1", "1", "1"])?);
    Ok(())
}

#[test]
fn clusters_of_too_few_or_too_many_nodes(rt: HostRuntime) -> Result<(), Fail> {
    let alloc = rt.alloc();
    assert!(rt; has_no_reading(alloc, &["cluster", "0", "1", "1"])?);
    assert!(rt; has_no_reading(alloc, &["cluster", "9", "1", "1"])?);
    assert!(rt; has_no_reading(alloc, &["cluster", "4294967297", "1", "1"])?);
    Ok(())
}

#[test]
fn clusters_out_of_range(rt: HostRuntime) -> Result<(), Fail> {
    let alloc = rt.alloc();
    assert!(rt; has_no_reading(alloc, &["cluster", "1", "0", "1"])?);
    assert!(rt; has_no_reading(alloc, &["cluster", "1", "1001", "1"])?);
    assert!(rt; has_no_reading(alloc, &["cluster", "1", "1", "18446744073709551616"])?);
    Ok(())
}

#[test]
fn clusters_with_a_zero_in_front_or_a_sign(rt: HostRuntime) -> Result<(), Fail> {
    let alloc = rt.alloc();
    assert!(rt; has_no_reading(alloc, &["cluster", "1", "1", "01"])?);
    assert!(rt; has_no_reading(alloc, &["cluster", "1", "--", "1", "-1"])?);
    Ok(())
}

#[test]
fn lcp2_and_loopbacks(rt: HostRuntime) -> Result<(), Fail> {
    let alloc = rt.alloc();
    assert!(rt; has_no_reading(alloc, &["lcp2", "1"])?);
    assert!(rt; has_no_reading(alloc, &["loopback"])?);
    assert!(rt; has_no_reading(alloc, &["loopback", "9", "1", "1"])?);
    assert!(rt; has_no_reading(alloc, &["loopback", "1", "1", "--seed=1"])?);
    Ok(())
}

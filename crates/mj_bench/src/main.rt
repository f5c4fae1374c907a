// What parts of the program cost by themselves. The word `text` measures the string functions, `trees` the trees of globals, and `locks` tries of names;
// with none of them it says so.
#![tactic(auto)]

mod locks;
mod text;
mod trees;

use std::{env, io};

fn main(rt: HostRuntime) -> io::Result<()> {
    let words: Vec<String> = env::args(&rt)?.collect(rt.alloc())?;
    match words.get(1) {
        Some(word) => measure(&rt, word.as_str()),
        None => usage(&rt),
    }
}

fn measure(rt: &HostRuntime, word: &str) -> io::Result<()> {
    match word {
        "text" => text::measure_all(rt),
        "trees" => trees::measure_all(rt),
        "locks" => locks::measure_all(rt),
        _ => usage(rt),
    }
}

fn usage(rt: &HostRuntime) -> io::Result<()> {
    println!(rt; "usage: mj_bench text|trees|locks")
}

//! Prints the tolls that the queues of a corridor tell. The words are a network file, a loads file and a horizon. A line `toll LINK TIME
//! TOLL` has the time that one waits who enters the link then, for each point of the queue's curve. The status is 1 if a word, a file, a
//! number or the output fails.
#![tactic(auto)]

mod tolls;

use nf_edge::{RealShelf, Shelf, Sink, StdSink, write_text};
use nf_frac::Q;
use nf_load::parse_loads;
use nf_net::{LONGEST_FILE, LinkId, parse};
use std::alloc::{AllocGlobal, Global};
use std::process::ExitCode;
use std::rt::Env;
use std::{env, io};
use tolls::link_tolls;

fn words<R: Env + AllocGlobal>(rt: &R) -> io::Result<Vec<String>> {
    let words = env::args(rt)?.collect(rt.alloc())?;
    Ok(words)
}

// Writes the tolls of all links in order, or nothing and returns None if something fails.
fn run(alloc: Global, words: &[String], shelf: &mut impl Shelf, out: &mut impl Sink) -> Option<()> {
    let [_, net, loads, horizon] = words else {
        return None;
    };
    let horizon = Q::read(horizon.as_bytes()).ok()?;
    if horizon.is_below(Q::zero()) {
        return None;
    }
    let Ok(text) = shelf.fetch(alloc, net.as_str(), LONGEST_FILE) else {
        return None;
    };
    let net = parse(alloc, &text).ok()?;
    let Ok(text) = shelf.fetch(alloc, loads.as_str(), LONGEST_FILE) else {
        return None;
    };
    let Ok(loads) = parse_loads(alloc, &net, &text) else {
        return None;
    };
    let mut tolls = Vec::new(alloc);
    for link in 0..net.link_count() {
        let text = link_tolls(alloc, &net, &loads, LinkId(link), horizon).ok()?;
        tolls.extend_from_slice(&text).ok()?;
    }
    write_text(out, &tolls).ok()
}

fn main(rt: HostRuntime) -> ExitCode {
    let mut shelf = RealShelf::new(&rt, rt.alloc());
    let mut out = StdSink::new(rt.stdout());
    match words(&rt) {
        Ok(words) if run(rt.alloc(), &words, &mut shelf, &mut out).is_some() => ExitCode::SUCCESS,
        _ => ExitCode::FAILURE,
    }
}

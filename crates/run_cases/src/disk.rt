// A real file.
use nf_edge::{RealShelf, Shelf, StdSink, write_text};
use std::{fs, io};

/// The name of the file.
const NAME: &str = "run_cases.txt";

fn compared(bytes: &[u8], text: &[u8]) -> &'static str {
    if bytes == text {
        "as written"
    } else {
        "another text"
    }
}

// Fetches the file with a limit, and compares its bytes with the text that was written.
fn fetch<S: Shelf>(rt: &HostRuntime, shelf: &mut S, limit: u32, text: &[u8]) -> io::Result<()> {
    match shelf.fetch(rt.alloc(), NAME, limit) {
        Ok(bytes) => {
            let answer = compared(&bytes, text);
            println!(rt; "a file at most {limit}: {} bytes, {answer}", bytes.len())
        }
        Err(fault) => println!(rt; "a file at most {limit}: {fault:?}"),
    }
}

// Fetches the file of 10,000 bytes within the limit, beyond the limit, and after its removal.
fn fetch_text(rt: &HostRuntime, text: &[u8]) -> io::Result<()> {
    let mut shelf = RealShelf::new(rt, rt.alloc());
    fetch(rt, &mut shelf, 10_000, text)?;
    fetch(rt, &mut shelf, 9_999, text)?;
    fs::remove_file(rt, NAME)?;
    fetch(rt, &mut shelf, 10_000, text)
}

// Writes the text into the file, and returns whether this succeeds.
fn write_file(rt: &HostRuntime, text: &[u8]) -> io::Result<bool> {
    let mut sink = StdSink::new(fs::create(rt, NAME)?);
    Ok(write_text(&mut sink, text).is_ok())
}

/// Writes a text of 10,000 bytes into a real file. Prints what fetches of the file return.
pub fn tell(rt: &HostRuntime, text: &[u8]) -> io::Result<()> {
    if write_file(rt, text)? {
        fetch_text(rt, text)
    } else {
        println!(rt; "a write failed")
    }
}

// Reading and printing numbers. A line is a question and a word:
//
//     parts WORD      numerator and denominator of the fraction, at most 2^127 - 1
//     decimal WORD    the same, with decimals allowed
//     narrow WORD     the same, with decimals, for a numerator and denominator of at most 32,767
//     printed WORD    the printed form of the fraction
//     count WORD      the count, printed
//
// The program prints the line, and then the answer or the fault.
use crate::shown::as_text;
use nf_frac_words::{NumberFault, TextBuf, count, decimal_parts, parts, write_count, write_parts};
use std::io;

/// 2^127 - 1.
const WIDEST: u128 = 170141183460469231731687303715884105727;

/// 2^15 - 1.
const NARROW: u128 = 32767;

// Prints numerator and denominator, or the fault.
fn tell_parts(rt: &HostRuntime, read: Result<(i128, u128), NumberFault>) -> io::Result<()> {
    match read {
        Ok((num, den)) => println!(rt; "{num} over {den}"),
        Err(fault) => println!(rt; "{fault:?}"),
    }
}

fn tell_text(rt: &HostRuntime, room: &TextBuf) -> io::Result<()> {
    println!(rt; "{}", as_text(room.text()))
}

fn tell_printed(rt: &HostRuntime, word: &[u8]) -> io::Result<()> {
    match parts(word, WIDEST) {
        Ok((num, den)) => {
            let mut room = TextBuf::new();
            write_parts(num, den, &mut room);
            tell_text(rt, &room)
        }
        Err(fault) => println!(rt; "{fault:?}"),
    }
}

fn tell_count(rt: &HostRuntime, word: &[u8]) -> io::Result<()> {
    match count(word) {
        Some(number) => {
            let mut room = TextBuf::new();
            write_count(number, &mut room);
            tell_text(rt, &room)
        }
        None => println!(rt; "no count"),
    }
}

// Answers a question about a word.
fn answer(rt: &HostRuntime, question: &str, word: &[u8]) -> io::Result<()> {
    match question {
        "parts" => tell_parts(rt, parts(word, WIDEST)),
        "decimal" => tell_parts(rt, decimal_parts(word, WIDEST)),
        "narrow" => tell_parts(rt, decimal_parts(word, NARROW)),
        "printed" => tell_printed(rt, word),
        "count" => tell_count(rt, word),
        _ => println!(rt; "no question"),
    }
}

/// Prints a line, and answers it.
pub fn tell(rt: &HostRuntime, line: &str) -> io::Result<()> {
    print!(rt; "{line}: ")?;
    match line.split_once(' ') {
        Some((question, word)) => answer(rt, question, word.as_bytes()),
        None => println!(rt; "no question"),
    }
}

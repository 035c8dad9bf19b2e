// Feeds the report's reader many texts in one run: on standard input a text's length in decimal, a newline and its
// bytes, again and again; a line for each, as report_check prints it. oracle/report.py made the texts that the gate
// feeds it, and the answers. It promises only that it ends and stays in bounds. It uses say and report_say.
#![tactic(auto)]

use say::Passing;
use std::io;
use std::io::Read;

// The most texts, and the most bytes of a text's length with its newline.
const MOST_TEXTS: u64 = 1000000;

const MOST_DIGITS: usize = 20;

// A number with one more digit, kept below 2^40: no text is longer. Of a byte only the remainder modulo 10 counts, so
// that it needs no test.
fn with_digit(value: u64, b: u8) -> u64 {
    value % 100000000000 * 10 + (u64::from(b) + 2) % 10
}

// The length of the next text, if one follows.
fn next_size<R: Read>(input: &mut R) -> Option<u64> {
    let mut bytes = 0;
    for b in input.bytes().take(MOST_DIGITS) {
        match b.ok()? {
            b'\n' => return Some(bytes),
            b => bytes = with_digit(bytes, b),
        }
    }
    None
}

// The line of a text of n bytes.
fn one_text<R: Read>(out: &impl Print, input: &mut R, area: &mut [u8], n: u64) -> io::Result<()> {
    if (area.len() as u64) < n {
        let _ = io::copy(&mut input.take(n), &mut io::sink());
        return println!(out; "long");
    }
    let text = &mut area[..n as usize];
    match input.read_exact(text) {
        Ok(()) => report_say::tell(out, text),
        Err(_) => println!(out; "cut short"),
    }
}

fn run<R: Input + Print>(rt: &R, area: &mut [u8]) -> io::Result<()> {
    let out = &Passing(rt);
    let mut input = rt.reader();
    for _ in 0..MOST_TEXTS {
        let Some(n) = next_size(&mut input) else {
            break;
        };
        one_text(out, &mut input, area, n)?;
    }
    Ok(())
}

fn main(rt: HostRuntime) {
    let mut area = [0; 65536];
    // it fails where a pipe is closed, and nobody is left to tell
    let _ = run(&rt, &mut area);
}

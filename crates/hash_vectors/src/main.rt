// Runs the outside hash vectors: rows `SEED LENGTH A B C HASH` on standard input, decimal, one space apart, a row a
// line; the key's byte i is (A + B * i + C * (i / 256)) mod 256. It prints each row whose hash differs, then how many
// rows it read and how many differed. docs/VECTORS.md says where the rows come from. It promises only that it ends and
// stays in bounds. It uses murmurhash2, text, say and script.
#![tactic(auto)]

use say::Passing;
use script::lines::Lines;
use std::io;
use text::words;

// The most rows that are counted.
const MOST_ROWS: u64 = 1000000000;

fn low_byte(n: u64) -> u8 {
    (n % 256) as u8
}

// Byte i of a key.
fn key_byte(a: u8, b: u8, c: u8, i: usize) -> u8 {
    let low = (i % 256) as u8;
    let high = (i / 256 % 256) as u8;
    a.wrapping_add(b.wrapping_mul(low))
        .wrapping_add(c.wrapping_mul(high))
}

fn fill(key: &mut [u8], a: u8, b: u8, c: u8) {
    for (i, byte) in key.iter_mut().enumerate() {
        *byte = key_byte(a, b, c, i);
    }
}

// Whether a row's hash differs, by a key that is made in the lent memory; a line says so.
fn differs(out: &impl Print, row: [u64; 6], key: &mut [u8]) -> io::Result<bool> {
    let [seed, length, a, b, c, hash] = row;
    let n = key.len().min(length as usize);
    let key = &mut key[..n];
    fill(key, low_byte(a), low_byte(b), low_byte(c));
    let got = murmurhash2::murmurhash2(key, (seed % 4294967296) as u32);
    if hash == u64::from(got) {
        return Ok(false);
    }
    println!(out; "differs: length {length}, wanted {hash}, got {got}")?;
    Ok(true)
}

// Whether a row can't be read or its hash differs; a line says so.
fn is_wrong(out: &impl Print, line: &[u8], key: &mut [u8]) -> io::Result<bool> {
    match words::numbers_from::<6>(line, 0) {
        Ok(row) => differs(out, row, key),
        Err(fault) => {
            println!(out; "? {fault}")?;
            Ok(true)
        }
    }
}

// One more, as far as rows are counted.
fn one_more(n: u64) -> u64 {
    n.saturating_add(1).min(MOST_ROWS)
}

// All rows of standard input; an empty line is none.
fn run<R: Input + Print>(rt: &R, area: &mut [u8], key: &mut [u8]) -> io::Result<()> {
    let out = &Passing(rt);
    let mut input = rt.reader();
    let mut lines = Lines::new();
    let mut rows = 0;
    let mut wrong = 0;
    for _ in 0..u64::MAX {
        let Some(line) = lines.next(&mut input, area) else {
            break;
        };
        if !line.bytes.is_empty() {
            rows = one_more(rows);
            if is_wrong(out, line.bytes, key)? {
                wrong = one_more(wrong);
            }
        }
    }
    println!(out; "{rows} rows, {wrong} differ")
}

fn main(rt: HostRuntime) {
    let mut line = [0; 65536];
    let mut key = [0; 65536];
    // it fails where a pipe is closed, and nobody is left to tell
    let _ = run(&rt, &mut line, &mut key);
}

// Checks a shift report on standard input, up to 65,536 bytes: prints ok, bad N with the first bad line, or, for more
// bytes, long (document 02, One). It promises only that it ends and stays in bounds; what it says of the bytes is
// proved of `report_read::check::check`. A read that fails counts as the input's end.
#![tactic(auto)]

ghost use Rattle.std.specs.Prelude.{◌≤◌, length};

use std::io;
use std::io::Read;

// Reads until the area is full or the input ends, and tells how much of it is read.
fn read_full<R: Read>(input: &mut R, area: &mut [u8]) -> usize
    ensures { result ≤ length area.old }
{
    let mut n = 0;
    for _ in 0..u64::MAX {
        match input.read(&mut area[n..]) {
            Ok(0) | Err(_) => break,
            Ok(more) => n += more,
        }
    }
    n
}

fn run<R: Input + Print>(rt: &R, area: &mut [u8]) -> io::Result<()> {
    let mut input = rt.reader();
    let n = read_full(&mut input, area);
    if n == area.len() && 0 < read_full(&mut input, &mut [0]) {
        return println!(rt; "long");
    }
    report_say::tell(rt, &area[..n])
}

fn main(rt: HostRuntime) {
    let mut area = [0; 65536];
    // where nothing can be printed, nobody is left to tell
    let _ = run(&rt, &mut area);
}

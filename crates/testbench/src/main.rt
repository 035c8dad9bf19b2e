// The testbench: reads commands from standard input and prints one answer line each, so that anyone can try any call on
// any memory.
//
// It promises only that it ends and stays in bounds, whatever it is fed; what the calls answer, the crates below
// promise. `help` lists the commands; README.md says how to play a script. A line of up to 65,536 bytes, a bytes word
// that expands to at most 262,144, an output of at most 1,048,576 bytes, 16,384 readings or 16,384 numbers; the memory
// lies on the stack: 131,072 table words, 2 whole key pages, 3 whole list pages; for a second store 4,096 words,
// 196,608 and 327,680 bytes; a flat buffer of 196,608 bytes. It uses say, script, the libraries of its commands (their
// names begin with bench_), store_state and memory_arena (the state's type).
#![tactic(auto)]

mod commands;
mod play;

use bench_areas::Scratch;
use bench_both::Bench;
use bench_flat::Flat;
use bench_lent::Store;

fn main(rt: HostRuntime) {
    let mut bench = Bench {
        one: Store {
            state: bench_state::zeros(),
            table: [0; 131072],
            keys: [0; 2097152],
            lists: [0; 3145728],
            words: 0,
            key_bytes: 0,
            list_bytes: 0,
        },
        two: Store {
            state: bench_state::zeros(),
            table: [0; 4096],
            keys: [0; 196608],
            lists: [0; 327680],
            words: 0,
            key_bytes: 0,
            list_bytes: 0,
        },
        is_second: false,
        walk: 0,
        flat: Flat {
            memory: [0; 196608],
            lent: 0,
            used: 0,
        },
        scratch: Scratch {
            name: [0; 262144],
            output: [0; 1048576],
        },
    };
    let mut line = [0; 65536];
    // it fails where a pipe is closed, and nobody is left to tell
    let _ = play::run(&rt, &mut bench, &mut line);
}

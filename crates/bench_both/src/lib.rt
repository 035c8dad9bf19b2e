// The testbench's two stores and its flat store: the commands on whichever the lines talk to.
//
// It promises that each command ends and stays inside the areas, whatever the line, the states and the memory are; what
// the calls answer, the crates below promise. It uses text, say, bench_areas, bench_lent, bench_one, bench_flat,
// bench_join, and memory_arena and store_state for the states.
#![tactic(auto)]

use bench_areas::Scratch;
use bench_flat::Flat;
use bench_lent::Store;
use say::Unanswered;
use std::io;
use text::fault::Fault;
use text::words;

#[derive(Drop)]
pub struct Bench {
    pub one: Store<131072, 2097152, 3145728>,
    pub two: Store<4096, 196608, 327680>,
    // whether the lines talk to the second store
    pub is_second: bool,
    // how many buckets the last call by name said that it looked at, whichever store it was made on
    pub walk: usize,
    pub flat: Flat<196608>,
    pub scratch: Scratch,
}

impl Bench {
    // `on STORE`: which store the lines behind it talk to.
    pub fn on(&mut self, line: &[u8], out: &impl Print) -> Result<(), Unanswered> {
        let store = words::number_at(line, 1)?;
        self.is_second = match store {
            1 => false,
            2 => true,
            _ => return Err(Fault::NoSuchStore.into()),
        };
        Ok(println!(out; "on {store}")?)
    }

    // `lend WORDS KEYBYTES LISTBYTES HH`
    pub fn lend(&mut self, line: &[u8], out: &impl Print) -> Result<(), Unanswered> {
        if self.is_second {
            self.two.lend(line)?;
        } else {
            self.one.lend(line)?;
        }
        self.walk = 0;
        Ok(println!(out; "lent")?)
    }

    // `walk`
    pub fn tell_walk(&self, out: &impl Print) -> io::Result<()> {
        println!(out; "walk {}", self.walk)
    }

    // A command on the store that is talked to.
    pub fn play(
        &mut self,
        command: bench_one::Command,
        line: &[u8],
        out: &impl Print,
    ) -> Result<(), Unanswered> {
        let scratch = &mut self.scratch;
        let told = if self.is_second {
            bench_one::play(command, &mut self.two.lent(), line, scratch, out)?
        } else {
            bench_one::play(command, &mut self.one.lent(), line, scratch, out)?
        };
        if let Some(walk) = told {
            self.walk = walk;
        }
        Ok(())
    }

    // A command on the flat store.
    pub fn play_flat(
        &mut self,
        command: bench_flat::Command,
        line: &[u8],
        out: &impl Print,
    ) -> Result<(), Unanswered> {
        self.flat.play(command, line, &mut self.scratch, out)
    }

    // `join ROOM`: the second store is joined onto the first.
    pub fn join(&mut self, line: &[u8], out: &impl Print) -> Result<(), Unanswered> {
        let one = &mut self.one.lent();
        let two = self.two.lent();
        bench_join::join(one, two.seen(), line, &mut self.scratch, out)
    }
}

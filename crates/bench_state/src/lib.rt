// The testbench's commands on a store's state, as numbers from outside: state, set.
//
// It promises that each call ends and stays inside what is lent, whatever the line and the state are. It uses
// murmurhash2, memory_arena and store_state (for the state), text and say.
#![tactic(auto)]

use memory_arena::Arena;
use say::Unanswered;
use std::{fmt, io};
use store_state::State;
use text::fault::Fault;
use text::words;

#[derive(Clone, Copy)]
pub enum Command {
    State,
    Set,
}

// A number of the state. The end is 0 at the front of the lent table and 1 at its back. The page size, which both arenas
// keep, is one number here.
#[derive(Clone, Copy)]
enum Field {
    Seed,
    Words,
    KeyBytes,
    ListBytes,
    Buckets,
    End,
    Keys,
    KeyPage,
    KeyUsed,
    ListPage,
    ListUsed,
    PageSize,
}

// In the order in which they are told.
const FIELDS: [Field; 12] = [
    Field::Seed,
    Field::Words,
    Field::KeyBytes,
    Field::ListBytes,
    Field::Buckets,
    Field::End,
    Field::Keys,
    Field::KeyPage,
    Field::KeyUsed,
    Field::ListPage,
    Field::ListUsed,
    Field::PageSize,
];

impl Field {
    fn name(self) -> &'static str {
        match self {
            Field::Seed => "seed",
            Field::Words => "words",
            Field::KeyBytes => "key_bytes",
            Field::ListBytes => "list_bytes",
            Field::Buckets => "buckets",
            Field::End => "end",
            Field::Keys => "keys",
            Field::KeyPage => "key_page",
            Field::KeyUsed => "key_used",
            Field::ListPage => "list_page",
            Field::ListUsed => "list_used",
            Field::PageSize => "page_size",
        }
    }

    fn named(name: &[u8]) -> Result<Field, Fault> {
        FIELDS
            .into_iter()
            .find(|field| field.name().as_bytes() == name)
            .ok_or(Fault::NoSuchField)
    }

    fn get(self, st: State) -> u64 {
        match self {
            Field::Seed => u64::from(st.seed),
            Field::Words => st.words as u64,
            Field::KeyBytes => st.key_bytes as u64,
            Field::ListBytes => st.list_bytes as u64,
            Field::Buckets => st.buckets as u64,
            Field::End => u64::from(st.back),
            Field::Keys => st.keys as u64,
            Field::KeyPage => st.key_arena.page as u64,
            Field::KeyUsed => st.key_arena.used as u64,
            Field::ListPage => st.list_arena.page as u64,
            Field::ListUsed => st.list_arena.used as u64,
            Field::PageSize => st.key_arena.size as u64,
        }
    }

    // Changes the number of a state, unless the new one is too large for it.
    fn set(self, st: &mut State, number: u64) -> Result<(), Fault> {
        let n = number as usize;
        match self {
            Field::Seed => st.seed = u32::try_from(number).map_err(|_| Fault::TooLarge)?,
            Field::Words => st.words = n,
            Field::KeyBytes => st.key_bytes = n,
            Field::ListBytes => st.list_bytes = n,
            Field::Buckets => st.buckets = n,
            Field::End => {
                st.back = match number {
                    0 => false,
                    1 => true,
                    _ => return Err(Fault::TooLarge),
                }
            }
            Field::Keys => st.keys = n,
            Field::KeyPage => st.key_arena.page = n,
            Field::KeyUsed => st.key_arena.used = n,
            Field::ListPage => st.list_arena.page = n,
            Field::ListUsed => st.list_arena.used = n,
            Field::PageSize => {
                st.key_arena.size = n;
                st.list_arena.size = n;
            }
        }
        Ok(())
    }
}

impl fmt::Display for Field {
    fn fmt<W: fmt::Write>(&self, f: &mut fmt::Formatter<W>) -> fmt::Result {
        f.write_str(self.name())
    }
}

// A state of zeros.
pub fn zeros() -> State {
    let unused = Arena {
        page: 0,
        used: 0,
        size: 0,
    };
    State {
        seed: 0,
        words: 0,
        key_bytes: 0,
        list_bytes: 0,
        buckets: 0,
        back: false,
        keys: 0,
        key_arena: unused,
        list_arena: unused,
    }
}

// `set FIELD NUMBER`
fn set(st: &mut State, line: &[u8], out: &impl Print) -> Result<(), Unanswered> {
    let field = Field::named(words::word(line, 1))?;
    let number = words::number_at(line, 2)?;
    field.set(st, number)?;
    println!(out; "set")?;
    Ok(())
}

// `state`
fn tell(st: State, out: &impl Print) -> io::Result<()> {
    print!(out; "state")?;
    for field in FIELDS {
        let number = field.get(st);
        print!(out; " {field}={number}")?;
    }
    println!(out; "")
}

// The hash of a state's numbers, each as 8 little-endian bytes.
pub fn hash(st: State) -> u32 {
    let mut bytes = [0; 96];
    for (place, field) in bytes.chunks_exact_mut(8).zip(FIELDS) {
        place.copy_from_slice(&field.get(st).to_le_bytes());
    }
    murmurhash2::murmurhash2(&bytes, 0)
}

// The state is changed by `set` alone.
pub fn play(
    command: Command,
    st: &mut State,
    line: &[u8],
    out: &impl Print,
) -> Result<(), Unanswered> {
    match command {
        Command::State => Ok(tell(*st, out)?),
        Command::Set => set(st, line, out),
    }
}

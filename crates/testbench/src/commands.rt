// The commands: one table, from which their names, their numbers of words and their usage texts come.
use self::Command::{Flat, Help, Join, Lend, On, One, Walk};
use bench_areas::Command::{Dump, Poke, Sum};
use bench_lower::Command::{Allocate, Equal, Get, Put, Unvint, Vint};
use bench_one::Command::{Areas, Check, Lower, Pieces, Read, Readings, Report, State, Write};
use bench_pieces::Command::{Feed, Piece};
use bench_read::Command::{Block, Count, Length, Lookup, Next, Show};
use bench_readings::Command::{Drift, Recall};
use bench_report::Command::{ReportLane, Unreport};
use bench_state::Command::Set;
use bench_write::Command::{Append, Create};
use script::rows;
use std::io;

#[derive(Clone, Copy)]
pub enum Command {
    Help,
    // a store's memory, and the walk that the last call by name told
    Lend,
    Walk,
    // one of the two stores, and both
    On,
    Join,
    // on the store that is talked to, and on the flat store
    One(bench_one::Command),
    Flat(bench_flat::Command),
}

// How each command is written. What two groups of commands share a name for is named in full.
pub const TABLE: [(Command, &str); 44] = [
    (Lend, "lend WORDS KEYBYTES LISTBYTES HH"),
    (One(Write(Create)), "create CAPACITY SEED [SIZE]"),
    (One(Write(Append)), "append NAME BYTES"),
    (One(Read(Lookup)), "lookup NAME"),
    (One(Read(Length)), "length NAME"),
    (One(Read(bench_read::Command::Read)), "read NAME ROOM"),
    (One(Read(Block)), "block NAME INDEX"),
    (One(Read(Show)), "show PLACE LENGTH"),
    (One(Read(Next)), "next INDEX"),
    (One(Read(Count)), "count"),
    (One(State(bench_state::Command::State)), "state"),
    (One(State(Set)), "set FIELD NUMBER"),
    (One(Areas(Poke)), "poke AREA PLACE BYTES-or-WORD"),
    (One(Areas(Dump)), "dump AREA PLACE COUNT"),
    (One(Areas(Sum)), "sum"),
    (One(Lower(bench_lower::Command::Hash)), "hash SEED BYTES"),
    (One(Lower(Vint)), "vint N"),
    (One(Lower(Unvint)), "unvint BYTES"),
    (One(Lower(Equal)), "equal A B"),
    (One(Lower(bench_lower::Command::Copy)), "copy A B"),
    (One(Lower(Allocate)), "allocate PAGE USED LENGTH N [SIZE]"),
    (One(Lower(Get)), "get PAGE USED LENGTH PLACE N [SIZE]"),
    (One(Lower(Put)), "put PAGE USED LENGTH PLACE BYTES [SIZE]"),
    (Help, "help"),
    (One(Report(bench_report::Command::Report)), "report ROOM"),
    (One(Report(Unreport)), "unreport BYTES"),
    (One(Report(ReportLane)), "report-lane BYTES INDEX"),
    (One(Readings(Drift)), "drift NAME LAST READING"),
    (One(Readings(Recall)), "readings NAME ROOM"),
    (One(Pieces(Piece)), "piece NAME GIVEN ROOM"),
    (One(Pieces(Feed)), "feed COUNT HELD FED PIECE ROOM END"),
    (One(Check), "check MARKBYTES HH"),
    (Walk, "walk"),
    (Flat(bench_flat::Command::Lend), "flat-lend BYTES HH"),
    (Flat(bench_flat::Command::Used), "flat-used N"),
    (Flat(bench_flat::Command::Append), "flat-append NAME BYTES"),
    (Flat(bench_flat::Command::Lookup), "flat-lookup NAME"),
    (Flat(bench_flat::Command::Length), "flat-length NAME"),
    (Flat(bench_flat::Command::Read), "flat-read NAME ROOM"),
    (Flat(bench_flat::Command::Poke), "flat-poke PLACE BYTES"),
    (Flat(bench_flat::Command::Dump), "flat-dump PLACE COUNT"),
    (Flat(bench_flat::Command::Sum), "flat-sum"),
    (On, "on STORE"),
    (Join, "join ROOM"),
];

// `help`: how words are written, then the commands, one to a line.
pub fn help(out: &impl Print) -> io::Result<()> {
    print!(out;
        "# a command to a line, words one space apart; an empty line and one that begins with # are passed over
# NUMBERS are decimal
# BYTES and NAMES are hex pairs, - for none, N*HH for N times a byte, joined by +, or 'letters-and-digits
# AREA is table (of words), keys or lists; FIELD is a name that state tells; end is 0 at the front, 1 at the back
# allocate, get and put: the bare arena over the first LENGTH bytes of the lent list area
"
    )?;
    rows::say_all(out, &TABLE)
}

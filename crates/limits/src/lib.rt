// The numbers of documents 01 and 02, each under a name, in one place: what bounds the store, and what an answer says.
//
// `specs/Limits.antt` has the same numbers for the definitions, with the laws that tie them together, and every contract
// above is stated over those; a constant that disagreed would fail the first proof that meets it. `specs/Refusals.antt`
// says what an answer is in the paper's terms. Of a refusal it promises its number. It uses nothing.
#![tactic(auto)]

ghost use Rattle.std.specs.Prelude.{◌≡◌};
ghost use Rattle.limits.specs.Refusals.{number_of};

// A page's bytes: powers of two from the smallest to the crate's, which is the largest.
pub const SMALLEST_PAGE: usize = 65536;

pub const PAGE_SIZE: usize = 1048576;

// One more than the last address: an arena's bytes and one page together are at most this.
pub const ADDRESSES: usize = 4294967296;

// Pages of the longest arena of all, which has the smallest pages.
pub const PAGE_LIMIT: usize = 65535;

// Words of the longest table, two a bucket.
pub const WORD_LIMIT: usize = 8388608;

// Bytes of the longest name, whatever the page, and what a record has besides its name: two length bytes and sixteen of
// value.
pub const NAME_LIMIT: usize = 65535;

pub const RECORD_EXTRA: usize = 18;

// The address that points nowhere.
pub const NULL: u32 = 4294967295;

// The block number of a list without blocks, and the largest that isn't damage.
pub const FIRST_BLOCK_NUM: u32 = 2;

pub const NUMBER_LIMIT: u32 = 140000;

// Block sizes double up to this exponent; each block is followed by a link.
pub const SIZE_TOP: usize = 15;

pub const LINK: usize = 4;

// Bytes of the longest vint.
pub const VINT_LIMIT: usize = 5;

// The highest group that a vint's fifth byte may have.
pub const FIFTH_LIMIT: u8 = 15;

// Bytes of a cut vint that may be held between pieces, and bytes that a number reader may be fed in all.
pub const HELD_LIMIT: usize = 4;

pub const FED_LIMIT: u32 = 4294967295;

// Digits of a report's longest decimal.
pub const DIGIT_LIMIT: usize = 18;

// Why a call refuses, in the order of the numbers by which it is told.
#[derive(Clone, Copy, Debug, PartialEq, Eq)]
pub enum Refusal {
    // creation: a capacity, a page size or lent memory that it doesn't take
    NotCreatable = 1,
    // the state isn't one of the lent memory, or a count isn't one of the lane
    NotWhole,
    NameTooLong,
    // a record, a header, a block or an entry that isn't whole
    Damage,
    TableFull,
    KeysFull,
    ListsFull,
    OutputTooShort,
    // where the Rust crate would panic: lengths that differ, no byte, more than a page's
    WrongLength,
    // an arena's state or an address that isn't one of the lent memory
    OutOfArena,
    // a vint without an end, and one in another form than the written one
    NoEnd,
    AnotherForm,
    NoName,
    BufferFull,
    // a text that is no report
    NoReport,
}

impl Refusal {
    // The number that stands for it outside.
    pub fn number(self) -> u32
        ensures { result ≡ number_of self }
    {
        self as u32
    }
}

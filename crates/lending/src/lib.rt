// How much to lend for a shift (document 02, Fourteen): the table, the key pages and the list pages for at most so many
// lanes, so many bytes in all and names of at most so many bytes.
//
// It promises the numbers of specs/Lending.antt, for any input; shift_cost proves that a store which was created with
// them never refuses a shift that stays within it. It uses limits, numbers, memory_arena for page sizes, and
// shared_arena_hashmap for powers of two.
#![tactic(auto)]

ghost use Rattle.std.specs.Prelude.{◌≡◌, ◌+◌, ◌-◌, ◌*◌, ◌≤◌, ◌<◌, min, max};
ghost use Rattle.limits.specs.Limits.{name_limit_for};
ghost use Rattle.lending.specs.Lending.{with_tails, taken_at_most, key_bytes_for, list_bytes_for, capacity_for, lend_for};

// A capacity to create with, words of the table, bytes of the key pages and of the list pages; or why none are told.
#[derive(Clone, Copy)]
pub enum Lend {
    Areas(u64, u64, u64, u64),
    TooMuch,
    NoSuchPage,
}

// The most buckets of a table.
const BUCKETS: u64 = limits::WORD_LIMIT as u64 / 2;

// What of a page that is left behind is never used, at most: a byte less than the largest block with its link.
const BLOCK_TAIL: u64 = 32771;

// Pages that hold so much, with the tails that are left behind.
fn with_tails(page: u64, tail: u64, total: u64) -> u64
    requires { (tail < page) × ((page ≤ 1048576) × (total ≤ 300000000000)) }
    ensures { result ≡ with_tails page tail total }
{
    if total <= page {
        return total;
    }
    let left = total / (page - tail);
    total + tail * (left + 1)
}

fn taken_at_most(lanes: u64, bytes: u64) -> u64
    requires { (lanes ≤ 4194304) × (bytes ≤ 4294967295) }
    ensures { (result ≡ taken_at_most lanes bytes) × (result ≤ 300000000000) }
{
    let short = (5 * bytes + 20 * lanes) / 2;
    let long = bytes + bytes / 8192 + 32816 * lanes;
    short.min(long)
}

fn list_bytes_for(page: u64, lanes: u64, bytes: u64) -> u64
    requires { (65536 ≤ page) × ((page ≤ 1048576) × ((lanes ≤ 4194304) × (bytes ≤ 4294967295))) }
    ensures { result ≡ list_bytes_for page lanes bytes }
{
    u64::max(1, with_tails(page, BLOCK_TAIL, taken_at_most(lanes, bytes)))
}

fn key_bytes_for(page: u64, lanes: u64, longest: u64) -> u64
    requires { (65536 ≤ page) × ((page ≤ 1048576) × ((lanes ≤ 4194304) × (longest ≤ name_limit_for page))) }
    ensures { result ≡ key_bytes_for page lanes longest }
{
    let record = longest + limits::RECORD_EXTRA as u64;
    let on_page = page / record;
    let before = lanes.saturating_sub(1);
    before / on_page * page + (before % on_page + 1) * record
}

fn capacity_for(lanes: u64) -> u64
    requires { lanes ≤ 4194304 }
    ensures { (result ≡ capacity_for lanes) × (result ≤ 16777216) }
{
    if lanes == 0 {
        return 1;
    }
    shared_arena_hashmap::compute_previous_power_of_two((4 * lanes - 3) as usize) as u64
}

// What to lend for so many lanes, so many bytes in all and names of at most so many bytes, with pages of so many bytes.
pub fn lend_for(lanes: u64, bytes: u64, longest: u64, page: u64) -> Lend
    ensures settled { result ≡ lend_for page lanes bytes longest }
{
    if !memory_arena::is_page_size(page as usize) {
        return Lend::NoSuchPage;
    }
    let most = limits::ADDRESSES as u64 - page;
    let name_most = (limits::NAME_LIMIT as u64).min(page - limits::RECORD_EXTRA as u64);
    let are_few = (lanes <= BUCKETS) & ((bytes <= most) & (longest <= name_most));
    if !are_few {
        return Lend::TooMuch;
    }
    let capacity = capacity_for(lanes);
    let keys = key_bytes_for(page, lanes, longest);
    let lists = list_bytes_for(page, lanes, bytes);
    let is_lent = (capacity <= BUCKETS) & ((keys <= most) & (lists <= most));
    if !is_lent {
        return Lend::TooMuch;
    }
    let words = 2 * capacity;
    Lend::Areas(capacity, words, keys, lists)
}

// What C's calling form shares: an answer said in numbers, a code and three told words, and the new state saved to its
// area (document 02, Twelve).
//
// It promises what specs/Told.antt says of each answer of the store: its code, the words that are told, the state area.
// An area of fewer than three words is left as it was. It uses state_area and the store's types.
#![tactic(auto)]

ghost use Rattle.std.specs.Prelude.{◌≡◌, ◌≤◌, length};
ghost use Rattle.state_area.specs.Area.{area_size};
ghost use Rattle.c_told.specs.Told.{says, number_in, answer_told, lookup_told, listed_told};
ghost use Rattle.c_told.specs.Told.{saved_created, saved_appended};

use limits::Refusal;
use store_append::Appended;
use store_look::{Answer, Listed, Lookup, Outcome};
use store_state::State;

// ---- what is said in numbers

// No such lane.
pub const ABSENT: u32 = 100;

const NO_MORE: u32 = 101;

// Tells a number and a word beside it, where three words are lent for that; hands the code on.
pub fn tell(told: &mut [u32], code: u32, number: u64, beside: u32) -> u32
    ensures { (result, told.new) ≡ says code number beside told.old }
{
    if told.len() < 3 {
        return code;
    }
    let low = (number % 4294967296) as u32;
    let high = (number / 4294967296) as u32;
    told[0] = low;
    told[1] = high;
    told[2] = beside;
    code
}

fn number_in(o: Outcome) -> u64
    ensures { result ≡ number_in o }
{
    match o {
        Outcome::Length(n) => n,
        Outcome::Reading(n) => n,
        Outcome::Block(_, n) => n,
        Outcome::NoSuchBlock => 0,
    }
}

pub fn tell_answer(told: &mut [u32], answer: Answer) -> u32
    ensures { (result, told.new) ≡ answer_told answer told.old }
{
    match answer {
        Answer::Absent => tell(told, ABSENT, 0, 0),
        Answer::Found(o) => tell(told, 0, number_in(o), 0),
        Answer::Refused(n, t) => tell(told, n, t, 0),
    }
}

pub fn tell_lookup(told: &mut [u32], found: Lookup) -> u32
    ensures { (result, told.new) ≡ lookup_told found told.old }
{
    match found {
        Lookup::At(at) => tell(told, 0, at as u64, 0),
        Lookup::Missing => tell(told, ABSENT, 0, 0),
        Lookup::Failed(n) => tell(told, n, 0, 0),
    }
}

pub fn tell_listed(told: &mut [u32], next: Listed) -> u32
    ensures { (result, told.new) ≡ listed_told next told.old }
{
    match next {
        Listed::Bucket(i, at) => tell(told, 0, i as u64, at),
        Listed::NoMore => tell(told, NO_MORE, 0, 0),
        Listed::Stopped(n) => tell(told, n, 0, 0),
    }
}

// ---- the new state saved

pub fn save_created(state: &mut [u8], answer: Result<State, Refusal>) -> u32
    requires { area_size ≤ length state.old }
    ensures { (result, state.new) ≡ saved_created answer state.old }
{
    match answer {
        Ok(st) => {
            state_area::save(state, st);
            0
        }
        Err(e) => e.number(),
    }
}

pub fn save_appended(state: &mut [u8], answer: Appended) -> u32
    requires { area_size ≤ length state.old }
    ensures { (result, state.new) ≡ saved_appended answer state.old }
{
    match answer {
        Appended::Accepted(st) => {
            state_area::save(state, st);
            0
        }
        Appended::Declined(_, n) => n,
    }
}

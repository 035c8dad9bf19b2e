// Numbers of the machine: the smaller of two, and sums and products modulo 2^32.
//
// It promises that each function answers its definition in specs/, for all arguments. specs/ has the little-endian
// numbers of the layers above too; the laws of those definitions, once over the width, are in proofs/Laws.antt. It uses
// nothing.
#![tactic(auto)]

pub mod long;

ghost use Rattle.std.specs.Prelude.{◌≡◌, min};
ghost use Rattle.numbers.specs.Wrap.{wrap_add, wrap_mul};

// The smaller of two numbers.
pub fn least(a: usize, b: usize) -> usize
    ensures { result ≡ min a b }
{
    a.min(b)
}

// The product modulo 2^32.
pub fn wrapping_mul(a: u32, b: u32) -> u32
    ensures { result ≡ wrap_mul a b }
{
    a.wrapping_mul(b)
}

// The sum modulo 2^32.
pub fn wrapping_add(a: u32, b: u32) -> u32
    ensures { result ≡ wrap_add a b }
{
    a.wrapping_add(b)
}

// The same of numbers that have 64 bits on every machine: a function has one width.
ghost use Rattle.std.specs.Prelude.{◌≡◌, min};

// The smaller of two numbers.
pub fn least(a: u64, b: u64) -> u64
    ensures { result ≡ min a b }
{
    a.min(b)
}

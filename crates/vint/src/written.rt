// A vint by value.
ghost use Rattle.std.specs.Prelude.{◌≡◌, ◌≤◌, take};
ghost use Rattle.limits.specs.Limits.{vint_limit};

// Its bytes, zeros after them, and how many they are.
#[derive(Clone, Copy)]
pub struct Vint {
    pub bytes: [u8; limits::VINT_LIMIT],
    pub count: usize,
    pub ghost within: { count ≤ vint_limit },
}

impl Vint {
    // The bytes without the zeros.
    pub fn as_slice(&self) -> &[u8]
        ensures { result.now ≡ take self.now.count self.now.bytes }
    {
        &self.bytes[..self.count]
    }
}

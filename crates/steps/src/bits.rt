// Words of bits: bit i of a word stands for index i.
ghost use Rattle.std.specs.Prelude.{◌≡◌, ◌<◌};
ghost use Rattle.steps.specs.Bits.{has_bit, with_bit};

pub fn has_bit(x: u64, i: usize) -> bool
    requires { i < 64 }
    ensures { result ≡ has_bit x i }
{
    (x >> i) % 2 == 1
}

// The word with bit i set.
pub fn with_bit(x: u64, i: usize) -> u64
    requires { i < 64 }
    ensures { result ≡ with_bit x i }
{
    if has_bit(x, i) {
        return x;
    }
    x + (1 << i)
}

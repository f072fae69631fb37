// Prints the sheet of state lengths (docs/STATE-LENGTHS.md) as the engine has it: a line for each N from 1 to 16, on it the lengths for look-ahead 0 to 15.
#![tactic(auto)]

ghost use Rattle.std.specs.Prelude.{◌≤◌};

use lines::write_numbers;
use state::range::state_length;
use std::array;
use std::io::{self, BufWriter, Write};

fn row<W: Write>(out: &mut W, n: usize) -> io::Result<()>
    requires { (1 ≤ n) × (n ≤ 16) }
{
    let lengths: [u64; 16] = array::from_fn(|ahead| state_length(n, ahead) as u64);
    write!(out, "{}", lengths[0])?;
    write_numbers(out, &lengths[1..])
}

fn main(rt: HostRuntime) -> io::Result<()> {
    let mut out = BufWriter::new(rt.alloc(), io::writer(&rt))?;
    for n in 1..=16 {
        row(&mut out, n)?;
    }
    out.flush()
}

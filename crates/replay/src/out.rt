// Lines for standard output, and what more than one kind of case says in them.
ghost use Rattle.std.specs.Prelude.{◌≤◌};

use layout::Refusal;
use std::fmt;
use std::fmt::{Display, Formatter, Write};

// Text on its way to standard output: it is gathered in a buffer, which is written whenever it is full.
// Kept: no `BufWriter`. That keeps what it could not write, and a program over it stops there; this one goes on, as it always did.
#[derive(Drop)]
pub struct Lines<'a, R> {
    rt: &'a R,
    buffer: [u8; 65536],
    filled: usize,
    ghost within: { filled ≤ 65536 },
}

impl<'a, R: Print> Lines<'a, R> {
    pub fn new(rt: &'a R) -> Self {
        Lines {
            rt,
            buffer: [0; 65536],
            filled: 0,
        }
    }

    // Where a full buffer cannot be written, the bytes in it are lost and the lines go on; the program ends as its last write does.
    fn put(&mut self, b: u8) {
        if self.filled == self.buffer.len() {
            let _ = self.rt.write_all(&self.buffer);
            self.filled = 0;
        }
        self.buffer[self.filled] = b;
        self.filled += 1;
    }

    // Writes what is gathered.
    pub fn flush(&mut self) -> std::io::Result<()> {
        let filled = self.filled;
        self.rt.write_all(&self.buffer[..filled])
    }
}

// It takes any text, and never gives an Err.
impl<'a, R: Print> Write for Lines<'a, R> {
    fn write_str(&mut self, text: &str) -> fmt::Result {
        for &b in text.as_bytes() {
            self.put(b);
        }
        Ok(())
    }
}

// A value, or a sign where there is none.
#[derive(Drop)]
pub struct Or<T>(pub Option<T>, pub char);

impl<T: Display> Display for Or<T> {
    fn fmt<W: Write>(&self, f: &mut Formatter<W>) -> fmt::Result {
        match &self.0 {
            Some(value) => value.fmt(f),
            None => f.write_char(self.1),
        }
    }
}

// A refusal.
pub fn refused(out: &mut impl Write, refusal: impl Refusal) -> fmt::Result {
    write!(out, " R {}", refusal.number())
}

// A space, and a digit for each of 256 bytes.
pub fn digits<F: Fn(u8) -> u8>(out: &mut impl Write, digit: F) -> fmt::Result
    requires { F.IsAlwaysCallable digit }
{
    out.write_str(" ")?;
    for b in 0..=u8::MAX {
        out.write_char(char::from(b'0' + digit(b) % 10))?;
    }
    Ok(())
}

// So many bytes from a place, if they are all there.
pub fn part(bytes: &[u8], from: usize, len: usize) -> Option<&[u8]> {
    bytes.get(from..)?.get(..len)
}

// Their sum, which depends on their order.
pub fn sum_of(bytes: &[u8], from: usize, len: usize) -> Option<u64> {
    let start = len as u64;
    Some(part(bytes, from, len)?.iter().fold(start, mixed))
}

// One byte more of a sum.
fn mixed(sum: u64, b: &u8) -> u64 {
    (sum % 4_294_967_291 * 31 + u64::from(*b)) % 4_294_967_291
}

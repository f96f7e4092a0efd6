// The numbers and the bytes of a line.
ghost use Rattle.std.specs.Prelude.{◌<◌};

// The last three numbers of a line, `c` the last. Each has a space before it.
#[derive(Clone, Copy, Default)]
pub struct Numbers {
    pub a: u64,
    pub b: u64,
    pub c: u64,
}

impl Numbers {
    // A digit is one more of the last number, and a space begins another.
    fn then(self, x: u8) -> Numbers {
        match x {
            b' ' => Numbers {
                a: self.b,
                b: self.c,
                c: 0,
            },
            b'0'..=b'9' => Numbers {
                c: self.c % 1_844_674_407_370_955_161 * 10 + u64::from(x - b'0'),
                ..self
            },
            _ => self,
        }
    }
}

pub fn read(command: &[u8]) -> Numbers {
    let mut n = Numbers::default();
    for x in command {
        n = n.then(*x);
    }
    n
}

// A number's low bits, as the functions take them.
pub fn low8(n: u64) -> u8 {
    (n % 256) as u8
}

pub fn low32(n: u64) -> u32 {
    (n % 4_294_967_296) as u32
}

// A time that is sought.
pub fn time(n: u64) -> i64 {
    (n % 9_223_372_036_854_775_808) as i64
}

// A hexadecimal digit, in capitals.
fn digit(x: u8) -> u8
    ensures { result < 16 }
{
    if x < b'A' { x % 16 } else { (x - 55) % 16 }
}

// The byte of two digits.
pub fn byte(high: u8, low: u8) -> u8 {
    16 * digit(high) + digit(low)
}

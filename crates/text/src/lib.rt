// Text put into a lent buffer, where its free part begins. Bytes past the buffer's end are dropped.
#![tactic(auto)]

ghost use Rattle.std.specs.Prelude.{[], ◌∷◌, ◌≡◌, ◌<◌, nat_abs};
ghost use Rattle.text.specs.Put.{Puts};
ghost use Rattle.text.specs.Texts.{decimal_text, signed_text, hex_text, capital};

// A lent buffer, and the place where its free part begins.
#[derive(Drop)]
pub struct Out<'a> {
    pub bytes: &'a mut [u8],
    pub at: usize,
}

impl<'a> Out<'a> {
    // One byte.
    pub fn put_byte(&mut self, b: u8)
        ensures { Puts (b ∷ []) self.old self.new }
    {
        if self.at < self.bytes.len() {
            self.bytes[self.at] = b;
            self.at += 1;
        }
    }

    // Some bytes, as they are.
    pub fn put_text(&mut self, text: &[u8])
        ensures { Puts text.now self.old self.new }
    {
        for &b in text {
            self.put_byte(b);
        }
    }

    // A number in decimal.
    pub fn put_decimal(&mut self, n: u64)
        ensures { Puts (decimal_text n) self.old self.new }
    {
        let mut digits = [0u8; 20];
        let k = io::decimal(n, &mut digits);
        self.put_text(&digits[..k]);
    }

    // A number in decimal, with `-` before a negative one.
    pub fn put_signed(&mut self, z: i64)
        ensures { Puts (signed_text z) self.old self.new }
    {
        if z < 0 {
            self.put_byte(b'-');
            self.put_decimal(magnitude(z));
        } else {
            self.put_decimal(magnitude(z));
        }
    }

    // Bytes in hexadecimal, two capital digits each.
    pub fn put_hex(&mut self, bytes: &[u8])
        ensures { Puts (hex_text bytes.now) self.old self.new }
    {
        for &b in bytes {
            self.put_byte(digit(b / 16));
            self.put_byte(digit(b % 16));
        }
    }
}

// A number without its sign.
pub fn magnitude(z: i64) -> u64
    ensures { result ≡ nat_abs z }
{
    z.unsigned_abs()
}

// A digit below 16, in capitals.
fn digit(d: u8) -> u8
    requires { d < 16 }
    ensures { result ≡ capital d }
{
    if d < 10 { b'0' + d } else { b'A' - 10 + d }
}

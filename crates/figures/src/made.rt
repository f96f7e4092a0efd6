// What the figures are run on: bytes, made one part after the other in a lent buffer, and a kind table.
use crate::line;
use crate::line::Numbers;
use layout::Trace;
use text::Out;

#[derive(Drop)]
pub struct Made<'a> {
    out: Out<'a>,
    kinds: [u8; 256],
}

// The kind table whose entries 1 to 4 are the digits of a number; the others are 0.
fn table(entries: u64) -> [u8; 256] {
    let mut table = [0u8; 256];
    table[1] = (entries / 1000 % 10) as u8;
    table[2] = (entries / 100 % 10) as u8;
    table[3] = (entries / 10 % 10) as u8;
    table[4] = (entries % 10) as u8;
    table
}

impl<'a> Made<'a> {
    pub fn new(room: &'a mut [u8]) -> Self {
        Made {
            out: Out { bytes: room, at: 0 },
            kinds: [0; 256],
        }
    }

    // The bytes that are made, and the kind table.
    pub fn trace(&self) -> Trace<'_> {
        Trace {
            kinds: &self.kinds,
            bytes: part(self.out.bytes, self.out.at),
        }
    }

    // What a line makes.
    pub fn make(&mut self, letter: u8, command: &[u8], n: Numbers) {
        match letter {
            b'k' => self.kinds = table(n.c),
            b's' => self.seal(),
            b'+' => self.put_bytes(command),
            b'z' => self.put_zeros(n.c),
            b'h' => self.put_head(n),
            b'a' => self.put_again(n.b as usize, n.c),
            b'l' => self.out.at = n.c as usize,
            _ => {}
        }
    }

    // The header's sum: "over bytes 0 to 2,045, stored low byte first at 2,046".
    fn seal(&mut self) {
        let sum = checksum::header_sum(part(self.out.bytes, 2046));
        let mut place = Out {
            bytes: self.out.bytes,
            at: 2046,
        };
        place.put_text(&sum.to_le_bytes());
    }

    // The bytes that a line has in hexadecimal: " + 5B 5D" has two, and their digits stand at 3 and at 6.
    fn put_bytes(&mut self, command: &[u8]) {
        for i in 0..command.len() / 3 {
            let at = 3 * i + 3;
            let high = layout::u8_at(command, at);
            let low = layout::u8_at(command, at + 1);
            self.out.put_byte(line::byte(high, low));
        }
    }

    // Kept: a place of its own, as in `put_again`. The lent one would be read and written in memory at each byte.
    fn put_zeros(&mut self, count: u64) {
        let at = self.out.at;
        let mut out = Out {
            bytes: self.out.bytes,
            at,
        };
        for _ in 0..count {
            out.put_byte(0);
        }
        self.out.at = out.at;
    }

    // What stands before a record's payload: ticks, properties, length.
    fn put_head(&mut self, n: Numbers) {
        self.out.put_text(&n.a.to_le_bytes());
        self.out.put_byte(line::low8(n.b));
        self.out.put_text(&line::low32(n.c).to_le_bytes());
    }

    // The bytes from so far back, over and over, so many in all.
    fn put_again(&mut self, back: usize, count: u64) {
        let at = self.out.at;
        let mut out = Out {
            bytes: self.out.bytes,
            at,
        };
        for _ in 0..count {
            let from = out.at.wrapping_sub(back);
            let b = layout::u8_at(out.bytes, from);
            out.put_byte(b);
        }
        self.out.at = out.at;
    }
}

// The first bytes.
pub fn part(s: &[u8], len: usize) -> &[u8] {
    &s[..len.min(s.len())]
}

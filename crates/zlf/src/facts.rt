// A line by its text and its facts. Each mark in the text stands for the next fact: `%` for a number in decimal, `@` for a time in UTC, `#` for
// two bytes in hexadecimal.
ghost use Rattle.std.specs.Prelude.{◌≡◌};
ghost use Rattle.text.specs.Put.{Puts};
ghost use Rattle.zlf.specs.Facts.{moment_text, sum_text, shown, facts_of, facts_after, line_text};

use text::Out;

// The facts of a line, in order.
// Kept: three numbers by name. `facts_of`, `facts_after` and `line_text` of specs/Facts.antt, which `put_line` promises, are of them.
#[derive(Clone, Copy)]
pub struct Facts {
    pub first: u64,
    pub second: u64,
    pub third: u64,
}

// What a text without marks takes.
pub const NONE: Facts = Facts {
    first: 0,
    second: 0,
    third: 0,
};

impl Facts {
    pub fn of(first: u64, second: u64, third: u64) -> Facts
        ensures { result ≡ facts_of first second third }
    {
        Facts {
            first,
            second,
            third,
        }
    }

    // The facts that are left after a byte of a text: a mark takes one.
    #[tactic(auto, unfolding(crate::specs::Facts::facts_after))]
    fn after(self, b: u8) -> Facts
        ensures { result ≡ facts_after self b }
    {
        match b {
            b'%' | b'@' | b'#' => Facts::of(self.second, self.third, 0),
            _ => self,
        }
    }
}

// Puts a time, in milliseconds since the Unix epoch.
fn put_moment(out: &mut Out, millis: u64)
    ensures { Puts (moment_text millis) out.old out.new }
{
    match i64::try_from(millis) {
        Ok(time) => names::put_time(out, time),
        Err(_) => out.put_decimal(millis),
    }
}

// Puts a sum's two bytes, the high one first.
fn put_sum(out: &mut Out, sum: u64)
    ensures { Puts (sum_text sum) out.old out.new }
{
    out.put_hex(&[(sum / 256 % 256) as u8, (sum % 256) as u8]);
}

// Puts a byte of a text, or for a mark the fact.
#[tactic(auto, unfolding(crate::specs::Facts::shown))]
fn put_shown(out: &mut Out, b: u8, fact: u64)
    ensures { Puts (shown b fact) out.old out.new }
{
    match b {
        b'%' => out.put_decimal(fact),
        b'@' => put_moment(out, fact),
        b'#' => put_sum(out, fact),
        _ => out.put_byte(b),
    }
}

// Puts a text with its facts.
pub fn put_line(out: &mut Out, text: &[u8], facts: Facts)
    ensures { Puts (line_text text.now facts) out.old out.new }
{
    let mut left = facts;
    for &b in text {
        put_shown(out, b, left.first);
        left = left.after(b);
    }
}

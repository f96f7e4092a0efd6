// Times as people and scripts write them: ISO 8601 in UTC, or milliseconds since the Unix epoch.
#![tactic(auto)]

ghost use Rattle.std.specs.Prelude.{true, ◌≡◌, ◌+◌, ◌-◌, ◌*◌, ◌%◌, ◌≤◌, ◌<◌, length};
ghost use Rattle.written.specs.Written.{iso_text, fits_byte, fits_form, pair_at, date_in, number_in, time_in, after_sign, bare_in, timed_in};

use calendar::Date;

// The Unix epoch, 1 January 1970, as an instant.
pub const UNIX_EPOCH: u64 = 62_135_596_800_000;

// The last digit of a number.
fn digit(n: u64) -> u8
    ensures { result ≡ 48 + n % 10 }
{
    b'0' + (n % 10) as u8
}

// A date and a time of day as ISO 8601 has them, to the millisecond: `2024-05-01T12:34:56.789Z`.
#[tactic(auto, unfolding(crate::specs::Written::iso_text))]
pub fn iso(d: Date) -> [u8; 24]
    ensures { result ≡ iso_text d }
{
    [
        digit(d.year / 1000),
        digit(d.year / 100),
        digit(d.year / 10),
        digit(d.year),
        b'-',
        digit(d.month / 10),
        digit(d.month),
        b'-',
        digit(d.day / 10),
        digit(d.day),
        b'T',
        digit(d.hour / 10),
        digit(d.hour),
        b':',
        digit(d.minute / 10),
        digit(d.minute),
        b':',
        digit(d.second / 10),
        digit(d.second),
        b'.',
        digit(d.milli / 100),
        digit(d.milli / 10),
        digit(d.milli),
        b'Z',
    ]
}

// Whether a text has a form, in which `0` stands for any digit, and every other byte for itself.
#[tactic(auto, using(crate::proofs::Reading::unequal))]
fn fits(text: &[u8], form: &[u8]) -> bool
    ensures { result ≡ fits_form form.now text.now }
{
    text.len() == form.len() && text.iter().zip(form).all(|(c, f)| fits_byte(*c, *f))
}

fn fits_byte(c: u8, f: u8) -> bool
    ensures { result ≡ fits_byte f c }
{
    if f == b'0' {
        c.is_ascii_digit()
    } else {
        c == f
    }
}

// The value of a digit.
fn value(c: u8) -> u64
    ensures value { result ≡ c - 48 }
    ensures bound { result < 208 }
{
    u64::from(c.saturating_sub(b'0'))
}

// The number of the two digits at a place.
fn pair_at(text: &[u8], at: usize) -> u64
    requires { at < 100 }
    ensures value { result ≡ pair_at text.now at }
    ensures bound { result < 3000 }
{
    10 * value(layout::u8_at(text, at)) + value(layout::u8_at(text, at + 1))
}

// Reads a number of from 1 to 17 digits.
#[tactic(auto, using(crate::proofs::Reading::number), unfolding(crate::specs::Written::number_in))]
pub fn number_in(text: &[u8]) -> Option<u64>
    ensures { result ≡ number_in text.now }
{
    if !(1..=17).contains(&text.len()) {
        return None;
    }
    let mut n = 0;
    for c in text {
        n = 10 * n + u64::from(char::from(*c).to_digit(10)?);
    }
    Some(n)
}

// The day at the start of a text, at midnight.
fn day_in(text: &[u8]) -> Date
    ensures { result ≡ date_in text.now 0 0 0 0 }
{
    Date {
        year: 100 * pair_at(text, 0) + pair_at(text, 2),
        month: pair_at(text, 5),
        day: pair_at(text, 8),
        hour: 0,
        minute: 0,
        second: 0,
        milli: 0,
    }
}

// The instant of a date and a time of day to the second, with milliseconds that are given apart.
fn timed(text: &[u8], milli: u64) -> Option<u64>
    ensures { result ≡ timed_in text.now milli }
{
    calendar::instant_of(Date {
        hour: pair_at(text, 11),
        minute: pair_at(text, 14),
        second: pair_at(text, 17),
        milli,
        ..day_in(text)
    })
}

// The milliseconds after a `-`, before the Unix epoch.
#[tactic(auto, unfolding(crate::specs::Written::number_in, crate::specs::Written::after_sign))]
fn before_epoch(text: &[u8]) -> Option<u64>
    ensures { result ≡ after_sign text.now }
{
    UNIX_EPOCH.checked_sub(number_in(text)?)
}

// A number of milliseconds since the Unix epoch, of at most 17 digits and with a sign if need be.
#[tactic(auto, using(crate::proofs::Reading::number_below), unfolding(crate::specs::Written::number_in, crate::specs::Written::bare_in))]
fn bare(text: &[u8]) -> Option<u64>
    ensures { result ≡ bare_in text.now }
{
    if let Some(n) = number_in(text) {
        return Some(UNIX_EPOCH + n);
    }
    before_epoch(text.strip_prefix(b"-")?)
}

// Reads a time: `2024-05-01T12:34:56.789Z`, the same without its milliseconds, a day alone, or milliseconds since the Unix epoch.
#[tactic(auto, unfolding(crate::specs::Written::time_in, crate::specs::Written::day_form, crate::specs::Written::second_form, crate::specs::Written::milli_form))]
pub fn parse(text: &[u8]) -> Option<u64>
    ensures { result ≡ time_in text.now }
{
    if fits(text, b"0000-00-00") {
        return calendar::instant_of(day_in(text));
    }
    if fits(text, b"0000-00-00T00:00:00Z") {
        return timed(text, 0);
    }
    if fits(text, b"0000-00-00T00:00:00.000Z") {
        return timed(
            text,
            10 * pair_at(text, 20) + value(layout::u8_at(text, 22)),
        );
    }
    bare(text)
}

// Dates and times of day of the Gregorian calendar. An instant is a number of milliseconds since
// midnight on 1 January of the year 1, so that it has no sign; the Unix epoch is one of them.
#![tactic(auto)]

ghost use Rattle.std.specs.Prelude.{true, ◌≡◌, ◌+◌, ◌-◌, ◌*◌, ◌≤◌, ◌<◌};
ghost use Rattle.ticks.specs.Ticks.{days_of};
ghost use Rattle.calendar.specs.Calendar.{years_gone, months_gone, days_before, leap_after, date_of, length_of, is_day, is_time, days_to, instant_of};

// A date and a time of day, in UTC. Months and days count from 1.
#[derive(Clone, Copy, Debug, PartialEq, Eq)]
pub struct Date {
    pub year: u64,
    pub month: u64,
    pub day: u64,
    pub hour: u64,
    pub minute: u64,
    pub second: u64,
    pub milli: u64,
}

const PER_DAY: u64 = 86_400_000;

// The days in 400 years.
const CYCLE: u64 = 146_097;

// The days before each month, and in all, of a year that is no leap year.
const STARTS: [u64; 13] = [0, 31, 59, 90, 120, 151, 181, 212, 243, 273, 304, 334, 365];

// The days from 1 January of the year 1 to the new year after n years.
fn days_of(n: u64) -> u64
    requires { n < 1125899906842624 }
    ensures { result ≡ days_of n }
{
    365 * n + n / 4 - n / 100 + n / 400
}

// The years that have gone by on a day: a guess from the mean length of a year, at most the answer, and up from there.
#[tactic(auto, using(crate::proofs::Years::at_least, crate::proofs::Years::years_are))]
fn years_gone(days: u64) -> u64
    requires { days < 1099511627776 }
    ensures value { result ≡ years_gone days }
    ensures bound { result ≤ days }
    ensures gone { days_of result ≤ days }
    ensures to_come { days < days_of (result + 1) }
{
    let mut n = (days * 400 / CYCLE).saturating_sub(1);

    // Kept: a search upward from a guess counts no range; a range's `find` would need an end, and a value for none found.
    while days_of(n + 1) <= days {
        n += 1;
    }
    n
}

// Whether the year after n years has 366 days.
fn leap_after(n: u64) -> bool
    requires { n < 1125899906842623 }
    ensures { result ≡ leap_after n }
{
    days_of(n + 1) == days_of(n) + 366
}

// The days of the first months of a year.
fn days_before(leap: bool, months: usize) -> u64
    requires { months ≤ 12 }
    ensures value { result ≡ days_before leap months }
    ensures bound { result ≤ 366 }
{
    STARTS[months] + u64::from(leap && 2 <= months)
}

// The months that have gone by on a day of the year, counted from 0.
#[tactic(auto, using(crate::proofs::Months::none_before, crate::proofs::Months::month_on, crate::proofs::Searching::here), unfolding(crate::specs::Calendar::months_gone))]
fn months_gone(leap: bool, day: u64) -> usize
    ensures value { result ≡ months_gone leap day }
    ensures bound { result ≤ 11 }
    ensures gone { days_before leap result ≤ day }
{
    for m in 0..11 {
        if day < days_before(leap, m + 1) {
            return m;
        }
    }
    11
}

// The date and the time of day at an instant.
#[tactic(auto, unfolding(crate::specs::Calendar::dated))]
pub fn date_of(instant: u64) -> Date
    ensures { result ≡ date_of instant }
{
    let days = instant / PER_DAY;
    let rest = instant % PER_DAY;
    let years = years_gone(days);
    let leap = leap_after(years);
    let day = days - days_of(years);
    let months = months_gone(leap, day);
    Date {
        year: years + 1,
        month: months as u64 + 1,
        day: day - days_before(leap, months) + 1,
        hour: rest / 3_600_000,
        minute: rest / 60_000 % 60,
        second: rest / 1000 % 60,
        milli: rest % 1000,
    }
}

// How many days a month has.
#[tactic(auto, using(crate::proofs::Months::month_length))]
fn length_of(year: u64, month: u64) -> u64
    requires { (1 ≤ year) × (year ≤ 9999) × (1 ≤ month) × (month ≤ 12) }
    ensures value { result ≡ length_of year month }
    ensures bound { result ≤ 366 }
{
    let leap = leap_after(year - 1);
    let months = month as usize;
    days_before(leap, months) - days_before(leap, months - 1)
}

impl Date {
    // Whether the calendar has the day, in a year that four digits write.
    fn is_day(self) -> bool
        ensures value { result ≡ is_day self.year self.month self.day }
        ensures bounds { result ≡ true → (1 ≤ self.year) × (self.year ≤ 9999) × (1 ≤ self.month) × (self.month ≤ 12) × (1 ≤ self.day) × (self.day ≤ 366) }
    {
        (1..=9999).contains(&self.year)
            && (1..=12).contains(&self.month)
            && (1..=length_of(self.year, self.month)).contains(&self.day)
    }

    // Whether a day has the time.
    fn is_time(self) -> bool
        ensures value { result ≡ is_time self.hour self.minute self.second self.milli }
        ensures bounds { result ≡ true → (self.hour < 24) × (self.minute < 60) × (self.second < 60) × (self.milli < 1000) }
    {
        self.hour < 24 && self.minute < 60 && self.second < 60 && self.milli < 1000
    }

    // The days from 1 January of the year 1 to the day.
    fn days(self) -> u64
        requires { (1 ≤ self.year) × (self.year ≤ 9999) × (1 ≤ self.month) × (self.month ≤ 12) × (1 ≤ self.day) × (self.day ≤ 366) }
        ensures value { result ≡ days_to self.year self.month self.day }
        ensures bound { result ≤ 4000000 }
    {
        let leap = leap_after(self.year - 1);
        let months = (self.month - 1) as usize;
        days_of(self.year - 1) + days_before(leap, months) + (self.day - 1)
    }

    // The milliseconds from midnight to the time of day.
    fn millis(self) -> u64
        requires { (self.hour < 24) × (self.minute < 60) × (self.second < 60) × (self.milli < 1000) }
        ensures value { result ≡ 3600000 * self.hour + 60000 * self.minute + 1000 * self.second + self.milli }
        ensures bound { result < 86400000 }
    {
        3_600_000 * self.hour + 60_000 * self.minute + 1000 * self.second + self.milli
    }
}

// The instant of a date and a time of day; none where there is no such day or time of day, or a year that four digits do not write.
#[tactic(auto, unfolding(crate::specs::Calendar::instant_of))]
pub fn instant_of(d: Date) -> Option<u64>
    ensures { result ≡ instant_of d }
{
    if !d.is_day() || !d.is_time() {
        return None;
    }
    Some(PER_DAY * d.days() + d.millis())
}

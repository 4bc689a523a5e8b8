// The days of a year, and the date of each.
ghost use Rattle.std.specs.Prelude.{◌≡◌, true, ◌<◌};
ghost use Rattle.clock.specs.Clock.{leap, days_in, has_day};
ghost use Rattle.clock.specs.Calendar.{calendar, entry_of, date_of};

use crate::MonthDay;
use crate::table::CALENDAR;

fn is_leap(year: u32) -> bool
    ensures { result ≡ leap year }
{
    year % 4 == 0
}

// How many days a year has.
pub(crate) fn days_in(year: u32) -> u32
    ensures { result ≡ days_in year }
{
    if is_leap(year) { 366 } else { 365 }
}

// Whether a day exists in a year.
#[tactic(auto, unfolding(crate::specs::Clock::has_day))]
pub(crate) fn has_day(year: u32, day: u32) -> bool
    ensures { result ≡ has_day year day }
{
    1 <= day && day <= days_in(year)
}

// Entry i of the calendar.
fn entry(i: usize) -> u16
    requires { i < 366 }
    ensures { result ≡ calendar i }
{
    CALENDAR[i]
}

// The entry of a day: in years that are no leap years the next from day 60 on.
fn entry_of(year: u32, day: u32) -> usize
    ensures { result ≡ entry_of year day }
{
    let i = day as usize;
    if is_leap(year) || i < 60 {
        i.saturating_sub(1)
    } else {
        i
    }
}

// Month and day of a day that the year has. One look at the calendar.
pub(crate) fn date_in(year: u32, day: u32) -> MonthDay
    requires { has_day year day ≡ true }
    ensures { result ≡ date_of year day }
{
    let x = u32::from(entry(entry_of(year, day)));
    MonthDay {
        month: x / 32,
        day: x % 32,
    }
}

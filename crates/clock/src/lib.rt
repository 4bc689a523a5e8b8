// The clock, the calendar, and when a header was issued, runs out and is live.
#![tactic(auto)]

ghost use Rattle.std.specs.Prelude.{◌≡◌, true, ◌<◌};
ghost use Rattle.clock.specs.Clock.{has_day, is_clock};
ghost use Rattle.clock.specs.Lifetime.{minute_of, phase_of, time_in, stamp_of, times_of};
ghost use Rattle.clock.specs.Promise.{CheckPromise, DatePromise, LifetimePromise, TimesPromise};
ghost use Rattle.clock.specs.Steps.{Fit, Issued, OfYear, Minute};

use calendar::{date_in, days_in, has_day};
use refusals::Refusal;

mod calendar;
mod table;

// The service's clock; also any day, hour and minute of a year.
#[derive(Clone, Copy)]
pub struct Clock {
    pub year: u32,
    pub day: u32,
    pub hour: u32,
    pub minute: u32,
}

#[derive(Clone, Copy)]
pub struct MonthDay {
    pub month: u32,
    pub day: u32,
}

// Month and day, hour and minute.
#[derive(Clone, Copy)]
pub struct Stamp {
    pub month: u32,
    pub day: u32,
    pub hour: u32,
    pub minute: u32,
}

#[derive(Clone, Copy)]
pub enum Phase {
    Early,
    Live,
    Expired,
}

// When a header was issued and runs out, and what it is now.
#[derive(Clone, Copy)]
pub struct Times {
    pub issued: Stamp,
    pub until: Stamp,
    pub phase: Phase,
}

// Whether a clock is in range.
#[tactic(auto, unfolding(crate::specs::Clock::is_clock))]
fn is_clock(at: Clock) -> bool
    ensures { result ≡ is_clock at }
{
    1996 <= at.year
        && at.year <= 2099
        && has_day(at.year, at.day)
        && at.hour <= 23
        && at.minute <= 59
}

// The issue that a header's fields say at a clock, whose year it is taken to be of: or 15, 9, 10, 14.
fn issued(at: Clock, day: u32, hour: u32, minute: u32, duration: u32) -> Result<Clock, Refusal>
    ensures { Issued at day hour minute duration result }
{
    check(at)?;
    if !header::is_duration(duration) {
        return Err(Refusal::BadDuration);
    }
    if !header::is_issue(day, hour, minute) {
        return Err(Refusal::BadIssue);
    }
    if !has_day(at.year, day) {
        return Err(Refusal::NoSuchDay);
    }
    Ok(Clock {
        year: at.year,
        day,
        hour,
        minute,
    })
}

// Minutes from the start of the year.
fn minute_of(t: Clock) -> u32
    requires { OfYear t.day t.hour t.minute }
    ensures { Minute t.day t.hour t.minute result }
{
    (t.day - 1) * 1440 + (t.hour * 60 + t.minute)
}

// Whether a header is early, live or expired, all counted from one start. Differences, so that no sum runs over.
#[tactic(auto, unfolding(crate::specs::Lifetime::phase_of))]
fn phase_of(issue: u32, duration: u32, at: u32) -> Phase
    ensures { result ≡ phase_of issue duration at }
{
    if at < issue {
        if 5 < issue - at {
            return Phase::Early;
        }
        return Phase::Live;
    }
    if duration <= at - issue {
        return Phase::Expired;
    }
    Phase::Live
}

// The phase at a clock of a header issued in this minute of the clock's year.
fn phase_at(at: Clock, issue: u32, duration: u32) -> Phase
    requires { is_clock at ≡ true }
    ensures { result ≡ phase_of issue duration (minute_of at.day at.hour at.minute) }
{
    phase_of(issue, duration, minute_of(at))
}

// Day, hour and minute of the minutes from the start of a year, which may fall in the following year.
fn time_in(year: u32, minutes: u32) -> Clock
    requires { year < 4000 }
    ensures { result ≡ time_in year minutes }
{
    let day = minutes / 1440 + 1;
    let hour = minutes / 60 % 24;
    let minute = minutes % 60;
    let days = days_in(year);
    if days < day {
        return Clock {
            year: year + 1,
            day: day - days,
            hour,
            minute,
        };
    }
    Clock {
        year,
        day,
        hour,
        minute,
    }
}

// Month and day, hour and minute of a time of a year.
fn stamp_of(t: Clock) -> Stamp
    requires { has_day t.year t.day ≡ true }
    ensures { result ≡ stamp_of t }
{
    let date = date_in(t.year, t.day);
    Stamp {
        month: date.month,
        day: date.day,
        hour: t.hour,
        minute: t.minute,
    }
}

// Month and day, hour and minute of the minutes from the start of a year.
fn stamp_in(year: u32, minutes: u32) -> Stamp
    requires { (year < 4000) × (minutes < 1051200) }
    ensures { result ≡ stamp_of (time_in year minutes) }
{
    stamp_of(time_in(year, minutes))
}

// The times of a header for which nothing is refused. Its minute is counted once, for the end and for the phase.
fn times_at(at: Clock, issue: Clock, duration: u32) -> Times
    requires { Fit at issue.day issue.hour issue.minute duration × (issue.year ≡ at.year) }
    ensures { result ≡ times_of at issue.day issue.hour issue.minute duration }
{
    let start = minute_of(issue);
    Times {
        issued: stamp_of(issue),
        until: stamp_in(issue.year, start + duration),
        phase: phase_at(at, start, duration),
    }
}

// Whether a clock is in range: or 15.
#[tactic(auto, unfolding(crate::specs::Answers::clock_says))]
pub fn check(at: Clock) -> Result<(), Refusal>
    ensures { CheckPromise at result }
{
    if is_clock(at) {
        return Ok(());
    }
    Err(Refusal::BadClock)
}

// Month and day of a day of a year: or 14, where the year lacks it.
#[tactic(auto, unfolding(crate::specs::Answers::date_says))]
pub fn date_of(year: u32, day: u32) -> Result<MonthDay, Refusal>
    ensures { DatePromise year day result }
{
    if has_day(year, day) {
        return Ok(date_in(year, day));
    }
    Err(Refusal::NoSuchDay)
}

// Whether a header is early, live or expired at a clock: or 15, 9, 10, 14. The issue's day, hour and minute stay three parameters, as
// `LifetimePromise` and `TimesPromise` take them.
pub fn lifetime(
    at: Clock,
    day: u32,
    hour: u32,
    minute: u32,
    duration: u32,
) -> Result<Phase, Refusal>
    ensures { LifetimePromise at day hour minute duration result }
{
    let issue = issued(at, day, hour, minute, duration)?;
    Ok(phase_at(at, minute_of(issue), duration))
}

// When a header was issued and runs out, and its phase at a clock: or 15, 9, 10, 14.
pub fn times_of(
    at: Clock,
    day: u32,
    hour: u32,
    minute: u32,
    duration: u32,
) -> Result<Times, Refusal>
    ensures { TimesPromise at day hour minute duration result }
{
    let issue = issued(at, day, hour, minute, duration)?;
    Ok(times_at(at, issue, duration))
}

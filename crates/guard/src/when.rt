// A moment, as it is written into a mark: date and time of day, in UTC.
use std::fmt;
use std::time::SystemTime;

#[derive(Clone, Copy)]
pub struct Moment {
    // Seconds since 1970 began; None where the clock could not be read.
    seconds: Option<u64>,
}

// The moment it is.
pub fn now(rt: &HostRuntime) -> Moment {
    Moment {
        seconds: seconds_now(rt),
    }
}

fn seconds_now(rt: &HostRuntime) -> Option<u64> {
    let time = SystemTime::now(rt).ok()?;
    let span = time.duration_since(SystemTime::UNIX_EPOCH).ok()?;
    Some(span.as_secs())
}

// No clock shows a later day.
const MOST_DAYS: u64 = 1000000000;

#[derive(Clone, Copy)]
struct Date {
    year: u64,
    month: u64,
    day: u64,
}

// The date of a day, counted from 1 January 1970. Years are taken to begin in March, so that the day that
// is only there in leap years is a year's last.
fn date_of(days: u64) -> Date {
    let from_0000 = days.min(MOST_DAYS) + 719468;
    let era = from_0000 / 146097;
    let day_of_era = from_0000 % 146097;
    let leap_days = (day_of_era / 36524).saturating_sub(day_of_era / 146096);
    let year_of_era = (day_of_era + leap_days).saturating_sub(day_of_era / 1460) / 365;
    let before = 365 * year_of_era + year_of_era / 4 - year_of_era / 100;
    let day_of_year = day_of_era.saturating_sub(before);
    let month = (5 * day_of_year + 2) / 153;
    let day = day_of_year.saturating_sub((153 * month + 2) / 5) + 1;
    if month < 10 {
        return Date {
            year: 400 * era + year_of_era,
            month: month + 3,
            day,
        };
    }
    Date {
        year: 400 * era + year_of_era + 1,
        month: month - 9,
        day,
    }
}

impl fmt::Display for Moment {
    fn fmt<W: fmt::Write>(&self, f: &mut fmt::Formatter<W>) -> fmt::Result {
        let Some(seconds) = self.seconds else {
            return f.write_str("an unknown moment");
        };
        let date = date_of(seconds / 86400);
        let year = date.year;
        let month = date.month;
        let day = date.day;
        let hour = seconds / 3600 % 24;
        let minute = seconds / 60 % 60;
        let second = seconds % 60;
        write!(
            f,
            "{year}-{month:02}-{day:02} {hour:02}:{minute:02}:{second:02} UTC"
        )
    }
}

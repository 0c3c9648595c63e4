// Dates of the Gregorian calendar from 1900-01-01 to 2199-12-31 and document 01's day numbers of them, days since 1970-01-01.
#![tactic(auto)]

ghost use Rattle.std.specs.Prelude.{◌≡◌, true, suc, ◌+◌, ◌-◌, ◌≤◌, ◌<◌};
ghost use Rattle.std.specs.Prelude.{Some};
ghost use Rattle.calendar.specs.Gregorian.{first_year, total, leap, year_days, month_days, day_number};
ghost use Rattle.calendar.specs.Answers.{first_day, last_day, meaning, within, found, weekday_of, DateOf};

use wire::{HALF4, Placed};

// Days since 1899-12-25, the Monday before 1900-01-01: nothing in the domain is negative, and the weekday is a remainder.
#[derive(Clone, Copy)]
pub struct Day(pub u32);

#[derive(Clone, Copy)]
pub struct Date {
    pub year: u32,
    pub month: u32,
    pub day: u32,
}

const FIRST_YEAR: u32 = 1900;

const LAST_YEAR: u32 = 2199;

// 1900-01-01 and 2199-12-31, as Days.
pub const FIRST_DAY: u32 = 7;

pub const LAST_DAY: u32 = 109_579;

// Day 0 as a placed day number.
pub const DAY_ZERO: u32 = HALF4 - 25_574;

// The Day of 1 January, of each year from 1900 to 2200.
const YEAR_STARTS: [u32; 301] = [
    7, 372, 737, 1102, 1467, 1833, 2198, 2563, 2928, 3294, 3659, 4024, 4389, 4755, 5120, 5485,
    5850, 6216, 6581, 6946, 7311, 7677, 8042, 8407, 8772, 9138, 9503, 9868, 10233, 10599, 10964,
    11329, 11694, 12060, 12425, 12790, 13155, 13521, 13886, 14251, 14616, 14982, 15347, 15712,
    16077, 16443, 16808, 17173, 17538, 17904, 18269, 18634, 18999, 19365, 19730, 20095, 20460,
    20826, 21191, 21556, 21921, 22287, 22652, 23017, 23382, 23748, 24113, 24478, 24843, 25209,
    25574, 25939, 26304, 26670, 27035, 27400, 27765, 28131, 28496, 28861, 29226, 29592, 29957,
    30322, 30687, 31053, 31418, 31783, 32148, 32514, 32879, 33244, 33609, 33975, 34340, 34705,
    35070, 35436, 35801, 36166, 36531, 36897, 37262, 37627, 37992, 38358, 38723, 39088, 39453,
    39819, 40184, 40549, 40914, 41280, 41645, 42010, 42375, 42741, 43106, 43471, 43836, 44202,
    44567, 44932, 45297, 45663, 46028, 46393, 46758, 47124, 47489, 47854, 48219, 48585, 48950,
    49315, 49680, 50046, 50411, 50776, 51141, 51507, 51872, 52237, 52602, 52968, 53333, 53698,
    54063, 54429, 54794, 55159, 55524, 55890, 56255, 56620, 56985, 57351, 57716, 58081, 58446,
    58812, 59177, 59542, 59907, 60273, 60638, 61003, 61368, 61734, 62099, 62464, 62829, 63195,
    63560, 63925, 64290, 64656, 65021, 65386, 65751, 66117, 66482, 66847, 67212, 67578, 67943,
    68308, 68673, 69039, 69404, 69769, 70134, 70500, 70865, 71230, 71595, 71961, 72326, 72691,
    73056, 73421, 73786, 74151, 74516, 74882, 75247, 75612, 75977, 76343, 76708, 77073, 77438,
    77804, 78169, 78534, 78899, 79265, 79630, 79995, 80360, 80726, 81091, 81456, 81821, 82187,
    82552, 82917, 83282, 83648, 84013, 84378, 84743, 85109, 85474, 85839, 86204, 86570, 86935,
    87300, 87665, 88031, 88396, 88761, 89126, 89492, 89857, 90222, 90587, 90953, 91318, 91683,
    92048, 92414, 92779, 93144, 93509, 93875, 94240, 94605, 94970, 95336, 95701, 96066, 96431,
    96797, 97162, 97527, 97892, 98258, 98623, 98988, 99353, 99719, 100084, 100449, 100814, 101180,
    101545, 101910, 102275, 102641, 103006, 103371, 103736, 104102, 104467, 104832, 105197, 105563,
    105928, 106293, 106658, 107024, 107389, 107754, 108119, 108485, 108850, 109215, 109580,
];

// The days of the months 1 to 12; there is no month 0.
const LEAP_MONTHS: [u32; 13] = [0, 31, 29, 31, 30, 31, 30, 31, 31, 30, 31, 30, 31];

const COMMON_MONTHS: [u32; 13] = [0, 31, 28, 31, 30, 31, 30, 31, 31, 30, 31, 30, 31];

fn is_leap(year: u32) -> bool
    ensures { result ≡ leap year }
{
    if year % 4 != 0 {
        return false;
    }
    if year % 100 != 0 {
        return true;
    }
    year % 400 == 0
}

// The Day of 1 January, k years after 1900.
fn year_start(k: usize) -> u32
    requires { k ≤ 300 }
    ensures { (result ≡ first_day + total year_days first_year k) × (result ≤ suc last_day) }
{
    YEAR_STARTS[k]
}

fn month_days(leap_year: bool, month: u32) -> u32
    ensures { (result ≡ month_days leap_year month) × (result ≤ 31) }
{
    let m = month as usize;
    if 12 < m {
        return 0;
    }
    if leap_year {
        LEAP_MONTHS[m]
    } else {
        COMMON_MONTHS[m]
    }
}

// The days of a year's months before a month.
fn month_start(leap_year: bool, month: u32) -> u32
    requires { (1 ≤ month) × (month ≤ 13) }
    ensures { (result ≡ total (month_days leap_year) 1 (month - 1)) × (result ≤ 372) }
{
    let mut days: u32 = 0;
    for m in 1..month {
        days += month_days(leap_year, m);
    }
    days
}

// How many years after 1900 a day lies.
fn year_of(day: u32) -> usize
    requires { (first_day ≤ day) × (day ≤ last_day) }
    ensures { (result < 300) × (first_day + total year_days first_year result ≤ day) × (day < first_day + total year_days first_year (suc result)) }
{
    // In 300 years of 365 or 366 days each this is the year, or the one before it.
    let guess = ((day - FIRST_DAY) / 366) as usize;
    if year_start(guess + 1) <= day {
        guess + 1
    } else {
        guess
    }
}

// The month that a day of a year lies in.
fn month_of(leap_year: bool, day: u32) -> u32
    requires { day < total (month_days leap_year) 1 12 }
    ensures { (1 ≤ result) × (result ≤ 12) × (total (month_days leap_year) 1 (result - 1) ≤ day) × (day < total (month_days leap_year) 1 result) }
{
    for month in 1..12 {
        if day < month_start(leap_year, month + 1) {
            return month;
        }
    }
    12
}

// The Day of a date.
fn day_on(year: u32, month: u32, day: u32) -> Option<Day>
    ensures { found result ≡ day_number year month day }
{
    if year < FIRST_YEAR {
        return None;
    }
    if LAST_YEAR < year {
        return None;
    }
    if day < 1 {
        return None;
    }
    let leap_year = is_leap(year);
    if month_days(leap_year, month) < day {
        return None;
    }
    let k = (year - FIRST_YEAR) as usize;
    Some(Day(year_start(k) + month_start(leap_year, month) + (day - 1)))
}

// The date on a Day from 1900-01-01 to 2199-12-31.
fn date_on(d: Day) -> Date
    requires { (first_day ≤ d.0) × (d.0 ≤ last_day) }
    ensures { day_number result.year result.month result.day ≡ Some (meaning d.0) }
{
    let n = d.0;
    let k = year_of(n);
    let rest = n - year_start(k);
    let year = FIRST_YEAR + (k as u32);
    let leap_year = is_leap(year);
    let month = month_of(leap_year, rest);
    let before = month_start(leap_year, month);
    Date {
        year,
        month,
        day: rest - before + 1,
    }
}

// The Day that a day number means, if it is one of document 01's.
pub fn day_of(number: i32) -> Option<Day>
    ensures { found result ≡ within number }
{
    let placed = Placed::from(number).0;
    if placed < DAY_ZERO + FIRST_DAY {
        return None;
    }
    if DAY_ZERO + LAST_DAY < placed {
        return None;
    }
    Some(Day(placed - DAY_ZERO))
}

// The day number of a Day, if it is one of document 01's.
pub fn number_of(d: Day) -> Option<i32>
    ensures { result ≡ within (meaning d.0) }
{
    let n = d.0;
    if n < FIRST_DAY {
        return None;
    }
    if LAST_DAY < n {
        return None;
    }
    Some(i32::from(Placed(n + DAY_ZERO)))
}

// The day number of a year, month and day, if they are a date.
pub fn day_number(year: u32, month: u32, day: u32) -> Option<i32>
    ensures { result ≡ day_number year month day }
{
    number_of(day_on(year, month, day)?)
}

// The date that has a day number, if there is one.
pub fn date_of(number: i32) -> Option<Date>
    ensures { DateOf number result }
{
    let day = day_of(number)?;
    Some(date_on(day))
}

// The day of the week, Monday 0 to Sunday 6.
pub fn weekday(d: Day) -> u32
    ensures { result ≡ weekday_of d.0 }
{
    d.0 % 7
}

//! The numbers that a stamp's text says, read from the front.

ghost use Rattle.std.specs.Prelude.{◌≡◌, ◌<◌, ◌≤◌, option_map, IfSome};
ghost use Rattle.proof_options.specs.Internal.Reading.{seen, digit_from, two_from, four_from, two_after, day_from, clock_after, run_from, fraction_from, at_end, shift_from, written_from};

/// Year, month and day, as they are written.
#[derive(Clone, Copy)]
pub(crate) struct Day {
    pub year: u16,
    pub month: u8,
    pub day: u8,
}

/// Hours and minutes, as they are written.
#[derive(Clone, Copy)]
pub(crate) struct Clock {
    pub hour: u8,
    pub minute: u8,
}

/// How far the clock is from UTC.
#[derive(Clone, Copy)]
pub(crate) enum Shift {
    Utc,
    Ahead(Clock),
    Behind(Clock),
}

/// What a stamp's text says, whether there is such a date and time or not.
#[derive(Clone, Copy)]
pub(crate) struct Written {
    pub day: Day,
    pub clock: Clock,
    pub second: u8,
    pub nanosecond: u32,
    pub shift: Shift,
}

fn read_digit(bytes: &[u8]) -> Option<(u8, &[u8])>
    ensures read { option_map seen result ≡ digit_from bytes.now }
    ensures small { IfSome result (λ r. r.0 < 10) }
{
    match bytes {
        [first, rest @ ..] => {
            if 48 <= *first && *first <= 57 {
                Some((*first - 48, rest))
            } else {
                None
            }
        }
        [] => None,
    }
}

fn read_two(bytes: &[u8]) -> Option<(u8, &[u8])>
    ensures read { option_map seen result ≡ two_from bytes.now }
    ensures small { IfSome result (λ r. r.0 < 100) }
{
    let (tens, rest) = read_digit(bytes)?;
    let (ones, rest) = read_digit(rest)?;
    Some((10 * tens + ones, rest))
}

fn read_four(bytes: &[u8]) -> Option<(u16, &[u8])>
    ensures read { option_map seen result ≡ four_from bytes.now }
    ensures small { IfSome result (λ r. r.0 < 10_000) }
{
    let (high, rest) = read_two(bytes)?;
    let (low, rest) = read_two(rest)?;
    Some((100 * u16::from(high) + u16::from(low), rest))
}

fn read_two_after(bytes: &[u8], mark: u8) -> Option<(u8, &[u8])>
    ensures read { option_map seen result ≡ two_after mark bytes.now }
    ensures small { IfSome result (λ r. r.0 < 100) }
{
    match bytes {
        [first, rest @ ..] => { if *first == mark { read_two(rest) } else { None } }
        [] => None,
    }
}

/// `YYYY-MM-DD`.
fn read_day(bytes: &[u8]) -> Option<(Day, &[u8])>
    ensures { option_map seen result ≡ day_from bytes.now }
{
    let (year, rest) = read_four(bytes)?;
    let (month, rest) = read_two_after(rest, b'-')?;
    let (day, rest) = read_two_after(rest, b'-')?;
    Some((Day { year, month, day }, rest))
}

/// The mark and `hh:mm`.
fn read_clock(bytes: &[u8], mark: u8) -> Option<(Clock, &[u8])>
    ensures { option_map seen result ≡ clock_after mark bytes.now }
{
    let (hour, rest) = read_two_after(bytes, mark)?;
    let (minute, rest) = read_two_after(rest, b':')?;
    Some((Clock { hour, minute }, rest))
}

/// The nanoseconds of one to nine digits.
#[tactic(auto, using(crate::proofs::Runs::run_steps))]
fn read_run(bytes: &[u8]) -> Option<(u32, &[u8])>
    ensures { option_map seen result ≡ run_from bytes.now }
{
    let mut rest = bytes;
    let mut count: u8 = 0;
    let mut unit: u32 = 100_000_000;
    let mut sum: u32 = 0;
    while let Some((digit, later)) = read_digit(rest) {
        if count == 9 {
            return None;
        }
        count += 1;
        sum += unit * u32::from(digit);
        unit /= 10;
        rest = later;
    }
    if count == 0 { None } else { Some((sum, rest)) }
}

/// The nanoseconds of a dot and digits, or none where there is no dot.
fn read_fraction(bytes: &[u8]) -> Option<(u32, &[u8])>
    ensures { option_map seen result ≡ fraction_from bytes.now }
{
    match bytes {
        [first, rest @ ..] => {
            if *first == b'.' {
                read_run(rest)
            } else {
                Some((0, bytes))
            }
        }
        [] => Some((0, bytes)),
    }
}

/// The mark and `hh:mm`, and nothing behind them.
fn read_last_clock(bytes: &[u8], mark: u8) -> Option<Clock>
    ensures { result ≡ at_end (clock_after mark bytes.now) }
{
    match read_clock(bytes, mark)? {
        (clock, []) => Some(clock),
        _ => None,
    }
}

/// `Z`, or a sign and `hh:mm`.
fn read_shift(bytes: &[u8]) -> Option<Shift>
    ensures { result ≡ shift_from bytes.now }
{
    match bytes {
        [first, rest @ ..] => {
            if *first == b'Z' {
                if rest.is_empty() {
                    Some(Shift::Utc)
                } else {
                    None
                }
            } else if *first == b'+' {
                Some(Shift::Ahead(read_last_clock(bytes, b'+')?))
            } else {
                Some(Shift::Behind(read_last_clock(bytes, b'-')?))
            }
        }
        [] => None,
    }
}

/// What the text of a stamp says.
pub(crate) fn read_written(bytes: &[u8]) -> Option<Written>
    ensures { result ≡ written_from bytes.now }
{
    let (day, rest) = read_day(bytes)?;
    let (clock, rest) = read_clock(rest, b'T')?;
    let (second, rest) = read_two_after(rest, b':')?;
    let (nanosecond, rest) = read_fraction(rest)?;
    let shift = read_shift(rest)?;
    Some(Written {
        day,
        clock,
        second,
        nanosecond,
        shift,
    })
}

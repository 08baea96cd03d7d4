//! The names of archives.

ghost use Rattle.std.specs.Prelude.{◌≡◌, ◌++◌, ◌<◌, ◌/◌, ◌%◌, OnOk, IfOk};
ghost use Rattle.std.specs.String.{string_bytes};
ghost use Rattle.jiff_core.specs.Time.{time_seconds};
ghost use Rattle.tr_chunk.specs.ArchiveName.{day_at, clock_seconds, two_digits, date_text, time_text, offset_text, stamp_text, archive_name_text};
ghost use Rattle.tr_chunk.specs.Civil.{day_of};

use jiff::Timestamp;
use jiff::civil::{Date, DateTime, Time};
use jiff::tz::Offset;
use std::alloc::{AllocError, Allocator};
use tr_terms::{Moment, OffsetMinutes};

/// The bytes of the longest name: 20 for each of the two moments, a dash after each, and a number of up to 20 digits.
const BYTES: usize = 62;

/// What a clock at the offset shows at the moment's whole seconds.
fn clock_of(moment: Moment, offset: OffsetMinutes) -> DateTime
    ensures date { day_of result.date ≡ day_at (clock_seconds moment offset / 86400) }
    ensures time { time_seconds result.time ≡ clock_seconds moment offset % 86400 }
{
    let second = (moment.get() / 1_000_000_000) as i64;
    match (
        Timestamp::from_second(second),
        Offset::from_seconds(offset.get() * 60),
    ) {
        (Ok(timestamp), Ok(ahead)) => ahead.to_datetime(timestamp),
        _ => unreachable!(),
    }
}

/// Adds the two digits of a number below 100.
fn push_two<A: Allocator>(text: &mut String<A>, n: u32) -> Result<(), AllocError>
    requires { n < 100 }
    ensures { OnOk result (string_bytes text.new ≡ string_bytes text.old ++ two_digits n) }
{
    write!(text, "{n:02}")
}

/// Adds four digits of the year, two each of month and day.
fn push_date<A: Allocator>(text: &mut String<A>, date: Date) -> Result<(), AllocError>
    ensures { OnOk result (string_bytes text.new ≡ string_bytes text.old ++ date_text (day_of date)) }
{
    let year = date.year().unsigned_abs() as u32;
    push_two(text, year / 100)?;
    push_two(text, year % 100)?;
    push_two(text, date.month() as u32)?;
    push_two(text, date.day() as u32)
}

/// Adds two digits each of hour, minute and second.
fn push_time<A: Allocator>(text: &mut String<A>, time: Time) -> Result<(), AllocError>
    ensures { OnOk result (string_bytes text.new ≡ string_bytes text.old ++ time_text (time_seconds time)) }
{
    push_two(text, time.hour() as u32)?;
    push_two(text, time.minute() as u32)?;
    push_two(text, time.second() as u32)
}

/// Adds the offset's sign, and two digits each of hours and minutes.
fn push_offset<A: Allocator>(text: &mut String<A>, offset: OffsetMinutes) -> Result<(), AllocError>
    ensures { OnOk result (string_bytes text.new ≡ string_bytes text.old ++ offset_text offset) }
{
    text.push_str(if offset.get() < 0 { "-" } else { "+" })?;
    let minutes = offset.get().unsigned_abs();
    push_two(text, minutes / 60)?;
    push_two(text, minutes % 60)
}

/// Adds the date and time that a clock at the offset shows at the moment, and the offset.
fn push_stamp<A: Allocator>(
    text: &mut String<A>,
    moment: Moment,
    offset: OffsetMinutes,
) -> Result<(), AllocError>
    ensures { OnOk result (string_bytes text.new ≡ string_bytes text.old ++ stamp_text moment offset) }
{
    let clock = clock_of(moment, offset);
    push_date(text, clock.date())?;
    text.push_str("T")?;
    push_time(text, clock.time())?;
    push_offset(text, offset)
}

/// The name of the archive of chunk `id`, as `20231114T171320-0500-20231114T171420-0500-0`: when the chunk began and
/// ended, each as the civil date and time of the moment's whole seconds (rounded down) at the offset, and then its id.
/// Fails if an allocation fails.
pub fn archive_name<A: Allocator>(
    alloc: A,
    begin: Moment,
    end: Moment,
    offset: OffsetMinutes,
    id: u64,
) -> Result<String<A>, AllocError>
    ensures { IfOk result (λ s. string_bytes s ≡ archive_name_text begin end offset id) }
{
    let mut text = String::with_capacity(alloc, BYTES)?;
    push_stamp(&mut text, begin, offset)?;
    text.push_str("-")?;
    push_stamp(&mut text, end, offset)?;
    write!(text, "-{id}")?;
    Ok(text)
}

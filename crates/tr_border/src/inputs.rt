//! What numbers and bytes from outside stand for.

ghost use Rattle.std.specs.Prelude.{◌≡◌};
ghost use Rattle.tr_border.specs.Inputs.{config_of, mode_of, name_of, number_if, schedule_given, session_mode_of, uuid_of};

use crate::codes::{BAD_MODE, BAD_UUID, geometry_code};
use tr_schedule::{Schedule, ScheduleFault};
use tr_stream::StreamConfig;
use tr_terms::{Geometry, Mode, Name, SessionMode};
use uuid::Uuid;

/// The mode of a channel with this number.
pub fn mode_of(number: u32) -> Option<Mode>
    ensures { result ≡ mode_of number }
{
    match number {
        0 => Some(Mode::Discard),
        1 => Some(Mode::Overwrite),
        _ => None,
    }
}

/// The mode of a session with this number.
pub fn session_mode_of(number: u32) -> Option<SessionMode>
    ensures { result ≡ session_mode_of number }
{
    match number {
        0 => Some(SessionMode::Local),
        1 => Some(SessionMode::Snapshot),
        _ => None,
    }
}

/// The identifier with these bytes.
pub fn uuid_of(bytes: &[u8]) -> Option<Uuid>
    ensures { result ≡ uuid_of bytes.now }
{
    match Uuid::from_slice(bytes) {
        Ok(uuid) => Some(uuid),
        Err(_) => None,
    }
}

/// What a stream is to be made with, or the number of the refusal.
pub fn config_of(
    uuid: &[u8],
    number: u64,
    size: u64,
    count: u64,
    mode: u32,
    session: u32,
) -> Result<StreamConfig, u32>
    ensures { result ≡ config_of uuid.now number size count mode session }
{
    let Some(uuid) = uuid_of(uuid) else {
        return Err(BAD_UUID);
    };
    let geometry = match Geometry::new(size, count) {
        Ok(geometry) => geometry,
        Err(fault) => return Err(geometry_code(fault)),
    };
    let (Some(mode), Some(session)) = (mode_of(mode), session_mode_of(session)) else {
        return Err(BAD_MODE);
    };
    Ok(StreamConfig {
        uuid,
        number,
        geometry,
        mode,
        session,
    })
}

/// The name with these bytes.
#[tactic(auto, using(crate::proofs::NameLemmas::name_is_text))]
pub fn name_of(bytes: &[u8]) -> Option<Name<'_>>
    ensures { result ≡ name_of bytes.now }
{
    let Ok(text) = str::from_utf8(bytes) else {
        return None;
    };
    Name::new(text)
}

/// A number that may be left out.
fn number_if(there: bool, number: u64) -> Option<u64>
    ensures { result ≡ number_if there number }
{
    if there { Some(number) } else { None }
}

/// The schedule with this period and this size limit, or none without both.
pub fn schedule_given(
    timer: bool,
    every: u64,
    by_size: bool,
    size: u64,
) -> Result<Option<Schedule>, ScheduleFault>
    ensures { result ≡ schedule_given timer every by_size size }
{
    if !timer && !by_size {
        return Ok(None);
    }
    match Schedule::new(number_if(timer, every), number_if(by_size, size)) {
        Ok(schedule) => Ok(Some(schedule)),
        Err(fault) => Err(fault),
    }
}

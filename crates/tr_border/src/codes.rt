//! What the calls answer, as numbers.

ghost use Rattle.std.specs.Prelude.{◌≡◌};
ghost use Rattle.tr_border.specs.Codes.{code_number, code_of};
ghost use Rattle.tr_chunk.specs.Faults.{audit_cause_code};
ghost use Rattle.tr_events.specs.Faults.{event_fault_code};
ghost use Rattle.tr_packet.specs.Faults.{packet_fault_code};
ghost use Rattle.tr_schedule.specs.Schedules.{schedule_fault_code};
ghost use Rattle.tr_session.specs.Faults.{step_fault_code};
ghost use Rattle.tr_session_book.specs.Faults.{session_fault_code};
ghost use Rattle.tr_stream.specs.Faults.{clear_fault_code, cut_fault_code, forget_fault_code, offer_fault_code, release_fault_code, take_fault_code};
ghost use Rattle.tr_terms.specs.Geometry.{geometry_fault_code};

use tr_chunk::AuditCause;
use tr_events::EventFault;
use tr_packet::PacketFault;
use tr_schedule::ScheduleFault;
use tr_session::StepFault;
use tr_session_book::SessionFault;
use tr_stream::{ClearFault, CutFault, ForgetFault, OfferFault, ReleaseFault, TakeFault};
use tr_terms::GeometryFault;

/// All was done.
pub const DONE: u32 = 0;
/// An allocation failed.
pub const NO_MEMORY: u32 = 1;
/// A handle that should be open is closed.
pub const CLOSED: u32 = 2;
/// A handle that should be closed is open.
pub const IN_USE: u32 = 3;
/// A moment is past the last one.
pub const BAD_MOMENT: u32 = 4;
/// An identifier isn't of 16 bytes.
pub const BAD_UUID: u32 = 5;
/// A mode is none of those that there are.
pub const BAD_MODE: u32 = 6;
/// A text is no name.
pub const BAD_NAME: u32 = 7;
/// An offset is outside its range.
pub const BAD_OFFSET: u32 = 8;
/// There is too little room for a text.
pub const NO_ROOM: u32 = 9;
/// The stream has no part of this number.
pub const NO_PART: u32 = 10;
/// A number is no refusal's, or no answer's.
pub const BAD_NUMBER: u32 = 11;
/// An audit was fed too much.
pub const TOO_MUCH: u32 = 21;

/// A line gets no answer.
pub const ASKS_NOTHING: u32 = 0;
/// It is a bad line.
pub const ASKS_BADLY: u32 = 1;
/// It is a command that no live session answers.
pub const ASKS_OTHER: u32 = 2;
/// `status`
pub const ASKS_STATUS: u32 = 3;
/// `archives`
pub const ASKS_ARCHIVES: u32 = 4;
/// `fate`
pub const ASKS_FATE: u32 = 5;
/// `start`
pub const ASKS_START: u32 = 6;
/// `stop`
pub const ASKS_STOP: u32 = 7;
/// `rotate`
pub const ASKS_ROTATE: u32 = 8;
/// `snapshot`
pub const ASKS_SNAPSHOT: u32 = 9;
/// `clear`
pub const ASKS_CLEAR: u32 = 10;
/// `release`
pub const ASKS_RELEASE: u32 = 11;
/// `schedule`
pub const ASKS_SCHEDULE: u32 = 12;

/// A line is refused as K1: it names another session.
pub const K_NO_SESSION: u32 = 1101;

/// The line is a bad one.
pub const SAYS_BAD_LINE: u32 = 0;
/// No live session answers such a command.
pub const SAYS_SCRIPT_ONLY: u32 = 1;
/// The session was started.
pub const SAYS_STARTED: u32 = 2;
/// It was stopped.
pub const SAYS_STOPPED: u32 = 3;
/// A schedule was set.
pub const SAYS_SCHEDULE_SET: u32 = 4;
/// There is no schedule now.
pub const SAYS_SCHEDULE_OFF: u32 = 5;
/// There is no archive.
pub const SAYS_NO_ARCHIVES: u32 = 6;

/// The number of an offer's refusal.
pub fn offer_code(fault: OfferFault) -> u32
    ensures { result ≡ code_number (offer_fault_code fault) }
{
    match fault {
        OfferFault::Inactive => 201,
        OfferFault::TooBig => 202,
        OfferFault::Spent => 203,
        OfferFault::Misplaced => 205,
        OfferFault::OtherLayout => 206,
    }
}

/// The number of a take's refusal.
pub fn take_code(fault: TakeFault) -> u32
    ensures { result ≡ code_number (take_fault_code fault) }
{
    match fault {
        TakeFault::Nothing => 301,
        TakeFault::SnapshotMode => 302,
        TakeFault::NoMemory => NO_MEMORY,
        TakeFault::Misplaced => 304,
    }
}

/// The number of a cut's refusal.
pub fn cut_code(fault: CutFault) -> u32
    ensures { result ≡ code_number (cut_fault_code fault) }
{
    match fault {
        CutFault::SnapshotMode => 401,
        CutFault::NoMemory => NO_MEMORY,
    }
}

/// The number of a clear's refusal.
pub fn clear_code(fault: ClearFault) -> u32
    ensures { result ≡ code_number (clear_fault_code fault) }
{
    match fault {
        ClearFault::SnapshotMode => 501,
        ClearFault::NoMemory => NO_MEMORY,
    }
}

/// The number of a release's refusal.
pub fn release_code(fault: ReleaseFault) -> u32
    ensures { result ≡ code_number (release_fault_code fault) }
{
    match fault {
        ReleaseFault::NoPart => 601,
        ReleaseFault::Released => 602,
        ReleaseFault::NoMemory => NO_MEMORY,
    }
}

/// The number of a forget's refusal.
pub fn forget_code(fault: ForgetFault) -> u32
    ensures { result ≡ code_number (forget_fault_code fault) }
{
    match fault {
        ForgetFault::NoPart => 1201,
        ForgetFault::Held => 1202,
        ForgetFault::NoMemory => NO_MEMORY,
    }
}

/// The number of what is wrong with a geometry.
pub fn geometry_code(fault: GeometryFault) -> u32
    ensures { result ≡ code_number (geometry_fault_code fault) }
{
    match fault {
        GeometryFault::BadSize => 901,
        GeometryFault::BadCount => 902,
    }
}

/// The number of a session's refusal.
pub fn session_code(fault: SessionFault) -> u32
    ensures { result ≡ code_number (session_fault_code fault) }
{
    match fault {
        SessionFault::SnapshotMode => 101,
        SessionFault::NotSnapshotMode => 102,
        SessionFault::NeverStarted => 103,
        SessionFault::RotationPending => 104,
        SessionFault::AlreadyRotated => 105,
        SessionFault::AlreadyActive => 106,
        SessionFault::NotActive => 107,
        SessionFault::NoStream => 108,
        SessionFault::DiscardInSnapshot => 109,
        SessionFault::AlreadyStarted => 110,
        SessionFault::BadGeometry => 111,
        SessionFault::TooMany => 112,
        SessionFault::NotPending => 113,
        SessionFault::CutMissing => 114,
        SessionFault::NameTaken => 115,
        SessionFault::NoMemory => NO_MEMORY,
        SessionFault::NoChannel => 117,
        SessionFault::NoArchive => 118,
        SessionFault::Released => 119,
        SessionFault::Misplaced => 120,
    }
}

/// The number of a step's refusal.
pub fn step_code(fault: StepFault) -> u32
    ensures { result ≡ code_number (step_fault_code fault) }
{
    match fault {
        StepFault::Session(fault) => session_code(fault),
        StepFault::Offer(fault) => offer_code(fault),
        StepFault::Take(fault) => take_code(fault),
        StepFault::Cut(fault) => cut_code(fault),
    }
}

/// The number of a session's answer that says no more.
pub fn code_of(answer: Result<(), SessionFault>) -> u32
    ensures { result ≡ code_of session_fault_code answer }
{
    match answer {
        Ok(()) => DONE,
        Err(fault) => session_code(fault),
    }
}

/// The number of what is wrong with a schedule.
pub fn schedule_code(fault: ScheduleFault) -> u32
    ensures { result ≡ code_number (schedule_fault_code fault) }
{
    match fault {
        ScheduleFault::ZeroPeriod => 701,
        ScheduleFault::ZeroSize => 702,
    }
}

/// The number of why a line declares nothing.
pub fn event_code(fault: EventFault) -> u32
    ensures { result ≡ code_number (event_fault_code fault) }
{
    match fault {
        EventFault::BadEvent => 1001,
        EventFault::BadField => 1002,
        EventFault::BadType => 1003,
        EventFault::NotAlone => 1004,
        EventFault::FieldTwice => 1005,
        EventFault::EventTaken => 1006,
        EventFault::TooMany => 1007,
        EventFault::BadVariable => 1008,
        EventFault::BadValue => 1009,
        EventFault::VariableTaken => 1010,
        EventFault::TooManyVariables => 1011,
    }
}

/// The number of why an audit stops.
pub fn audit_code(cause: AuditCause) -> u32
    ensures { result ≡ code_number (audit_cause_code cause) }
{
    match cause {
        AuditCause::Packet(_) => 801,
        AuditCause::NumberRepeat => 802,
        AuditCause::SerialRepeat => 803,
        AuditCause::Foreign => 804,
        AuditCause::NoMemory => NO_MEMORY,
    }
}

/// The number of what is wrong with a packet.
pub fn packet_code(fault: PacketFault) -> u32
    ensures { result ≡ code_number (packet_fault_code fault) }
{
    match fault {
        PacketFault::Short => 1,
        PacketFault::BadMagic => 2,
        PacketFault::BadStreamId => 3,
        PacketFault::BadSize => 4,
        PacketFault::BadRecord => 5,
        PacketFault::SerialOrder => 6,
        PacketFault::MomentOrder => 7,
    }
}

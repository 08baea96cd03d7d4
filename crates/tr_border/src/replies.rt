//! Which answers C asks for, by their numbers.

ghost use Rattle.std.specs.Prelude.{◌≡◌, ◌∷◌, ◌++◌, [], Some, IfSome, option_map};
ghost use Rattle.tr_border.specs.Codes.{code_number};
ghost use Rattle.tr_border.specs.Replies.{fault_numbered, said_text};
ghost use Rattle.tr_replies.specs.LineFaults.{line_fault_code};
ghost use Rattle.tr_replies.specs.declared.line_fault.LineFault.TheVariants as LineFault;
ghost use Rattle.tr_schedule.specs.Schedules.{schedule_fault_code};
ghost use Rattle.tr_schedule.specs.declared.faults.ScheduleFault.{ScheduleFault};
ghost use Rattle.tr_session_book.specs.Faults.{session_fault_code};
ghost use Rattle.tr_session_book.specs.declared.faults.SessionFault.{SessionFault};

use tr_replies::LineFault;
use tr_schedule::ScheduleFault;
use tr_session_book::SessionFault;

/// The answer without a number of its own that a constant `SAYS_` of `codes` stands for, with its newline.
pub fn said(number: u32) -> Option<&'static str>
    ensures { option_map (λ t. t.now) result ≡ option_map (λ t. t ++ 10 ∷ []) (said_text number) }
{
    match number {
        0 => Some("bad line\n"),
        1 => Some("refused K4 ScriptOnly\n"),
        2 => Some("started\n"),
        3 => Some("stopped\n"),
        4 => Some("schedule set\n"),
        5 => Some("schedule off\n"),
        6 => Some("none\n"),
        _ => None,
    }
}

/// Why a live session refuses a line, by the number of that refusal; 1101 is that of another session's name.
pub fn fault_numbered(number: u32) -> Option<LineFault>
    ensures value { result ≡ fault_numbered number }
    ensures session { (f : SessionFault) → code_number (session_fault_code f) ≡ number → result ≡ Some (LineFault.Session f) }
    ensures schedule { (f : ScheduleFault) → code_number (schedule_fault_code f) ≡ number → result ≡ Some (LineFault.Schedule f) }
    ensures number { IfSome result (λ f. code_number (line_fault_code f) ≡ number) }
{
    let fault = match number {
        1101 => LineFault::NoSession,
        1 => LineFault::Session(SessionFault::NoMemory),
        101 => LineFault::Session(SessionFault::SnapshotMode),
        102 => LineFault::Session(SessionFault::NotSnapshotMode),
        103 => LineFault::Session(SessionFault::NeverStarted),
        104 => LineFault::Session(SessionFault::RotationPending),
        105 => LineFault::Session(SessionFault::AlreadyRotated),
        106 => LineFault::Session(SessionFault::AlreadyActive),
        107 => LineFault::Session(SessionFault::NotActive),
        108 => LineFault::Session(SessionFault::NoStream),
        109 => LineFault::Session(SessionFault::DiscardInSnapshot),
        110 => LineFault::Session(SessionFault::AlreadyStarted),
        111 => LineFault::Session(SessionFault::BadGeometry),
        112 => LineFault::Session(SessionFault::TooMany),
        113 => LineFault::Session(SessionFault::NotPending),
        114 => LineFault::Session(SessionFault::CutMissing),
        115 => LineFault::Session(SessionFault::NameTaken),
        117 => LineFault::Session(SessionFault::NoChannel),
        118 => LineFault::Session(SessionFault::NoArchive),
        119 => LineFault::Session(SessionFault::Released),
        120 => LineFault::Session(SessionFault::Misplaced),
        701 => LineFault::Schedule(ScheduleFault::ZeroPeriod),
        702 => LineFault::Schedule(ScheduleFault::ZeroSize),
        _ => return None,
    };
    Some(fault)
}

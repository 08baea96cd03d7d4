//! How a run of the program ends.

ghost use Rattle.std.specs.Prelude.{◌≡◌, option_map};
ghost use Rattle.tr_program.specs.Endings.{ending_of_script, ending_of_arguments, ending_of_describe, ending_of_export, ending_of_load, ending_of_outcome, ending_of_recover, ending_of_refused, ending_of_survey, message_of, status_of};

use std::io::ErrorKind;
use tr_console::ScriptFault;
use tr_describe::{DescribeFault, Outcome};
use tr_export::ExportFault;
use tr_load::LoadFault;
use tr_pool::{Mismatch, Report};
use tr_recover::{RecoverFault, Recovered};
use tr_survey::{SurveyFault, Surveyed};

/// How a run of the program ends.
#[derive(Clone, Copy, Debug, PartialEq, Eq)]
pub enum Ending {
    /// All was done.
    Done,
    /// The script came to its end, and some of its lines were refused; or a load's logs don't agree with its session, or
    /// one of its calls was refused; or a line of declarations was refused.
    Refused,
    /// An audit found something wrong, or archives can't be described because something is.
    Faulty,
    /// The command line was bad.
    BadCommandLine,
    /// The input, a folder or a file couldn't be read, or the input was too long, or the output or an archive couldn't be
    /// written.
    ReadOrWrite,
    /// There was no session to audit or to describe, or an image has no packet of the trace, or names none.
    NoSession,
    /// An allocation failed, or a thread of a load couldn't be made.
    NoMemory,
}

impl Ending {
    /// The exit status.
    pub fn status(self) -> u8
        ensures { result ≡ status_of self }
    {
        match self {
            Ending::Done => 0,
            Ending::Refused | Ending::Faulty => 1,
            Ending::BadCommandLine => 2,
            Ending::ReadOrWrite | Ending::NoSession => 3,
            Ending::NoMemory => 4,
        }
    }

    /// The line that standard error gets, if any.
    pub fn message(self) -> Option<&'static str>
        ensures { option_map (λ t. t.now) result ≡ message_of self }
    {
        match self {
            Ending::Done | Ending::Refused | Ending::Faulty => None,
            Ending::BadCommandLine => Some("tracerd: bad command line\n"),
            Ending::ReadOrWrite => Some("tracerd: read or write fault\n"),
            Ending::NoSession => Some("tracerd: no session\n"),
            Ending::NoMemory => Some("tracerd: no memory\n"),
        }
    }

    /// How a script ends the program if this number of its lines was refused.
    pub fn of_refused(refused: u64) -> Ending
        ensures { result ≡ ending_of_refused refused }
    {
        if refused == 0 {
            Ending::Done
        } else {
            Ending::Refused
        }
    }

    /// How arguments that can't be taken end the program: an allocation failed, or one of them isn't UTF-8.
    pub fn of_arguments(kind: ErrorKind) -> Ending
        ensures { result ≡ ending_of_arguments kind }
    {
        match kind {
            ErrorKind::OutOfMemory => Ending::NoMemory,
            _ => Ending::BadCommandLine,
        }
    }

    /// How archives that can't be written end the program.
    pub fn of_export(fault: ExportFault) -> Ending
        ensures { result ≡ ending_of_export fault }
    {
        match fault {
            ExportFault::Write => Ending::ReadOrWrite,
            ExportFault::NoMemory => Ending::NoMemory,
        }
    }

    /// How a script that ended early ends the program.
    pub fn of_script(fault: ScriptFault) -> Ending
        ensures { result ≡ ending_of_script fault }
    {
        match fault {
            ScriptFault::Read | ScriptFault::TooLong | ScriptFault::Write => Ending::ReadOrWrite,
            ScriptFault::NoMemory => Ending::NoMemory,
        }
    }

    /// How a load that was reported ends the program.
    pub fn of_outcome(outcome: &Result<Report, Mismatch>) -> Ending
        ensures { result ≡ ending_of_outcome outcome.now }
    {
        match outcome {
            Ok(_) => Ending::Done,
            Err(_) => Ending::Refused,
        }
    }

    /// How a load that wasn't settled ends the program.
    pub fn of_load(fault: LoadFault) -> Ending
        ensures { result ≡ ending_of_load fault }
    {
        match fault {
            LoadFault::Misplaced => Ending::Refused,
            LoadFault::NoMemory => Ending::NoMemory,
        }
    }

    /// How an audit that came to its end ends the program, or one that didn't.
    pub fn of_survey(survey: Result<Surveyed, SurveyFault>) -> Ending
        ensures { result ≡ ending_of_survey survey }
    {
        match survey {
            Ok(Surveyed::NoSession) => Ending::NoSession,
            Ok(Surveyed::Faults(0)) => Ending::Done,
            Ok(Surveyed::Faults(_)) => Ending::Faulty,
            Ok(Surveyed::Unlisted) | Err(SurveyFault::TooMuch | SurveyFault::Write) => {
                Ending::ReadOrWrite
            }
            Err(SurveyFault::NoMemory) => Ending::NoMemory,
        }
    }

    /// How archives that were to be described end the program.
    pub fn of_describe(described: Result<Outcome, DescribeFault>) -> Ending
        ensures { result ≡ ending_of_describe described }
    {
        match described {
            Ok(Outcome::NoSession) => Ending::NoSession,
            Ok(Outcome::Refused) => Ending::Refused,
            Ok(Outcome::Wrong) => Ending::Faulty,
            Ok(Outcome::Done) => Ending::Done,
            Ok(Outcome::Unreadable) | Err(DescribeFault::TooMuch | DescribeFault::Write) => {
                Ending::ReadOrWrite
            }
            Err(DescribeFault::NoMemory) => Ending::NoMemory,
        }
    }

    /// How an image whose packets were to be recovered ends the program.
    pub fn of_recover(recovered: Result<Recovered, RecoverFault>) -> Ending
        ensures { result ≡ ending_of_recover recovered }
    {
        match recovered {
            Ok(Recovered::Nothing) => Ending::NoSession,
            Ok(Recovered::Done) => Ending::Done,
            Ok(Recovered::Unreadable) | Err(RecoverFault::TooMuch | RecoverFault::Write) => {
                Ending::ReadOrWrite
            }
            Err(RecoverFault::NoMemory) => Ending::NoMemory,
        }
    }
}

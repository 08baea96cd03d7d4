//! The commands of a script, each a row of one table: its name, its arguments, and how their values are read.

ghost use Rattle.std.specs.Prelude.{◌≡◌, map, option_map};
ghost use Rattle.tr_command.specs.Ordinary.{rows_in};
ghost use Rattle.tr_command.specs.Asked.{asked_by, command_in, command_named, commands, read, read_command};

use crate::Request;
use crate::arguments::Argument::{self, Flag, Named, Placed};
use crate::values::{
    Values, has_flag, mode_given, moment_given, number_given, number_if_given, number_u32_given,
    number_u32_or_zero, offset_given, text_given, text_or_empty,
};
use tr_terms::limits::MOST_FILL;

/// A command of a script: its name, its arguments, and what reads their values.
pub struct CommandRow {
    pub name: &'static str,
    pub arguments: &'static [Argument],
    pub reader: Reader,
}

/// What reads the values of a command's arguments.
#[derive(Clone, Copy)]
pub enum Reader {
    Create,
    Channel,
    Thread,
    Start,
    Stop,
    Offer,
    Consume,
    Clear,
    RotateBegin,
    RotateNext,
    RotateFinish,
    Rotate,
    Snapshot,
    Schedule,
    Tick,
    Fate,
    Status,
    Archives,
    Release,
}

/// Every command.
const COMMANDS: &[CommandRow] = &[
    CommandRow {
        name: "create",
        arguments: &[
            Placed("session"),
            Placed("uuid"),
            Named("east"),
            Named("west"),
            Flag("snapshot"),
        ],
        reader: Reader::Create,
    },
    CommandRow {
        name: "channel",
        arguments: &[
            Placed("session"),
            Placed("channel"),
            Placed("size"),
            Placed("count"),
            Placed("mode"),
        ],
        reader: Reader::Channel,
    },
    CommandRow {
        name: "thread",
        arguments: &[Placed("session"), Placed("channel")],
        reader: Reader::Thread,
    },
    CommandRow {
        name: "start",
        arguments: &[Placed("session"), Placed("moment")],
        reader: Reader::Start,
    },
    CommandRow {
        name: "stop",
        arguments: &[Placed("session")],
        reader: Reader::Stop,
    },
    CommandRow {
        name: "offer",
        arguments: &[
            Placed("session"),
            Placed("stream"),
            Placed("moment"),
            Placed("id"),
            Named("text"),
            Named("fill"),
        ],
        reader: Reader::Offer,
    },
    CommandRow {
        name: "consume",
        arguments: &[Placed("session"), Placed("stream")],
        reader: Reader::Consume,
    },
    CommandRow {
        name: "clear",
        arguments: &[Placed("session")],
        reader: Reader::Clear,
    },
    CommandRow {
        name: "rotate-begin",
        arguments: &[Placed("session"), Placed("moment")],
        reader: Reader::RotateBegin,
    },
    CommandRow {
        name: "rotate-next",
        arguments: &[Placed("session")],
        reader: Reader::RotateNext,
    },
    CommandRow {
        name: "rotate-finish",
        arguments: &[Placed("session")],
        reader: Reader::RotateFinish,
    },
    CommandRow {
        name: "rotate",
        arguments: &[Placed("session"), Placed("moment")],
        reader: Reader::Rotate,
    },
    CommandRow {
        name: "snapshot",
        arguments: &[Placed("session"), Placed("moment")],
        reader: Reader::Snapshot,
    },
    CommandRow {
        name: "schedule",
        arguments: &[Placed("session"), Named("every"), Named("size")],
        reader: Reader::Schedule,
    },
    CommandRow {
        name: "tick",
        arguments: &[Placed("session"), Placed("moment")],
        reader: Reader::Tick,
    },
    CommandRow {
        name: "fate",
        arguments: &[Placed("session"), Placed("stream"), Placed("serial")],
        reader: Reader::Fate,
    },
    CommandRow {
        name: "status",
        arguments: &[Placed("session")],
        reader: Reader::Status,
    },
    CommandRow {
        name: "archives",
        arguments: &[Placed("session")],
        reader: Reader::Archives,
    },
    CommandRow {
        name: "release",
        arguments: &[Placed("session"), Placed("archive")],
        reader: Reader::Release,
    },
];

/// The table of commands. A line's first word is looked up here, and so is the command that clap entered.
#[tactic(auto, unfolding(crate::specs::Asked::commands))]
pub fn rows() -> &'static [CommandRow]
    ensures { map command_in result.now ≡ commands }
{
    COMMANDS
}

/// The command of this name. `None` if no command has it.
pub fn row_named(name: &str) -> Option<&'static CommandRow>
    ensures { option_map (λ r. command_in r.now) result ≡ command_named name.now }
{
    'commands: for row in rows() {
        if row.name == name {
            return Some(row);
        }
    }
    None
}

/// What the command of this name asks for with these values of its arguments.
pub fn request_of<'a>(name: &str, values: &Values<'_, 'a>) -> Option<Request<'a>>
    ensures { option_map asked_by result ≡ read_command name.now (rows_in values.now) }
{
    read(row_named(name)?.reader, values)
}

/// What these values ask for. `None` is a bad line.
pub fn read<'a>(reader: Reader, values: &Values<'_, 'a>) -> Option<Request<'a>>
    ensures { option_map asked_by result ≡ read reader (rows_in values.now) }
{
    match reader {
        Reader::Create => create_request(values),
        Reader::Channel => channel_request(values),
        Reader::Thread => thread_request(values),
        Reader::Start => start_request(values),
        Reader::Stop => stop_request(values),
        Reader::Offer => offer_request(values),
        Reader::Consume => consume_request(values),
        Reader::Clear => clear_request(values),
        Reader::RotateBegin => rotate_begin_request(values),
        Reader::RotateNext => rotate_next_request(values),
        Reader::RotateFinish => rotate_finish_request(values),
        Reader::Rotate => rotate_request(values),
        Reader::Snapshot => snapshot_request(values),
        Reader::Schedule => schedule_request(values),
        Reader::Tick => tick_request(values),
        Reader::Fate => fate_request(values),
        Reader::Status => status_request(values),
        Reader::Archives => archives_request(values),
        Reader::Release => release_request(values),
    }
}

fn create_request<'a>(values: &Values<'_, 'a>) -> Option<Request<'a>>
    ensures { option_map asked_by result ≡ read Reader.Create (rows_in values.now) }
{
    let session = text_given(values, "session")?;
    let uuid = text_given(values, "uuid")?;
    let offset = offset_given(values)?;
    let snapshot = has_flag(values, "snapshot");
    Some(Request::Create {
        session,
        uuid,
        offset,
        snapshot,
    })
}

fn channel_request<'a>(values: &Values<'_, 'a>) -> Option<Request<'a>>
    ensures { option_map asked_by result ≡ read Reader.Channel (rows_in values.now) }
{
    let session = text_given(values, "session")?;
    let channel = text_given(values, "channel")?;
    let size = number_u32_given(values, "size", u32::MAX)?;
    let count = number_u32_given(values, "count", u32::MAX)?;
    let mode = mode_given(values, "mode")?;
    Some(Request::Channel {
        session,
        channel,
        size,
        count,
        mode,
    })
}

fn thread_request<'a>(values: &Values<'_, 'a>) -> Option<Request<'a>>
    ensures { option_map asked_by result ≡ read Reader.Thread (rows_in values.now) }
{
    let session = text_given(values, "session")?;
    let channel = text_given(values, "channel")?;
    Some(Request::Thread { session, channel })
}

fn start_request<'a>(values: &Values<'_, 'a>) -> Option<Request<'a>>
    ensures { option_map asked_by result ≡ read Reader.Start (rows_in values.now) }
{
    let session = text_given(values, "session")?;
    let moment = moment_given(values, "moment")?;
    Some(Request::Start { session, moment })
}

fn stop_request<'a>(values: &Values<'_, 'a>) -> Option<Request<'a>>
    ensures { option_map asked_by result ≡ read Reader.Stop (rows_in values.now) }
{
    let session = text_given(values, "session")?;
    Some(Request::Stop { session })
}

fn offer_request<'a>(values: &Values<'_, 'a>) -> Option<Request<'a>>
    ensures { option_map asked_by result ≡ read Reader.Offer (rows_in values.now) }
{
    let session = text_given(values, "session")?;
    let stream = number_given(values, "stream", u64::MAX)?;
    let moment = moment_given(values, "moment")?;
    let id = number_u32_given(values, "id", u32::MAX)?;
    let fill = number_u32_or_zero(values, "fill", MOST_FILL)?;
    let text = text_or_empty(values, "text");
    Some(Request::Offer {
        session,
        stream,
        moment,
        id,
        text,
        fill,
    })
}

fn consume_request<'a>(values: &Values<'_, 'a>) -> Option<Request<'a>>
    ensures { option_map asked_by result ≡ read Reader.Consume (rows_in values.now) }
{
    let session = text_given(values, "session")?;
    let stream = number_given(values, "stream", u64::MAX)?;
    Some(Request::Consume { session, stream })
}

fn clear_request<'a>(values: &Values<'_, 'a>) -> Option<Request<'a>>
    ensures { option_map asked_by result ≡ read Reader.Clear (rows_in values.now) }
{
    let session = text_given(values, "session")?;
    Some(Request::Clear { session })
}

fn rotate_begin_request<'a>(values: &Values<'_, 'a>) -> Option<Request<'a>>
    ensures { option_map asked_by result ≡ read Reader.RotateBegin (rows_in values.now) }
{
    let session = text_given(values, "session")?;
    let moment = moment_given(values, "moment")?;
    Some(Request::RotateBegin { session, moment })
}

fn rotate_next_request<'a>(values: &Values<'_, 'a>) -> Option<Request<'a>>
    ensures { option_map asked_by result ≡ read Reader.RotateNext (rows_in values.now) }
{
    let session = text_given(values, "session")?;
    Some(Request::RotateNext { session })
}

fn rotate_finish_request<'a>(values: &Values<'_, 'a>) -> Option<Request<'a>>
    ensures { option_map asked_by result ≡ read Reader.RotateFinish (rows_in values.now) }
{
    let session = text_given(values, "session")?;
    Some(Request::RotateFinish { session })
}

fn rotate_request<'a>(values: &Values<'_, 'a>) -> Option<Request<'a>>
    ensures { option_map asked_by result ≡ read Reader.Rotate (rows_in values.now) }
{
    let session = text_given(values, "session")?;
    let moment = moment_given(values, "moment")?;
    Some(Request::Rotate { session, moment })
}

fn snapshot_request<'a>(values: &Values<'_, 'a>) -> Option<Request<'a>>
    ensures { option_map asked_by result ≡ read Reader.Snapshot (rows_in values.now) }
{
    let session = text_given(values, "session")?;
    let moment = moment_given(values, "moment")?;
    Some(Request::Snapshot { session, moment })
}

fn fate_request<'a>(values: &Values<'_, 'a>) -> Option<Request<'a>>
    ensures { option_map asked_by result ≡ read Reader.Fate (rows_in values.now) }
{
    let session = text_given(values, "session")?;
    let stream = number_given(values, "stream", u64::MAX)?;
    let serial = number_given(values, "serial", u64::MAX)?;
    Some(Request::Fate {
        session,
        stream,
        serial,
    })
}

fn schedule_request<'a>(values: &Values<'_, 'a>) -> Option<Request<'a>>
    ensures { option_map asked_by result ≡ read Reader.Schedule (rows_in values.now) }
{
    let session = text_given(values, "session")?;
    let every = number_if_given(values, "every", u64::MAX)?;
    let size = number_if_given(values, "size", u64::MAX)?;
    Some(Request::Schedule {
        session,
        every,
        size,
    })
}

fn tick_request<'a>(values: &Values<'_, 'a>) -> Option<Request<'a>>
    ensures { option_map asked_by result ≡ read Reader.Tick (rows_in values.now) }
{
    let session = text_given(values, "session")?;
    let moment = moment_given(values, "moment")?;
    Some(Request::Tick { session, moment })
}

fn status_request<'a>(values: &Values<'_, 'a>) -> Option<Request<'a>>
    ensures { option_map asked_by result ≡ read Reader.Status (rows_in values.now) }
{
    let session = text_given(values, "session")?;
    Some(Request::Status { session })
}

fn archives_request<'a>(values: &Values<'_, 'a>) -> Option<Request<'a>>
    ensures { option_map asked_by result ≡ read Reader.Archives (rows_in values.now) }
{
    let session = text_given(values, "session")?;
    Some(Request::Archives { session })
}

fn release_request<'a>(values: &Values<'_, 'a>) -> Option<Request<'a>>
    ensures { option_map asked_by result ≡ read Reader.Release (rows_in values.now) }
{
    let session = text_given(values, "session")?;
    let archive = number_given(values, "archive", u64::MAX)?;
    Some(Request::Release { session, archive })
}

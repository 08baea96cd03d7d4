//! Why declarations are refused.

ghost use Rattle.std.specs.Prelude.{◌≡◌};
ghost use Rattle.tr_events.specs.Faults.{event_fault_code, event_fault_name};

use std::alloc::AllocError;
use thiserror::Error;

/// Why a line declares nothing. If several apply to an event, the first one in this order is the answer: of the name, the id and
/// the fields in the order of the line, then `FieldTwice`, `NotAlone`, `TooMany` of the line, `EventTaken`, and `TooMany` of all.
/// Those of a variable apply in their order.
#[derive(Clone, Copy, Debug, PartialEq, Eq, Error)]
#[error("{} {}", self.code(), self.name())]
pub enum EventFault {
    /// The line doesn't begin with a name and an id from 1 to `MOST_ID`, has a byte that can't be printed, or the name is
    /// `record`, which records of undeclared ids have.
    BadEvent,
    /// A field isn't a name, a colon and a type, or its name is `serial` or `len`, which all records have.
    BadField,
    /// There is no such type, or a label can't be a value of it.
    BadType,
    /// What is all of a payload stands beside other fields.
    NotAlone,
    /// Two fields have one name, or one has the name of a sequence's length.
    FieldTwice,
    /// An earlier line has this id or this name.
    EventTaken,
    /// There are more than `MOST_FIELDS` fields or `MOST_EVENTS` events, the text is longer than `LONGEST_DECLARATIONS`, or no
    /// packet holds a record of the event.
    TooMany,
    /// A variable's name is no name, or a word of the language of metadata.
    BadVariable,
    /// A variable has no value, one longer than `LONGEST_VALUE` or with `"`, `\` or `*/` in it, or `vpid` no number.
    BadValue,
    /// An earlier line has a variable of this name.
    VariableTaken,
    /// There are more than `MOST_VARIABLES` variables.
    TooManyVariables,
}

impl EventFault {
    /// The code that documents call it by.
    pub fn code(&self) -> &'static str
        ensures { result.now ≡ event_fault_code self.now }
    {
        match self {
            EventFault::BadEvent => "V1",
            EventFault::BadField => "V2",
            EventFault::BadType => "V3",
            EventFault::NotAlone => "V4",
            EventFault::FieldTwice => "V5",
            EventFault::EventTaken => "V6",
            EventFault::TooMany => "V7",
            EventFault::BadVariable => "V8",
            EventFault::BadValue => "V9",
            EventFault::VariableTaken => "V10",
            EventFault::TooManyVariables => "V11",
        }
    }

    /// Its name in documents.
    pub fn name(&self) -> &'static str
        ensures { result.now ≡ event_fault_name self.now }
    {
        match self {
            EventFault::BadEvent => "BadEvent",
            EventFault::BadField => "BadField",
            EventFault::BadType => "BadType",
            EventFault::NotAlone => "NotAlone",
            EventFault::FieldTwice => "FieldTwice",
            EventFault::EventTaken => "EventTaken",
            EventFault::TooMany => "TooMany",
            EventFault::BadVariable => "BadVariable",
            EventFault::BadValue => "BadValue",
            EventFault::VariableTaken => "VariableTaken",
            EventFault::TooManyVariables => "TooManyVariables",
        }
    }
}

/// The line of a text that is refused, from 1 on, and why.
#[derive(Clone, Copy, Debug, PartialEq, Eq, Error)]
#[error("line {line}: {fault}")]
pub struct LineFault {
    pub line: u64,
    pub fault: EventFault,
}

/// Why a text declares nothing.
#[derive(Clone, Copy, Debug, PartialEq, Eq, Error)]
pub enum ParseFault {
    /// A line is refused.
    #[error("{0}")]
    Line(LineFault),
    /// An allocation failed.
    #[error("not enough memory")]
    NoMemory,
}

impl From<AllocError> for ParseFault {
    ghost use Rattle.std.specs.Prelude.{◌≡◌};
    ghost use Rattle.tr_events.specs.declared.faults.ParseFault.TheVariants.{NoMemory};

    ghost from_gives = { λ _ fault. fault ≡ NoMemory };

    fn from(_error: AllocError) -> ParseFault {
        ParseFault::NoMemory
    }
}

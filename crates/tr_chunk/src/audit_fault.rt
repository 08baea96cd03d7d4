//! Why an audit stops.

ghost use Rattle.std.specs.Prelude.{◌≡◌};
ghost use Rattle.tr_chunk.specs.Faults.{audit_cause_code, audit_cause_name};

use thiserror::Error;
use tr_packet::PacketFault;

/// Why an audit stops, and at which packet.
#[derive(Clone, Copy, Debug, PartialEq, Eq)]
pub struct AuditFault {
    /// The piece in which the packet begins, counted from 0.
    pub piece: u64,
    /// The byte of that piece at which it begins.
    pub offset: u64,
    /// What is wrong with it.
    pub cause: AuditCause,
}

/// What is wrong with a packet. If several causes apply, an audit gives the first of `Packet`, `Foreign`, `NumberRepeat` and
/// `SerialRepeat`. `NoMemory` comes last: nothing is wrong with the packet, and numbers are absent right before its own.
#[derive(Clone, Copy, Debug, PartialEq, Eq, Error)]
#[error("{} {}", self.code(), self.name())]
pub enum AuditCause {
    /// The bytes there don't start with a packet.
    Packet(PacketFault),
    /// Its number isn't above the one before.
    NumberRepeat,
    /// Its first serial isn't above the last one before.
    SerialRepeat,
    /// It is of another trace or another stream.
    Foreign,
    /// An allocation failed.
    NoMemory,
}

impl AuditCause {
    /// The code that documents call it by.
    pub fn code(&self) -> &'static str
        ensures { result.now ≡ audit_cause_code self.now }
    {
        match self {
            AuditCause::Packet(_) => "A1",
            AuditCause::NumberRepeat => "A2",
            AuditCause::SerialRepeat => "A3",
            AuditCause::Foreign => "A4",
            AuditCause::NoMemory => "A5",
        }
    }

    /// Its name in documents.
    pub fn name(&self) -> &'static str
        ensures { result.now ≡ audit_cause_name self.now }
    {
        match self {
            AuditCause::Packet(_) => "Packet",
            AuditCause::NumberRepeat => "NumberRepeat",
            AuditCause::SerialRepeat => "SerialRepeat",
            AuditCause::Foreign => "Foreign",
            AuditCause::NoMemory => "NoMemory",
        }
    }
}

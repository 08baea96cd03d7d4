//! The reader of a script's lines.

ghost use Rattle.std.specs.Prelude.{◌≡◌, ◌+◌, ◌<◌, ◌≤◌, ◌∷◌, [], ℕ, Some, true, false, Ok, Err, IfOk, OnOk, OnErr, length, take, option_map, position};
ghost use Rattle.tr_record.specs.Bytes.{and_then_bytes, once_more};
ghost use Rattle.tr_lines.specs.Lines.{is_feed};
ghost use Rattle.tr_lines.specs.Reading.{BeginsLine, GoesTooFar, ReadsAll, ReadsLine, ReadsOn, SinceBegun, TakesLine, TakesPart, budget, reading};
ghost use Rattle.tr_lines.specs.declared.reader.ReadFault.TheVariants.{Read, NoMemory};
ghost use Rattle.tr_terms.specs.declared.limits.TheConstants.{LONGEST_PIECE, LONGEST_SCRIPT};

use crate::line::Line;
use memchr::memchr;
use std::alloc::{AllocError, Allocator, Global};
use std::marker::Model;
use tr_record::{ByteSource, Failed};
use tr_terms::limits::{LONGEST_PIECE, LONGEST_SCRIPT};

/// Why no line was read.
#[derive(Clone, Copy, Debug, PartialEq, Eq)]
pub enum ReadFault {
    /// The source failed.
    Read,
    /// The script has more than 16,777,216 bytes.
    TooLong,
    /// An allocation failed.
    NoMemory,
}

impl From<Failed> for ReadFault {
    ghost from_gives = { λ _ e. e ≡ Read };

    fn from(_failed: Failed) -> ReadFault {
        ReadFault::Read
    }
}

impl From<AllocError> for ReadFault {
    ghost from_gives = { λ _ e. e ≡ NoMemory };

    fn from(_error: AllocError) -> ReadFault {
        ReadFault::NoMemory
    }
}

/// What was read.
#[derive(Clone, Copy, Debug, PartialEq, Eq)]
pub enum Found {
    /// A line with its newline.
    Whole,
    /// What follows the last newline, nothing in most scripts.
    Last,
}

/// The place of the first newline, if any.
fn feed_at(bytes: &[u8]) -> Option<usize>
    ensures { result ≡ position is_feed bytes.now }
{
    memchr(b'\n', bytes)
}

/// Gets bytes from the source to the front of the buffer, at most `room`.
fn fill<S: ByteSource>(piece: &mut [u8], room: usize, source: &mut S) -> Result<usize, Failed>
    requires some { 0 < room }
    requires fits { room ≤ length piece.old }
    ensures count { IfOk result (λ n. n ≤ room) }
    ensures given { IfOk result (λ n. S.given source.new ≡ and_then_bytes (S.given source.old) (take n piece.new)) }
    ensures content { S.content source.new ≡ S.content source.old }
    ensures end { result ≡ Ok 0 → S.given source.new ≡ S.content source.new }
    ensures ok { OnOk result (S.failures source.new ≡ S.failures source.old) }
    ensures err { OnErr result (S.given source.new ≡ S.given source.old) }
    ensures failed { OnErr result (S.failures source.new ≡ once_more (S.failures source.old)) }
{
    source.get(&mut piece[..room])
}

/// Reads the lines of a script from a source. It holds one piece of the script and one line, so its memory is the
/// same for every script. Contracts see how far it is.
#[derive(Drop)]
pub struct LineReader<A: Allocator = Global> {
    piece: Vec<u8, A>,
    start: usize,
    end: usize,
    total: usize,
    line: Line<A>,
}

impl<A: Allocator> Model for LineReader<A> {
    ghost use Rattle.std.specs.Prelude.{◌-◌, ◌<◌, ◌≤◌, drop, take, vec_len};
    ghost use Rattle.tr_lines.specs.Reading.{Reading, reading};
    ghost use Rattle.tr_terms.specs.declared.limits.TheConstants.{LONGEST_PIECE, LONGEST_SCRIPT};

    ghost Value = { Reading };

    ghost view = { λ r. reading (take (r.end - r.start) (drop r.start r.piece.items)) r.total r.line };

    ghost invariant = { λ r. (r.start ≤ r.end) × (r.end ≤ vec_len r.piece) × (0 < vec_len r.piece)
        × (r.total ≤ LONGEST_SCRIPT) × (vec_len r.piece ≤ LONGEST_PIECE) };
}

impl<A: Allocator> LineReader<A> {
    /// The text of the line that was read last. None for a bad line: it has more than 4,096 bytes without its newline, or a
    /// byte outside 0x20 to 0x7E.
    pub fn text(&self) -> Option<&str>
        ensures { option_map (λ t. t.now) result ≡ self.now.line }
    {
        self.line.text()
    }

    /// Begins a line.
    fn begin(&mut self)
        ensures { self.new ≡ reading self.old.held self.old.total (Some []) }
    {
        self.line.clear();
    }

    /// Moves what is held, up to a newline, into the line, and answers whether there was one. Without one it moves all.
    fn take_part(&mut self) -> Result<bool, AllocError>
        ensures ok { IfOk result (TakesPart self.old self.new) }
        ensures within { self.new.total ≤ LONGEST_SCRIPT }
        ensures held { length self.new.held ≤ LONGEST_PIECE }
        ensures err { OnErr result (self.new ≡ self.old) }
    {
        let held = &self.piece[self.start..self.end];
        match feed_at(held) {
            Some(place) => {
                self.line.keep(&held[..place])?;
                self.start += place + 1;
                Ok(true)
            }
            None => {
                self.line.keep(held)?;
                self.start = self.end;
                Ok(false)
            }
        }
    }

    /// Gets the next piece when nothing is held, and answers whether there was one.
    fn refill<S: ByteSource>(&mut self, source: &mut S) -> Result<bool, ReadFault>
        requires { self.old.held ≡ [] }
        ensures given { OnOk result (S.given source.new ≡ and_then_bytes (S.given source.old) self.new.held) }
        ensures total { OnOk result
            (self.new ≡ reading self.new.held (self.old.total + length self.new.held) self.old.line) }
        ensures some { result ≡ Ok true → 0 < length self.new.held }
        ensures within { self.new.total ≤ LONGEST_SCRIPT }
        ensures content { S.content source.new ≡ S.content source.old }
        ensures end { result ≡ Ok false → (self.new.held ≡ []) × (S.given source.new ≡ S.content source.new) }
        ensures err { OnErr result (self.new ≡ self.old) }
        ensures no_failure { (result ≡ Err ReadFault.Read → ⊥) → S.failures source.new ≡ S.failures source.old }
        ensures read { result ≡ Err ReadFault.Read
            → (S.given source.new ≡ S.given source.old)
            × (S.failures source.new ≡ once_more (S.failures source.old)) }
        ensures too_long { result ≡ Err ReadFault.TooLong
            → (self.old.total ≡ LONGEST_SCRIPT)
            × ((byte : ℕ) × (S.given source.new ≡ and_then_bytes (S.given source.old) (byte ∷ []))) }
        ensures memory { result ≡ Err ReadFault.NoMemory → ⊥ }
    {
        let room = self.piece.len().min(LONGEST_SCRIPT - self.total).max(1);
        let count = fill(&mut self.piece, room, source)?;
        if count > LONGEST_SCRIPT - self.total {
            return Err(ReadFault::TooLong);
        }
        self.start = 0;
        self.end = count;
        self.total += count;
        Ok(count > 0)
    }

    /// Takes the next line if the whole of it is held, and answers whether it is. If not, all that is held is taken as the
    /// beginning of a line, and `read_on` goes on with that.
    ///
    /// If an allocation fails, all is held as before.
    pub fn take_line(&mut self) -> Result<bool, AllocError>
        ensures whole { result ≡ Ok true → TakesLine self.old self.new }
        ensures shrinks { result ≡ Ok true → budget self.new < budget self.old }
        ensures begun { result ≡ Ok false → BeginsLine self.old self.new }
        ensures held { length self.new.held ≤ LONGEST_PIECE }
        ensures err { OnErr result (self.new ≡ reading self.old.held self.old.total (Some [])) }
    {
        self.begin();
        self.take_part()
    }

    /// Goes on with a line that has begun, if nothing else is held: reads the rest of it, or what follows the last newline.
    /// Only this call asks the source for bytes.
    ///
    /// # Errors
    ///
    /// `Read` if the source failed, `TooLong` if a byte came after the longest script, `NoMemory` if an allocation failed.
    /// What had come of that line is lost, and nothing else: the next line is what comes after it.
    pub fn read_on<S: ByteSource>(&mut self, source: &mut S) -> Result<Found, ReadFault>
        requires { self.old.held ≡ [] }
        ensures whole { result ≡ Ok Found.Whole
            → SinceBegun self.old (λ begun. ReadsLine (S.given source.old) (S.given source.new) begun self.new) }
        ensures shrinks { result ≡ Ok Found.Whole → budget self.new < budget self.old }
        ensures last { result ≡ Ok Found.Last
            → SinceBegun self.old (λ begun. ReadsAll (S.given source.old) (S.given source.new) begun self.new)
            × (S.given source.new ≡ S.content source.new) }
        ensures content { S.content source.new ≡ S.content source.old }

        ensures read { result ≡ Err ReadFault.Read
            → SinceBegun self.old (λ begun. ReadsAll (S.given source.old) (S.given source.new) begun self.new)
            × (S.failures source.new ≡ once_more (S.failures source.old)) }
        ensures too_long { result ≡ Err ReadFault.TooLong
            → SinceBegun self.old (λ begun. GoesTooFar (S.given source.old) (S.given source.new) begun self.new) }
        ensures memory { result ≡ Err ReadFault.NoMemory
            → SinceBegun self.old (λ begun. ReadsOn (S.given source.old) (S.given source.new) begun self.new) }
        ensures no_failure { (result ≡ Err ReadFault.Read → ⊥) → S.failures source.new ≡ S.failures source.old }
        ensures held { length self.new.held ≤ LONGEST_PIECE }
    {
        'pieces: loop {
            if !self.refill(source)? {
                return Ok(Found::Last);
            }
            if self.take_part()? {
                return Ok(Found::Whole);
            }
        }
    }
}

impl<A: Allocator + Copy> LineReader<A> {
    /// A reader that has read nothing. Fails if an allocation fails.
    pub fn new(alloc: A) -> Result<Self, AllocError>
        ensures { IfOk result (λ r. r ≡ reading [] 0 (Some [])) }
    {
        Ok(LineReader {
            piece: vec![in alloc; 0; LONGEST_PIECE]?,
            start: 0,
            end: 0,
            total: 0,
            line: Line::new(alloc),
        })
    }
}

//! The trace that an image names.

ghost use Rattle.std.specs.Prelude.{◌≡◌, ◌≤◌, Some, None, IfErr, IfOk, MatchOption, false, true, length, take};
ghost use Rattle.std.specs.Option.{option_map};
ghost use Rattle.tr_folders.specs.Failures.{after_reading};
ghost use Rattle.tr_folders.specs.Tree.{File, Tree};
ghost use Rattle.tr_folders.specs.declared.faults.ReadFault.TheVariants.{Unreadable};
ghost use Rattle.tr_image.specs.Traces.{is_wanted, opened, part_at, trace_at, trace_before, trace_in, trace_of};

use std::alloc::{AllocError, Global};
use std::marker::Model;
use tr_folders::{Folders, ReadFault, buffer_of, read_front};
use tr_metadata::LONGEST_METADATA;
use tr_packet::metadata_text;
use tr_record::u64_at;
use tr_survey::{Naming, naming_by};
use uuid::Uuid;

/// What a file of rings begins with. Two numbers follow: how far from its beginning the metadata is, and its size.
const OPENING: &[u8] = b"tracerd rings 1\0";

/// How many bytes an opening has, with the numbers.
const OPENING_SIZE: usize = 32;

/// How many bytes from an opening on are looked at for its metadata.
const REACH: usize = OPENING_SIZE + LONGEST_METADATA;

/// How many bytes of an image are looked at together.
const WINDOW: usize = 2 * REACH;

/// A trace: its identifier, and the text by which its records are read. Contracts see a `TraceState`.
#[derive(Drop)]
pub struct Trace {
    uuid: Uuid,
    metadata: Vec<u8>,
}

impl Model for Trace {
    ghost use Rattle.tr_image.specs.Traces.{TraceState};

    ghost Value = { TraceState };

    ghost view = { λ t. record { uuid = t.uuid; metadata = t.metadata.items } };
}

impl Trace {
    ghost use Rattle.tr_image.specs.Traces.{untyped};

    /// A trace of which nothing is declared.
    pub fn untyped(alloc: Global, uuid: &Uuid) -> Result<Trace, AllocError>
        ensures { IfOk result (λ trace. trace ≡ untyped uuid.now) }
    {
        let text = metadata_text(alloc, uuid)?;
        let metadata = text.as_bytes().to_vec(alloc)?;
        Ok(Trace {
            uuid: *uuid,
            metadata,
        })
    }

    /// Its identifier.
    pub fn uuid(&self) -> &Uuid
        ensures { result.now ≡ self.now.uuid }
    {
        &self.uuid
    }

    /// The text by which its records are read.
    pub fn into_metadata(self) -> Vec<u8>
        ensures { result.items ≡ self.metadata }
    {
        let Trace { metadata, .. } = self;
        metadata
    }
}

/// The part of memory at a place, of a size, if memory has it.
fn part_at(memory: &[u8], place: u64, size: u64) -> Option<&[u8]>
    ensures { option_map (λ p. p.now) result ≡ part_at place size memory.entry.now }
{
    let len = memory.len() as u64;
    if place > len || size > len - place {
        return None;
    }
    let (_, rest) = memory.split_at(place as usize);
    let (part, _) = rest.split_at(size as usize);
    Some(part)
}

/// The metadata to which memory opens.
#[tactic(auto, unfolding(crate::specs::Traces::opened))]
fn opened(memory: &[u8]) -> Option<&[u8]>
    ensures { option_map (λ t. t.now) result ≡ opened memory.entry.now }
{
    let rest = memory.strip_prefix(OPENING)?;
    let (place, rest) = u64_at(rest)?;
    let (size, _) = u64_at(rest)?;
    part_at(memory, place, size)
}

/// Whether a trace is the one that is wanted, or any is.
fn is_wanted(wanted: Option<&Uuid>, uuid: &Uuid) -> bool
    ensures { result ≡ is_wanted (option_map (λ u. u.now) wanted.entry) uuid.now }
{
    match wanted {
        Some(own) => own == uuid,
        None => true,
    }
}

/// The trace that a text names, if it is the recorder's metadata, and of the trace that is wanted.
fn trace_of(alloc: Global, wanted: Option<&Uuid>, text: &[u8]) -> Result<Option<Trace>, AllocError>
    ensures { IfOk result (λ trace. trace ≡ trace_of (option_map (λ u. u.now) wanted.entry) text.now) }
{
    let Naming::Named(uuid) = naming_by(alloc, text)? else {
        return Ok(None);
    };
    if !is_wanted(wanted, &uuid) {
        return Ok(None);
    }
    let metadata = text.to_vec(alloc)?;
    Ok(Some(Trace { uuid, metadata }))
}

/// The first bytes of memory, at most so many.
fn front_of(memory: &[u8], most: usize) -> &[u8]
    ensures { result.now ≡ take most memory.entry.now }
{
    if memory.len() <= most {
        return memory;
    }
    let (front, _) = memory.split_at(most);
    front
}

/// The trace to whose metadata memory opens.
fn trace_at(
    alloc: Global,
    wanted: Option<&Uuid>,
    memory: &[u8],
) -> Result<Option<Trace>, AllocError>
    ensures { IfOk result (λ trace. trace ≡ trace_at (option_map (λ u. u.now) wanted.entry) memory.now) }
{
    match opened(front_of(memory, REACH)) {
        Some(text) => trace_of(alloc, wanted, text),
        None => Ok(None),
    }
}

/// The first trace that these bytes open to at one of the first `until` places.
fn trace_before(
    alloc: Global,
    wanted: Option<&Uuid>,
    bytes: &[u8],
    until: usize,
) -> Result<Option<Trace>, AllocError>
    requires { until ≤ length bytes.now }
    ensures { IfOk result (λ trace. trace ≡ trace_before until (option_map (λ u. u.now) wanted.entry) bytes.now) }
{
    'places: for at in 0..until {
        let (_, memory) = bytes.split_at(at);
        let trace = trace_at(alloc, wanted, memory)?;
        if trace.is_some() {
            return Ok(trace);
        }
    }
    Ok(None)
}

/// The first trace that the open file names, which is read through the window.
fn trace_left<F: Folders>(
    alloc: Global,
    wanted: Option<&Uuid>,
    folders: &mut F,
    window: &mut [u8],
) -> Result<Option<Trace>, ReadFault>
    requires { length window.old ≡ WINDOW }
    ensures found { IfOk result (λ trace. (file : File) → F.left folders.old ≡ Some file
        → (trace ≡ trace_in (option_map (λ u. u.now) wanted.entry) file.bytes) × (trace ≡ None → file.breaks ≡ false)) }
    ensures broken { IfErr result (λ fault. fault ≡ Unreadable → (file : File) → F.left folders.old ≡ Some file
        → file.breaks ≡ true) }
    ensures tree { F.tree folders.new ≡ F.tree folders.old }
    ensures failures { F.failures folders.new ≡ after_reading result (F.failures folders.old) }
{
    let mut len = 0;
    loop {
        let (_, room) = window.split_at_mut(len);
        len += read_front(folders, room)?;
        if len < WINDOW {
            let (bytes, _) = window.split_at(len);
            return Ok(trace_before(alloc, wanted, bytes, len)?);
        }
        let trace = trace_before(alloc, wanted, window, REACH)?;
        if trace.is_some() {
            return Ok(trace);
        }
        window.copy_within(REACH..WINDOW, 0);
        len = REACH;
    }
}

/// The first trace that an image names, the file of this path: by the metadata of a file of rings, wherever one begins in it; or the
/// first of this identifier, if one is wanted. `None` if it names none.
///
/// # Errors
///
/// `Unreadable` if there is no file, or it can't be read, and if an allocation fails.
pub fn named_trace<F: Folders>(
    alloc: Global,
    wanted: Option<&Uuid>,
    folders: &mut F,
    path: &str,
) -> Result<Option<Trace>, ReadFault>
    ensures found { IfOk result (λ trace. (t : Tree) → F.tree folders.old ≡ Some t
        → MatchOption (t.file path.now) ⊥ (λ file.
        (trace ≡ trace_in (option_map (λ u. u.now) wanted.entry) file.bytes) × (trace ≡ None → file.breaks ≡ false))) }
    ensures broken { IfErr result (λ fault. fault ≡ Unreadable → (t : Tree) → F.tree folders.old ≡ Some t
        → MatchOption (t.file path.now) Unit (λ file. file.breaks ≡ true)) }
    ensures tree { F.tree folders.new ≡ F.tree folders.old }
    ensures failures { F.failures folders.new ≡ after_reading result (F.failures folders.old) }
{
    if !folders.open(path)? {
        return Err(ReadFault::Unreadable);
    }
    let mut window = buffer_of(alloc, WINDOW)?;
    Ok(trace_left(alloc, wanted, folders, &mut window)?)
}

//! The threads that had a stream's producer.

ghost use Rattle.std.specs.Prelude.{◌≡◌, ◌++◌, ◌∷◌, ◌≤◌, [], length, take, Some, None, IfOk, MatchOption, OnOk, option_map};
ghost use Rattle.std.specs.String.{string_bytes};
ghost use Rattle.tr_picture.specs.Threads.{name_in, no_threads, others_text, thread_of, threads_after, threads_text, until_zero, with_name};

use crate::files::bytes_of;
use crate::page::{push, push_escaped_bytes};
use std::alloc::{AllocError, Global};
use std::marker::Model;
use tr_packet::PacketView;
use tr_record::RecView;

/// The id of the record in which a thread that was lent a producer says its name.
const THREAD_BEGIN: u32 = 4_294_967_293;

/// The bytes of a name that are shown.
const MOST_SHOWN: usize = 64;

/// The bytes of the thread's number after the name and its zero.
const NUMBER: usize = 4;

/// The first thread's name, as far as it is shown, and how many said theirs. Contracts see these.
#[derive(Drop)]
pub(crate) struct Threads {
    first: Vec<u8>,
    count: u64,
}

impl Model for Threads {
    ghost use Rattle.tr_picture.specs.Threads.{Threads, threads};

    ghost Value = { Threads };

    ghost view = { λ t. threads t.first.items t.count };
}

/// What bytes have before their first zero.
fn until_zero(bytes: &[u8]) -> &[u8]
    ensures text { result.now ≡ until_zero bytes.now }
    ensures fits { length result.now ≤ length bytes.now }
{
    let mut at = 0;
    while at < bytes.len() && bytes[at] != 0 {
        at += 1;
    }
    let (text, _) = bytes.split_at(at);
    text
}

/// The name in the payload of a thread_begin.
fn name_in(payload: &[u8]) -> Option<&[u8]>
    ensures { option_map (λ n. n.now) result ≡ name_in payload.now }
{
    let name = until_zero(payload);
    if payload.len() - name.len() == 1 + NUMBER {
        Some(name)
    } else {
        None
    }
}

/// The name that a record says.
fn thread_of<'a>(event: &RecView<'a>) -> Option<&'a [u8]>
    ensures { option_map (λ n. n.now) result ≡ thread_of event.now }
{
    if event.id() == THREAD_BEGIN {
        name_in(event.payload())
    } else {
        None
    }
}

/// What is shown of a name.
fn shown_of(alloc: Global, name: &[u8]) -> Result<Vec<u8>, AllocError>
    ensures { IfOk result (λ shown. shown.items ≡ take 64 name.now) }
{
    if name.len() <= MOST_SHOWN {
        return bytes_of(alloc, name);
    }
    let (shown, _) = name.split_at(MOST_SHOWN);
    bytes_of(alloc, shown)
}

impl Threads {
    /// None yet. It takes no memory.
    pub(crate) fn none(alloc: Global) -> Threads
        ensures { result ≡ no_threads }
    {
        Threads {
            first: Vec::new(alloc),
            count: 0,
        }
    }

    /// Adds a thread of this name.
    fn add(&mut self, alloc: Global, name: &[u8]) -> Result<(), AllocError>
        ensures { OnOk result (self.new ≡ with_name self.old name.now) }
    {
        if self.count == 0 {
            self.first = shown_of(alloc, name)?;
        }
        self.count = self.count.saturating_add(1);
        Ok(())
    }

    /// Adds those that say their names in a packet.
    pub(crate) fn add_packet(
        &mut self,
        alloc: Global,
        packet: &PacketView<'_>,
    ) -> Result<(), AllocError>
        ensures { OnOk result (self.new ≡ threads_after self.old packet.now.records) }
    {
        for record in packet.records() {
            if let Some(name) = thread_of(&record) {
                self.add(alloc, name)?;
            }
        }
        Ok(())
    }
}

/// How many there are beside the first.
fn others_text(alloc: Global, count: u64) -> Result<String, AllocError>
    ensures { IfOk result (λ s. string_bytes s ≡ others_text count) }
{
    if count == 1 {
        return Ok(String::new(alloc));
    }
    let others = count.saturating_sub(1);
    format!(in alloc; " +{others}")
}

/// Adds the first one's name, and how many more there are.
pub(crate) fn push_threads(
    alloc: Global,
    page: &mut Vec<u8>,
    threads: &Threads,
) -> Result<(), AllocError>
    ensures { OnOk result (page.new.items ≡ page.old.items ++ threads_text threads.now) }
{
    if threads.count == 0 {
        return Ok(());
    }
    let others = others_text(alloc, threads.count)?;
    push(page, " ")?;
    push_escaped_bytes(page, &threads.first)?;
    push(page, others.as_str())
}

//! What a session is made with.

use std::alloc::{Allocator, Global};
use tr_events::Events;
use tr_terms::{Mode, Name, OffsetMinutes, SessionMode};
use uuid::Uuid;

/// A channel that is to be added, and how many threads it gets.
#[derive(Drop)]
pub struct ChannelConfig<'a> {
    /// The name of the channel.
    pub name: Name<'a>,
    /// The size of a sub-buffer in bytes.
    pub size: u64,
    /// How many sub-buffers a ring has.
    pub count: u64,
    /// What a full ring does.
    pub mode: Mode,
    /// How many threads are added to it.
    pub threads: u64,
}

/// What a session is made with: its events are declared, and then its channels are added in order, each before its threads.
#[derive(Drop)]
pub struct Config<'a, A: Allocator = Global> {
    /// The identifier of the trace.
    pub uuid: Uuid,
    /// How many minutes the clock of archives' names is ahead of UTC.
    pub offset: OffsetMinutes,
    /// What becomes of packets.
    pub mode: SessionMode,
    /// What it declares; `Events::none` if it declares nothing.
    pub events: Events<A>,
    /// The channels.
    pub channels: Vec<ChannelConfig<'a>, A>,
}

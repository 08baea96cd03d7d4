//! The session of a load.

ghost use Rattle.std.specs.Prelude.{◌≡◌, IfOk, Ok, length};
ghost use Rattle.tr_load.specs.Plans.{load_session};

use crate::loaded::LoadFault;
use std::alloc::Global;
use tr_events::Events;
use tr_session::{ChannelConfig, Config};
use tr_shared::{Plan, plan_watched};
use tr_terms::{Mode, Name, OffsetMinutes, SessionMode};
use uuid::Uuid;

/// The bytes of a sub-buffer.
const SIZE: u64 = 65_536;

/// How many sub-buffers a ring has.
const COUNT: u64 = 2;

/// The identifier of every load's trace: 00000000-0000-4000-8000-000000000001.
const IDENTIFIER: [u8; 16] = [0, 0, 0, 0, 0, 0, 64, 0, 128, 0, 0, 0, 0, 0, 0, 1];

/// The plan of a load's session: local, at offset 0, with so many watchers and the channel `load`. That has a stream for each
/// thread, with `COUNT` sub-buffers of `SIZE` bytes, in discard mode.
///
/// # Errors
///
/// `NoMemory`. `Misplaced` if there are more than `MOST_STREAMS` threads.
pub fn load_plan(alloc: Global, threads: u64, watchers: usize) -> Result<Plan, LoadFault>
    ensures session { IfOk result (λ p. load_session threads ≡ Ok p.session) }
    ensures books { IfOk result (λ p. length p.books ≡ length p.session.streams) }
    ensures watched { IfOk result (λ p. p.tally.watchers ≡ watchers) }
{
    let Some(name) = Name::new("load") else {
        unreachable!()
    };
    let Some(offset) = OffsetMinutes::new(0) else {
        unreachable!()
    };
    let channel = ChannelConfig {
        name,
        size: SIZE,
        count: COUNT,
        mode: Mode::Discard,
        threads,
    };
    let mut channels = Vec::with_capacity(alloc, 1)?;
    channels.push_reserved(channel);
    let config = Config {
        uuid: Uuid::from_bytes(IDENTIFIER),
        offset,
        mode: SessionMode::Local,
        events: Events::none(alloc),
        channels,
    };
    Ok(plan_watched(alloc, &config, watchers)?)
}

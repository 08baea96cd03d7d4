//! Texts that are copied out.

ghost use Rattle.std.specs.Prelude.{◌≡◌, ◌-◌, ◌^◌, length, min};
ghost use Rattle.tr_packet.specs.Texts.{packets_text};
ghost use Rattle.tr_border.specs.Texts.{CopiesOn, CopiesWhole, copied, room_after};

use crate::codes::{DONE, NO_ROOM};
use std::alloc::Global;
use tr_packet::PacketText;

/// Copies a whole text, and says how many bytes it has; or does nothing if it doesn't fit.
pub fn copy_whole(text: &[u8], room: &mut [u8], count: &mut u64) -> u32
    ensures { CopiesWhole text.now result room.old room.new count.old count.new }
{
    if text.len() > room.len() {
        return NO_ROOM;
    }
    room[..text.len()].copy_from_slice(text);
    *count = text.len() as u64;
    DONE
}

/// Copies bytes of a text from the place `at` on, as many as there are and as fit. How many these are.
pub fn copy_from(text: &[u8], at: u64, room: &mut [u8]) -> u64
    ensures count { result ≡ copied at text.now room.old }
    ensures room { room.new ≡ room_after at text.now room.old }
{
    let at = at.min(text.len() as u64) as usize;
    let (_, left) = text.split_at(at);
    let count = left.len().min(room.len());
    room[..count].copy_from_slice(&left[..count]);
    count as u64
}

/// A place in the texts of packets, one after another. All zeros are the first byte.
#[repr(C)]
#[derive(Drop, Clone, Copy)]
pub struct Place {
    /// How many packets are passed over,
    pub packet: u64,
    /// and how many bytes after these.
    pub at: u64,
}

/// Copies bytes of the texts of packets from a place on, as many as there are and as fit, and moves the place past them. No
/// packet before it is looked at, and none after the last byte. How many bytes these are.
pub fn copy_on(texts: &[PacketText<Global>], place: &mut Place, room: &mut [u8]) -> u64
    ensures { CopiesOn texts.now place.old place.new result room.old room.new }
{
    let mut done = 0;
    let first = place.packet.min(texts.len() as u64) as usize;
    for text in &texts[first..] {
        let size = text.text().len() as u64;
        let count = copy_from(text.text(), place.at, &mut room[done..]);
        done += count as usize;
        place.at += count;
        if place.at < size {
            break;
        }
        place.packet += 1;
        place.at -= size;
    }
    done as u64
}

/// How many bytes these have, or 2^64 - 1 if they are more.
pub fn packets_len(texts: &[PacketText<Global>]) -> u64
    ensures { result ≡ min (length (packets_text texts.now)) (2 ^ 64 - 1) }
{
    let mut size = 0_u64;
    for text in texts {
        size = size.saturating_add(text.text().len() as u64);
    }
    size
}

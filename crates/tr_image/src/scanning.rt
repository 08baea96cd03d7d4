//! An image, read by windows.

ghost use Rattle.std.specs.Prelude.{◌≡◌, ◌≤◌, Some, None, IfErr, IfOk, OnOk, MatchOption, false, true, length};
ghost use Rattle.tr_folders.specs.Failures.{after_reading};
ghost use Rattle.tr_folders.specs.Tree.{File, Tree};
ghost use Rattle.tr_folders.specs.declared.faults.ReadFault.TheVariants.{Unreadable};
ghost use Rattle.tr_record.specs.Whole.{AreBytes};
ghost use Rattle.tr_image.specs.Image.{packets_before};
ghost use Rattle.tr_image.specs.Kept.{gathered, recovered_from};

use crate::image::packet_at;
use crate::kept::place;
use std::alloc::{AllocError, Global};
use tr_folders::{Folders, ReadFault, buffer_of, read_front};
use tr_packet::PacketText;
use tr_terms::limits::LARGEST_PACKET;
use uuid::Uuid;

/// How many bytes of an image are looked at together: a packet that begins in the first half of them ends among them.
const WINDOW: usize = 2 * LARGEST_PACKET;

/// Keeps the packets of a trace that are at the first `until` places of these bytes.
fn gather(
    alloc: Global,
    uuid: &Uuid,
    kept: &mut Vec<PacketText>,
    bytes: &[u8],
    until: usize,
) -> Result<(), AllocError>
    requires { until ≤ length bytes.now }
    ensures { OnOk result (kept.new.items ≡ gathered kept.old.items (packets_before until uuid.now bytes.now)) }
{
    'places: for at in 0..until {
        let (_, memory) = bytes.split_at(at);
        if let Some(packet) = packet_at(alloc, uuid, memory)? {
            place(kept, packet)?;
        }
    }
    Ok(())
}

/// The packets of a trace that are in the open file, which is read through the window.
fn gather_all<F: Folders>(
    alloc: Global,
    uuid: &Uuid,
    folders: &mut F,
    window: &mut [u8],
) -> Result<Vec<PacketText>, ReadFault>
    requires { length window.old ≡ WINDOW }
    ensures found { IfOk result (λ kept. (file : File) → F.left folders.old ≡ Some file → AreBytes file.bytes
        → (kept.items ≡ recovered_from uuid.now file.bytes) × (file.breaks ≡ false)) }
    ensures broken { IfErr result (λ fault. fault ≡ Unreadable → (file : File) → F.left folders.old ≡ Some file
        → file.breaks ≡ true) }
    ensures tree { F.tree folders.new ≡ F.tree folders.old }
    ensures failures { F.failures folders.new ≡ after_reading result (F.failures folders.old) }
{
    let mut kept = Vec::new(alloc);
    let mut len = 0;
    loop {
        let (_, room) = window.split_at_mut(len);
        len += read_front(folders, room)?;
        if len < WINDOW {
            let (bytes, _) = window.split_at(len);
            gather(alloc, uuid, &mut kept, bytes, len)?;
            return Ok(kept);
        }
        gather(alloc, uuid, &mut kept, window, LARGEST_PACKET)?;
        window.copy_within(LARGEST_PACKET..WINDOW, 0);
        len = LARGEST_PACKET;
    }
}

/// The packets of a trace that are in an image, the file of this path: of each stream and number the one with the most records,
/// in the order of streams and numbers. `None` if there is no file. They are copies, so an image that is all packets takes as much
/// memory.
///
/// # Errors
///
/// If the file can't be read, and if an allocation fails.
pub fn recovered_packets<F: Folders>(
    alloc: Global,
    uuid: &Uuid,
    folders: &mut F,
    path: &str,
) -> Result<Option<Vec<PacketText>>, ReadFault>
    ensures found { IfOk result (λ found. (t : Tree) → F.tree folders.old ≡ Some t
        → MatchOption found (t.file path.now ≡ None) (λ packets. MatchOption (t.file path.now) ⊥
        (λ file. AreBytes file.bytes → (packets.items ≡ recovered_from uuid.now file.bytes) × (file.breaks ≡ false)))) }
    ensures broken { IfErr result (λ fault. fault ≡ Unreadable → (t : Tree) → F.tree folders.old ≡ Some t
        → MatchOption (t.file path.now) ⊥ (λ file. file.breaks ≡ true)) }
    ensures tree { F.tree folders.new ≡ F.tree folders.old }
    ensures failures { F.failures folders.new ≡ after_reading result (F.failures folders.old) }
{
    if !folders.open(path)? {
        return Ok(None);
    }
    let mut window = buffer_of(alloc, WINDOW)?;
    Ok(Some(gather_all(alloc, uuid, folders, &mut window)?))
}

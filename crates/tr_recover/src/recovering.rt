//! From an image to an archive.

ghost use Rattle.std.specs.Prelude.{◌≡◌, ℕ, Some, None, IfErr, IfOk, MatchOption, false, true};
ghost use Rattle.std.specs.Option.{option_map};
ghost use Rattle.tr_folders.specs.Failures.{after_reading};
ghost use Rattle.tr_folders.specs.Tree.{Tree};
ghost use Rattle.tr_folders.specs.declared.faults.ReadFault.TheVariants.{Unreadable};
ghost use Rattle.tr_recover.specs.Recovering.{FailedSo, FindsAt, HasBytes, Recovers, Tells, nothing_found, reads_after, said_of, sought, without_image};
ghost use Rattle.tr_recover.specs.declared.faults.RecoverFault.TheVariants.{Write};

use crate::faults::{RecoverFault, Recovered};
use crate::lines::recovered_text;
use crate::writing::write_recovered;
use std::alloc::Global;
use std::marker::Model;
use tr_export::Disk;
use tr_folders::{Folders, ReadFault};
use tr_image::{Trace, named_trace, recovered_packets};
use tr_packet::PacketText;
use tr_record::{ByteSink, put_all};
use uuid::Uuid;

/// The packets of a trace that were found, and the text by which their records are read. Contracts see a `FoundState`.
#[derive(Drop)]
struct Found {
    metadata: Vec<u8>,
    packets: Vec<PacketText>,
}

impl Model for Found {
    ghost use Rattle.tr_recover.specs.Recovering.{FoundState};

    ghost Value = { FoundState };

    ghost view = { λ f. record { metadata = f.metadata.items; packets = f.packets.items } };
}

impl Found {
    /// Nothing was found.
    fn nothing(alloc: Global) -> Found
        ensures { result ≡ nothing_found }
    {
        Found {
            metadata: Vec::new(alloc),
            packets: Vec::new(alloc),
        }
    }

    /// What it comes to.
    fn said(&self) -> Recovered
        ensures { result ≡ said_of self.now.packets }
    {
        if self.packets.is_empty() {
            Recovered::Nothing
        } else {
            Recovered::Done
        }
    }
}

/// What a fault of reading an image comes to: nothing was found, since it can't be read, or why that isn't known.
fn without_image(fault: ReadFault) -> Result<Option<Found>, RecoverFault>
    ensures { result ≡ without_image fault }
{
    match fault {
        ReadFault::Unreadable => Ok(None),
        ReadFault::TooMuch => Err(RecoverFault::TooMuch),
        ReadFault::NoMemory => Err(RecoverFault::NoMemory),
    }
}

/// The trace that is looked for in an image: the one that is wanted, or the first that the image names.
fn sought<F: Folders>(
    alloc: Global,
    folders: &mut F,
    wanted: Option<&Uuid>,
    image: &str,
) -> Result<Option<Trace>, ReadFault>
    ensures found { IfOk result (λ trace. (t : Tree) → F.tree folders.old ≡ Some t
        → MatchOption (t.file image.now) ⊥ (λ file.
        (trace ≡ sought (option_map (λ u. u.now) wanted.entry) file.bytes) × (trace ≡ None → file.breaks ≡ false))) }
    ensures broken { IfErr result (λ fault. fault ≡ Unreadable → (t : Tree) → F.tree folders.old ≡ Some t
        → MatchOption (t.file image.now) Unit (λ file. file.breaks ≡ true)) }
    ensures tree { F.tree folders.new ≡ F.tree folders.old }
    ensures failures { F.failures folders.new ≡ after_reading result (F.failures folders.old) }
{
    let named = named_trace(alloc, wanted, folders, image)?;
    match (named, wanted) {
        (None, Some(uuid)) => Ok(Some(Trace::untyped(alloc, uuid)?)),
        (named, _) => Ok(named),
    }
}

/// What is found in an image. `None` if it can't be read.
fn found_at<F: Folders>(
    alloc: Global,
    folders: &mut F,
    wanted: Option<&Uuid>,
    image: &str,
) -> Result<Option<Found>, RecoverFault>
    ensures found { IfOk result (λ found. (t : Tree) → F.tree folders.old ≡ Some t → HasBytes (t.file image.now)
        → FindsAt (option_map (λ u. u.now) wanted.entry) (t.file image.now) found) }
    ensures no_write { IfErr result (λ fault. fault ≡ Write → ⊥) }
    ensures tree { F.tree folders.new ≡ F.tree folders.old }
    ensures reads { F.failures folders.new ≡ reads_after result (F.failures folders.old) }
{
    let trace = match sought(alloc, folders, wanted, image) {
        Ok(Some(trace)) => trace,
        Ok(None) => return Ok(Some(Found::nothing(alloc))),
        Err(fault) => return without_image(fault),
    };
    match recovered_packets(alloc, trace.uuid(), folders, image) {
        Ok(Some(packets)) => Ok(Some(Found {
            metadata: trace.into_metadata(),
            packets,
        })),
        Ok(None) => Ok(None),
        Err(fault) => without_image(fault),
    }
}

/// Says what was found, and then writes its archive.
fn tell<K: ByteSink, D: Disk>(
    alloc: Global,
    disk: &mut D,
    out: &mut K,
    dir: &str,
    found: &Found,
) -> Result<(), RecoverFault>
    ensures tells { Tells dir.now found.now result (K.taken out.old) (K.taken out.new) (D.made disk.old) (D.made disk.new) }
    ensures failures { FailedSo result (K.failures out.old) (K.failures out.new) (D.failures disk.old) (D.failures disk.new) }
    ensures reads { (n : ℕ) → reads_after result n ≡ n }
{
    let text = recovered_text(alloc, &found.packets)?;
    if put_all(out, text.as_bytes()).is_err() {
        return Err(RecoverFault::Write);
    }
    write_recovered(alloc, disk, dir, &found.metadata, &found.packets)?;
    Ok(())
}

/// Finds the packets of a trace in an image, the file of this path, says of each stream how many it has and which numbers are absent
/// (`gap 0 3 2`, `stream 0 packets 7 records 210 absent 2 lost 0`), and writes their archive, as `write_recovered` does. The trace is
/// the one that is wanted; or the first that the image names, by the beginning of a file of rings, whose metadata the archive then
/// has. If the image names the wanted one nowhere, the archive's metadata declare no event.
///
/// # Errors
///
/// `TooMuch` once 2^62 bytes of files were read, `NoMemory` if an allocation fails, `Write` if what is said can't be written, or the
/// archive: the archive is begun only when all was said, and what of it was written before stays.
pub fn recover<F: Folders, D: Disk, K: ByteSink>(
    alloc: Global,
    folders: &mut F,
    disk: &mut D,
    out: &mut K,
    wanted: Option<&Uuid>,
    image: &str,
    dir: &str,
) -> Result<Recovered, RecoverFault>
    ensures recovers { (t : Tree) → F.tree folders.old ≡ Some t → HasBytes (t.file image.now)
        → Recovers (option_map (λ u. u.now) wanted.entry) dir.now (t.file image.now) result (K.taken out.old) (K.taken out.new)
        (D.made disk.old) (D.made disk.new) }
    ensures tree { F.tree folders.new ≡ F.tree folders.old }
    ensures reads { F.failures folders.new ≡ reads_after result (F.failures folders.old) }
    ensures failures { FailedSo result (K.failures out.old) (K.failures out.new) (D.failures disk.old) (D.failures disk.new) }
{
    match found_at(alloc, folders, wanted, image)? {
        None => Ok(Recovered::Unreadable),
        Some(found) => {
            tell(alloc, disk, out, dir, &found)?;
            Ok(found.said())
        }
    }
}

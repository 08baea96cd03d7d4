//! Packets that are written after others, as a stream writes them.

ghost use Rattle.std.specs.Prelude.{◌≡◌, ◌∷◌, [], ◌++◌};

use std::alloc::Global;
use std::mem;
use std::process::Abort;
use tr_book::Parts;
use tr_packet::{Packet, PacketText, decode_packet, encode_packet};

/// The text of a packet.
fn text_of(rt: &impl Abort, alloc: Global, packet: &Packet) -> PacketText
    ensures { result ≡ packet.now }
{
    let bytes = encode_packet(alloc, packet).expect(rt, "memory");
    let (view, _) = decode_packet(&bytes).expect(rt, "a packet");
    assert!(rt; view.head() == packet.head());
    let text = PacketText::copy_of(alloc, view.head(), view.count(), &view.records());
    text.expect(rt, "memory")
}

/// Writes a packet after others.
pub fn put(rt: &impl Abort, alloc: Global, texts: &mut Vec<PacketText>, packet: &Packet)
    ensures { texts.new.items ≡ texts.old.items ++ packet.now ∷ [] }
{
    texts.push(text_of(rt, alloc, packet)).expect(rt, "memory");
}

/// All bytes of the texts of packets, one after another.
pub fn bytes_of(rt: &impl Abort, alloc: Global, texts: &[PacketText]) -> Vec<u8> {
    let mut bytes = Vec::new(alloc);
    for text in texts {
        bytes.extend_from_slice(text.text()).expect(rt, "memory");
    }
    bytes
}

/// Writes a packet after those of the current part.
pub fn put_in_part(rt: &impl Abort, alloc: Global, parts: &mut Parts, packet: &Packet) {
    let text = text_of(rt, alloc, packet);
    assert!(rt; !parts.current().is_released() && parts.current().records() < 1000);
    assert!(rt; text.count() < 1000);
    let Ok(ready) = mem::replace(parts, Parts::new(alloc)).ready(1) else {
        panic!(rt; "memory")
    };
    *parts = ready.push(text);
}

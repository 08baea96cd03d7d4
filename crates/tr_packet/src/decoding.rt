//! Reading a packet from the front of bytes.

ghost use Rattle.std.specs.Prelude.{◌≡◌, ◌/◌, ◌↔◌, ℕ, List, Ok, Err, Some, None, IfOk, IfErr, drop};
ghost use Rattle.tr_packet.specs.Decoding.{Begins, packet_bits_in, contents_in, first_fault};
ghost use Rattle.tr_packet.specs.Packets.{Contents, packet_size};

use crate::faults::PacketFault;
use crate::fields::{head_in, size_of_front, u64_from};
use crate::layout::{BEGIN_AT, END_AT};
use crate::seen::judge_records;
use crate::view::PacketView;
use tr_terms::limits::PACKET_HEADER;

/// The packet that the first fields give, and the number of bytes that they say it has, or the first fault.
fn packet_in(bytes: &[u8]) -> Result<(PacketView<'_>, usize), PacketFault>
    ensures sound { IfOk result (λ _. first_fault bytes.now ≡ None) }
    ensures packet { IfOk result (λ x. x.0 ≡ contents_in bytes.now) }
    ensures size { IfOk result (λ x. x.1 ≡ packet_bits_in bytes.now / 8) }
    ensures fault { IfErr result (λ f. first_fault bytes.now ≡ Some f) }
{
    let size = size_of_front(bytes)?;
    let (text, _) = bytes.split_at(size);
    let (_, body) = text.split_at(PACKET_HEADER);
    let (count, last_serial) = judge_records(
        body,
        u64_from(bytes, BEGIN_AT),
        u64_from(bytes, END_AT),
    )?;
    let Some(head) = head_in(bytes) else {
        return Err(PacketFault::MomentOrder);
    };
    Ok((PacketView::new(head, count, Some(last_serial), body), size))
}

/// The packet that the bytes start with, and how many bytes it has, whatever follows. If they don't start with a packet,
/// the first fault in the decoder's order. It takes no memory.
pub fn decode_packet(bytes: &[u8]) -> Result<(PacketView<'_>, usize), PacketFault>
    ensures found { IfOk result (λ x. Begins x.0 (drop x.1 bytes.now) bytes.now × (x.1 ≡ packet_size x.0)) }
    ensures only { (p : Contents) (rest : List ℕ) → Begins p rest bytes.now → result ≡ Ok (p, packet_size p) }
    ensures fault { (f : PacketFault) → (result ≡ Err f) ↔ (first_fault bytes.now ≡ Some f) }
{
    packet_in(bytes)
}

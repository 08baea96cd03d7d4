//! What is recovered of an image: laws of `recovered_from`.

ghost use Rattle.std.specs.Prelude.{◌≡◌, ◌<◌, ℕ, List, drop, length};
ghost use Rattle.std.specs.List.{AllByRecursion};
ghost use Rattle.tr_image.specs.Image.{StandsIn};
ghost use Rattle.tr_image.specs.Kept.{AreInOrder, OneOf, StandsFor, recovered_from};
ghost use Rattle.tr_packet.specs.Packets.{Contents};
ghost use Rattle.tr_record.specs.Whole.{AreBytes};
ghost use Rattle.tr_subbuf.specs.Stores.{Stands};

/// Nothing is recovered but packets of the trace that are in the image.
pub fn what_is_recovered_stands_there()
    ensures { (uuid image : List ℕ) → AreBytes image
        → AllByRecursion (λ p. StandsIn p image × (p.head.uuid ≡ uuid)) (recovered_from uuid image) }
{}

/// For each packet of the trace that is in the image, one of its stream and number is recovered that has as many records, or
/// more. It may be another packet: in a damaged image a number may be one that another packet had.
pub fn what_stands_there_is_recovered()
    ensures { (uuid image : List ℕ) (p : Contents) (place : ℕ) → place < length image → Stands p (drop place image)
        → p.head.uuid ≡ uuid → OneOf (StandsFor p) (recovered_from uuid image) }
{}

/// They are in the order of streams and numbers, each number once.
pub fn what_is_recovered_is_in_order()
    ensures { (uuid image : List ℕ) → AreInOrder (recovered_from uuid image) }
{}

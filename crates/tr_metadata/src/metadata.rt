//! The metadata text of a session, with what it declares.

ghost use Rattle.std.specs.Prelude.{◌≡◌, ◌++◌, IfOk, OnOk};
ghost use Rattle.std.specs.List.{flat_map};
ghost use Rattle.std.specs.String.{string_bytes};
ghost use Rattle.uuid.specs.Text.{lower, hyphenated_text};
ghost use Rattle.tr_packet.specs.Metadata.{trace_text};
ghost use Rattle.tr_metadata.specs.Metadata.{front_text, middle_text, back_text, stream_text_by, typed_clock_text, types_text, typed_stream_text, typed_metadata, metadata_with};

use crate::classes::{push, push_classes, push_comment, push_ranges, ranges_of};
use crate::env::push_env;
use crate::ranges::Range;
use std::alloc::{AllocError, Allocator};
use tr_events::{Event, Events};
use uuid::Uuid;

/// The most bytes of a metadata text that is read again. Those of declarations that are as long as they may be are fewer.
pub const LONGEST_METADATA: usize = 4_194_304;

/// The bytes of a metadata text without declarations.
const BYTES: usize = 4_096;

/// The types of numbers.
pub(crate) const PREFACE: &str = "\
/* CTF 1.8 */

typealias integer { size = 8; align = 8; signed = false; } := uint8_t;
typealias integer { size = 32; align = 8; signed = false; } := uint32_t;
typealias integer { size = 64; align = 8; signed = false; } := uint64_t;

";

/// The trace, up to its identifier.
const TRACE_BEGIN: &str = "\
trace {
  major = 1;
  minor = 8;
  uuid = \"";

/// The trace, after its identifier.
const TRACE_END: &str = "\
\";
  byte_order = le;
  packet.header := struct {
    uint32_t magic;
    uint8_t uuid[16];
    uint32_t stream_id;
    uint64_t stream_instance_id;
  };
};

";

/// The clock, and the type of moments.
const CLOCK: &str = "\
clock {
  name = \"moment\";
  freq = 1000000000;
  offset = 0;
  absolute = true;
};

typealias integer {
  size = 64; align = 8; signed = false;
  map = clock.moment.value;
} := moment_t;

";

/// The types of fields.
const TYPES: &str = "\
typealias integer { size = 8; align = 8; signed = false; } := u8_t;
typealias integer { size = 16; align = 8; signed = false; } := u16_t;
typealias integer { size = 32; align = 8; signed = false; } := u32_t;
typealias integer { size = 64; align = 8; signed = false; } := u64_t;
typealias integer { size = 8; align = 8; signed = true; } := i8_t;
typealias integer { size = 16; align = 8; signed = true; } := i16_t;
typealias integer { size = 32; align = 8; signed = true; } := i32_t;
typealias integer { size = 64; align = 8; signed = true; } := i64_t;
typealias integer { size = 8; align = 8; signed = false; base = hex; } := x8_t;
typealias integer { size = 16; align = 8; signed = false; base = hex; } := x16_t;
typealias integer { size = 32; align = 8; signed = false; base = hex; } := x32_t;
typealias integer { size = 64; align = 8; signed = false; base = hex; } := x64_t;
typealias floating_point { exp_dig = 8; mant_dig = 24; align = 8; } := f32_t;
typealias floating_point { exp_dig = 11; mant_dig = 53; align = 8; } := f64_t;
typealias enum : u8_t { no = 0, yes = 1 } := flag_t;
typealias string { encoding = UTF8; } := text_t;
typealias integer { size = 8; align = 8; signed = false; encoding = UTF8; } := char_t;
typealias integer { size = 1; align = 1; signed = false; } := bit_t;
typealias integer {
  size = 63; align = 8; signed = false;
  map = clock.moment.value;
} := moment63_t;

";

/// The packet context, and the event header up to its ranges.
const STREAM_BEGIN: &str = "\
stream {
  id = 0;
  packet.context := struct {
    moment_t timestamp_begin;
    moment_t timestamp_end;
    uint64_t content_size;
    uint64_t packet_size;
    uint64_t packet_seq_num;
    uint64_t events_discarded;
  };
  event.header := struct {
    enum : uint32_t {
";

/// The event header after its ranges.
const STREAM_END: &str = "    } id;
    variant <id> {
      struct { moment_t timestamp; } declared;
      struct { moment63_t timestamp; bit_t id; } other;
    } v;
  };
};

";

/// The class of all that isn't declared.
const OTHER: &str = "\
event {
  name = \"record\";
  id = 0;
  stream_id = 0;
  fields := struct {
    uint64_t serial;
    uint32_t len;
    uint8_t payload[len];
  };
};
";

/// Appends the identifier, in lower-case hyphenated form.
fn push_identifier<A: Allocator>(text: &mut String<A>, uuid: &Uuid) -> Result<(), AllocError>
    ensures { OnOk result (string_bytes text.new ≡ string_bytes text.old ++ hyphenated_text lower uuid.now) }
{
    let mut buffer = Uuid::encode_buffer();
    push(text, uuid.hyphenated().encode_lower(&mut buffer))
}

fn push_trace<A: Allocator>(text: &mut String<A>, uuid: &Uuid) -> Result<(), AllocError>
    ensures { OnOk result (string_bytes text.new ≡ string_bytes text.old ++ trace_text uuid.now) }
{
    push(text, TRACE_BEGIN)?;
    push_identifier(text, uuid)?;
    push(text, TRACE_END)
}

fn push_front<A: Allocator, B: Allocator>(
    text: &mut String<B>,
    events: &Events<A>,
    uuid: &Uuid,
) -> Result<(), AllocError>
    ensures { OnOk result (string_bytes text.new ≡ string_bytes text.old ++ front_text events.now uuid.now) }
{
    push(text, PREFACE)?;
    push_comment(text, events)?;
    push_trace(text, uuid)
}

fn push_stream<A: Allocator, B: Allocator>(
    alloc: B,
    text: &mut String<B>,
    events: &[Event<A>],
) -> Result<(), AllocError>
    ensures { OnOk result (string_bytes text.new ≡ string_bytes text.old ++ typed_stream_text events.now) }
{
    let ranges = ranges_of(alloc, events)?;
    push_stream_by(text, &ranges)
}

fn push_stream_by<A: Allocator>(text: &mut String<A>, ranges: &[Range]) -> Result<(), AllocError>
    ensures { OnOk result (string_bytes text.new ≡ string_bytes text.old ++ stream_text_by ranges.now) }
{
    push(text, STREAM_BEGIN)?;
    push_ranges(text, ranges)?;
    push(text, STREAM_END)
}

fn push_types<A: Allocator, B: Allocator>(
    alloc: B,
    text: &mut String<B>,
    events: &[Event<A>],
) -> Result<(), AllocError>
    ensures { OnOk result (string_bytes text.new
        ≡ string_bytes text.old ++ (typed_clock_text ++ (types_text ++ typed_stream_text events.now))) }
{
    push(text, CLOCK)?;
    push(text, TYPES)?;
    push_stream(alloc, text, events)
}

fn push_middle<A: Allocator, B: Allocator>(
    alloc: B,
    text: &mut String<B>,
    events: &Events<A>,
) -> Result<(), AllocError>
    ensures { OnOk result (string_bytes text.new ≡ string_bytes text.old ++ middle_text events.now) }
{
    push_env(text, events.env())?;
    push_types(alloc, text, events.list())
}

fn push_back<A: Allocator, B: Allocator>(
    text: &mut String<B>,
    events: &Events<A>,
) -> Result<(), AllocError>
    ensures { OnOk result (string_bytes text.new ≡ string_bytes text.old ++ back_text events.now) }
{
    push(text, OTHER)?;
    push_classes(text, events.list())
}

fn push_typed<A: Allocator, B: Allocator>(
    alloc: B,
    text: &mut String<B>,
    events: &Events<A>,
    uuid: &Uuid,
) -> Result<(), AllocError>
    ensures { OnOk result (string_bytes text.new ≡ string_bytes text.old ++ typed_metadata events.now uuid.now) }
{
    push_front(text, events, uuid)?;
    push_middle(alloc, text, events)?;
    push_back(text, events)
}

/// The text that describes to readers of a trace how its packets are laid out, with the trace's identifier in lower-case
/// hyphenated form, the variables of its environment, and the classes of the declared events. Fails if an allocation fails.
#[tactic(auto, unfolding(crate::specs::Metadata::metadata_with))]
pub fn metadata_text<A: Allocator, B: Allocator + Copy>(
    alloc: B,
    events: &Events<A>,
    uuid: &Uuid,
) -> Result<String<B>, AllocError>
    ensures { IfOk result (λ s. string_bytes s ≡ metadata_with events.now uuid.now) }
{
    if events.is_empty() {
        return tr_packet::metadata_text(alloc, uuid);
    }
    let mut text = String::with_capacity(alloc, BYTES)?;
    push_typed(alloc, &mut text, events, uuid)?;
    Ok(text)
}

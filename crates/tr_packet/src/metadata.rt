//! The metadata text of a trace.

ghost use Rattle.std.specs.Prelude.{◌≡◌, ◌++◌, IfOk, OnOk};
ghost use Rattle.std.specs.String.{string_bytes};
ghost use Rattle.uuid.specs.Text.{lower, hyphenated_text};
ghost use Rattle.tr_packet.specs.Metadata.{trace_text, clock_text, stream_text, event_text, metadata_of};

use std::alloc::{AllocError, Allocator};
use uuid::Uuid;

/// The bytes of a metadata text.
const BYTES: usize = 1082;

/// The types of numbers.
const PREFACE: &str = "\
/* CTF 1.8 */

typealias integer { size = 8; align = 8; signed = false; } := uint8_t;
typealias integer { size = 32; align = 8; signed = false; } := uint32_t;
typealias integer { size = 64; align = 8; signed = false; } := uint64_t;

";

/// The trace, up to its identifier.
const TRACE_BEGIN: &str = "\
trace {
  major = 1;
  minor = 8;
  uuid = \"";

/// The trace, after its identifier.
const TRACE_END: &str = "\
\";
  byte_order = le;
  packet.header := struct {
    uint32_t magic;
    uint8_t uuid[16];
    uint32_t stream_id;
    uint64_t stream_instance_id;
  };
};

";

/// The clock, and the type of moments.
const CLOCK: &str = "\
clock {
  name = \"moment\";
  freq = 1000000000;
  offset = 0;
};

typealias integer {
  size = 64; align = 8; signed = false;
  map = clock.moment.value;
} := moment_t;

";

/// The one class of streams.
const STREAM: &str = "\
stream {
  id = 0;
  packet.context := struct {
    moment_t timestamp_begin;
    moment_t timestamp_end;
    uint64_t content_size;
    uint64_t packet_size;
    uint64_t packet_seq_num;
    uint64_t events_discarded;
  };
  event.header := struct {
    uint32_t kind;
    moment_t timestamp;
  };
};

";

/// The one class of events.
const EVENT: &str = "\
event {
  name = \"record\";
  stream_id = 0;
  fields := struct {
    uint64_t serial;
    uint32_t len;
    uint8_t payload[len];
  };
};
";

fn push<A: Allocator>(text: &mut String<A>, more: &str) -> Result<(), AllocError>
    ensures { OnOk result (string_bytes text.new ≡ string_bytes text.old ++ more.now) }
{
    text.push_str(more)
}

/// Appends the identifier, in lower-case hyphenated form.
fn push_identifier<A: Allocator>(text: &mut String<A>, uuid: &Uuid) -> Result<(), AllocError>
    ensures { OnOk result (string_bytes text.new ≡ string_bytes text.old ++ hyphenated_text lower uuid.now) }
{
    let mut buffer = Uuid::encode_buffer();
    push(text, uuid.hyphenated().encode_lower(&mut buffer))
}

fn push_trace<A: Allocator>(text: &mut String<A>, uuid: &Uuid) -> Result<(), AllocError>
    ensures { OnOk result (string_bytes text.new ≡ string_bytes text.old ++ trace_text uuid.now) }
{
    push(text, TRACE_BEGIN)?;
    push_identifier(text, uuid)?;
    push(text, TRACE_END)
}

fn push_classes<A: Allocator>(text: &mut String<A>) -> Result<(), AllocError>
    ensures { OnOk result (string_bytes text.new ≡ string_bytes text.old
        ++ (clock_text ++ (stream_text ++ event_text))) }
{
    push(text, CLOCK)?;
    push(text, STREAM)?;
    push(text, EVENT)
}

/// The text that describes to readers of a trace how its packets are laid out, with the trace's identifier in lower-case
/// hyphenated form. Fails if an allocation fails.
pub fn metadata_text<A: Allocator>(alloc: A, uuid: &Uuid) -> Result<String<A>, AllocError>
    ensures { IfOk result (λ s. string_bytes s ≡ metadata_of uuid.now) }
{
    let mut text = String::with_capacity(alloc, BYTES)?;
    push(&mut text, PREFACE)?;
    push_trace(&mut text, uuid)?;
    push_classes(&mut text)?;
    Ok(text)
}

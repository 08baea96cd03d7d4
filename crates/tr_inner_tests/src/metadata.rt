//! The metadata of a trace.

use tr_packet::metadata_text;
use uuid::Uuid;

/// The metadata of the trace 67e55044-10b1-426f-9247-bb680e5fe0c8, as readers of the standard take it.
const METADATA: &str = "\
/* CTF 1.8 */

typealias integer { size = 8; align = 8; signed = false; } := uint8_t;
typealias integer { size = 32; align = 8; signed = false; } := uint32_t;
typealias integer { size = 64; align = 8; signed = false; } := uint64_t;

trace {
  major = 1;
  minor = 8;
  uuid = \"67e55044-10b1-426f-9247-bb680e5fe0c8\";
  byte_order = le;
  packet.header := struct {
    uint32_t magic;
    uint8_t uuid[16];
    uint32_t stream_id;
    uint64_t stream_instance_id;
  };
};

clock {
  name = \"moment\";
  freq = 1000000000;
  offset = 0;
};

typealias integer {
  size = 64; align = 8; signed = false;
  map = clock.moment.value;
} := moment_t;

stream {
  id = 0;
  packet.context := struct {
    moment_t timestamp_begin;
    moment_t timestamp_end;
    uint64_t content_size;
    uint64_t packet_size;
    uint64_t packet_seq_num;
    uint64_t events_discarded;
  };
  event.header := struct {
    uint32_t kind;
    moment_t timestamp;
  };
};

event {
  name = \"record\";
  stream_id = 0;
  fields := struct {
    uint64_t serial;
    uint32_t len;
    uint8_t payload[len];
  };
};
";

#[test]
fn the_metadata_of_a_trace(rt: HostRuntime) {
    let uuid = Uuid::parse_str("67E55044-10B1-426F-9247-BB680E5FE0C8").expect(&rt, "an identifier");
    let text = metadata_text(rt.alloc(), &uuid).expect(&rt, "memory");
    assert_eq!(&rt; text.as_str(), METADATA);
}

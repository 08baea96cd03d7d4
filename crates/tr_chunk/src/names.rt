//! The names of files.

ghost use Rattle.std.specs.Prelude.{◌≡◌, IfOk};
ghost use Rattle.std.specs.String.{string_bytes};
ghost use Rattle.tr_chunk.specs.Files.{file_name};

use std::alloc::{AllocError, Allocator};
use tr_terms::Name;

/// The name of a stream's file: its channel's, an underscore and its number. Fails if an allocation fails.
pub fn stream_file_name<A: Allocator>(
    alloc: A,
    channel: &Name<'_>,
    stream: u64,
) -> Result<String<A>, AllocError>
    ensures { IfOk result (λ s. string_bytes s ≡ file_name channel.now stream) }
{
    let channel = channel.as_str();
    format!(in alloc; "{channel}_{stream}")
}

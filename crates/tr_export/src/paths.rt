//! The paths of archives.

ghost use Rattle.std.specs.Prelude.{◌≡◌, IfOk};
ghost use Rattle.std.specs.String.{string_bytes};
ghost use Rattle.tr_export.specs.Paths.{folder_of, path_of};

use std::alloc::{AllocError, Allocator};
use tr_terms::Name;

/// The folder of an archive: `DIR/NAME/archives/ARCHIVE`. Fails if an allocation fails.
pub fn archive_folder<A: Allocator>(
    alloc: A,
    dir: &str,
    name: &Name<'_>,
    archive: &str,
) -> Result<String<A>, AllocError>
    ensures { IfOk result (λ s. string_bytes s ≡ folder_of dir.now name.now archive.now) }
{
    let name = name.as_str();
    format!(in alloc; "{dir}/{name}/archives/{archive}")
}

/// The path of a file in a folder: `FOLDER/FILE`. Fails if an allocation fails.
pub fn file_path<A: Allocator>(alloc: A, folder: &str, file: &str) -> Result<String<A>, AllocError>
    ensures { IfOk result (λ s. string_bytes s ≡ path_of folder.now file.now) }
{
    format!(in alloc; "{folder}/{file}")
}

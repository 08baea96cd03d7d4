//! The paths of what is read.

ghost use Rattle.std.specs.Prelude.{◌≡◌, IfOk};
ghost use Rattle.std.specs.String.{string_bytes};
ghost use Rattle.tr_chunk.specs.Files.{file_name};
ghost use Rattle.tr_survey.specs.Paths.{archives_folder, file_path, path_of};

use crate::names::Numbered;
use std::alloc::{AllocError, Global};

/// The folder of a session's archives: `DIR/SESSION/archives`.
pub fn archives_path(alloc: Global, dir: &str, session: &str) -> Result<String, AllocError>
    ensures { IfOk result (λ s. string_bytes s ≡ archives_folder dir.now session.now) }
{
    format!(in alloc; "{dir}/{session}/archives")
}

/// What has this name in a folder: `FOLDER/NAME`.
pub(crate) fn path_in(alloc: Global, folder: &str, name: &str) -> Result<String, AllocError>
    ensures { IfOk result (λ s. string_bytes s ≡ path_of folder.now name.now) }
{
    format!(in alloc; "{folder}/{name}")
}

/// The path of a file in an archive of a folder: `FOLDER/ARCHIVE/FILE`.
pub fn file_path(
    alloc: Global,
    folder: &str,
    archive: &str,
    file: &str,
) -> Result<String, AllocError>
    ensures { IfOk result (λ s. string_bytes s ≡ file_path folder.now archive.now file.now) }
{
    format!(in alloc; "{folder}/{archive}/{file}")
}

/// The path of a stream's file in an archive of a folder.
pub fn stream_path(
    alloc: Global,
    folder: &str,
    archive: &Numbered,
    stream: &Numbered,
) -> Result<String, AllocError>
    ensures { IfOk result (λ s. string_bytes s
        ≡ file_path folder.now (string_bytes archive.now.name) (file_name (string_bytes stream.now.name) stream.now.number)) }
{
    let name = archive.name.as_str();
    let channel = stream.name.as_str();
    let number = stream.number;
    format!(in alloc; "{folder}/{name}/{channel}_{number}")
}

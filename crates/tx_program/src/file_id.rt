// Which file a name means on the machine.
use std::fs;
use std::fs::Metadata;
use std::io::ErrorKind;
use std::os::unix::fs::MetadataExt;
use std::path::Path;
use tx_commands::{FileId, STANDARD_INPUT};

/// The id of the file that a name means. A device, a pipe and a folder have none, nor has what
/// cannot be looked at. Where a link leads nowhere, a file can be made in its place.
pub(crate) fn id_of(rt: &HostRuntime, name: &str) -> Option<FileId> {
    let name = if name == STANDARD_INPUT {
        "/dev/stdin"
    } else {
        name
    };
    match fs::metadata(rt, name) {
        Ok(file) if file.is_file() => Some(id_at(&file, false)),
        Err(e) if e.kind() == ErrorKind::NotFound => {
            let folder = fs::metadata(rt, folder_of(name)).ok()?;
            Some(id_at(&folder, true))
        }
        _ => None,
    }
}

fn id_at(metadata: &Metadata, is_free: bool) -> FileId {
    FileId::new(metadata.dev(), metadata.ino(), is_free)
}

/// The folder of a file.
fn folder_of(name: &str) -> &str {
    match Path::new(name).parent() {
        Some(folder) if !folder.as_str().is_empty() => folder.as_str(),
        _ => ".",
    }
}

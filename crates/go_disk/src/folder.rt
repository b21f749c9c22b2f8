// The folder that a file stands in.
use std::path::Path;
use std::rt::Files;
use std::{fs, io};

// Makes the names in the folder of a file stable. Where the file's name is a link, that is the folder that the file
// itself stands in; to find it takes memory, and a name that is no link takes none.
pub(crate) fn sync_folder<R: Files<File = fs::File> + Alloc>(rt: &R, name: &str) -> io::Result<()> {
    if fs::symlink_metadata(rt, name)?.is_symlink() {
        let path = fs::canonicalize(rt, name)?;
        return fs::open(rt, folder_of(path.as_path().as_str()))?.sync_all();
    }
    fs::open(rt, folder_of(name))?.sync_all()
}

// The folder that a name is in.
fn folder_of(name: &str) -> Path<'_> {
    match Path::new(name).parent() {
        Some(folder) if !folder.as_str().is_empty() => folder,
        _ => Path::new("."),
    }
}

// Fresh folders, and the places in them that a story names.
use std::alloc::AllocError;
use std::io::{self, ErrorKind};
use std::path::{Path, PathBuf};
use std::test::Fail;
use std::{env, fs, process};

/// The folder of a story, and three places in it: of runs the block folder and the folder of each one's record, of a copy its
/// folder, the block folder and the state folder.
#[derive(Drop)]
pub struct Places {
    pub folder: PathBuf,
    pub first: PathBuf,
    pub second: PathBuf,
    pub third: PathBuf,
}

/// A new folder. Each test is a process of its own, which removes it before it makes another.
pub fn fresh_folder(rt: &HostRuntime) -> io::Result<PathBuf> {
    let id = process::id(rt.process());
    let name = format!(in rt.alloc(); "folder_tests-{id}")?;
    let path = env::temp_dir(rt)?.join(rt.alloc(), name.as_str())?;
    match fs::remove_dir_all(rt, path.as_path()) {
        Err(error) if error.kind() != ErrorKind::NotFound => return Err(error),
        _ => {}
    }
    fs::create_dir(rt, path.as_path())?;
    Ok(path)
}

/// The place of this name: `.` is the folder, and `(nowhere)` a path of no bytes.
pub fn place(rt: &HostRuntime, folder: &str, name: &str) -> Result<PathBuf, AllocError> {
    match name {
        "." => PathBuf::from_str(rt.alloc(), folder),
        "(nowhere)" => Ok(PathBuf::new(rt.alloc())),
        _ => Path::new(folder).join(rt.alloc(), name),
    }
}

/// Three names.
fn three(names: &str) -> Option<(&str, &str, &str)> {
    let (first, rest) = names.split_once(' ')?;
    let (second, third) = rest.split_once(' ')?;
    Some((first, second, third))
}

/// Three places in a new folder.
pub fn make_places(rt: &HostRuntime, names: &str) -> Result<Places, Fail> {
    let (first, second, third) = three(names).ok_or("a story has three places")?;
    let folder = fresh_folder(rt)?;
    Ok(Places {
        first: place(rt, folder.as_str(), first)?,
        second: place(rt, folder.as_str(), second)?,
        third: place(rt, folder.as_str(), third)?,
        folder,
    })
}

/// Removes the folder.
pub fn remove_places(rt: &HostRuntime, places: &Places) -> io::Result<()> {
    fs::remove_dir_all(rt, places.folder.as_str())
}

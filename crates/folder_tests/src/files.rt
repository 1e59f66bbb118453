// What is done in a folder past the runs and the copies.
use crate::places::place;
use crate::stories::Order;
use std::fs;
use std::os::unix::fs::symlink;

/// Whether the file has these bytes.
fn holds(rt: &HostRuntime, path: &str, want: &str) -> bool {
    match fs::read(rt, path) {
        Ok(bytes) => bytes.as_slice() == want.as_bytes(),
        Err(_) => false,
    }
}

/// Whether an order on what lies at this path comes out, where it is one; `to` is the path that its text names.
fn on_path(rt: &HostRuntime, path: &str, to: &str, order: &Order<'_>) -> Option<bool> {
    let answer = match order.name {
        "makes" => fs::create_dir_all(rt, path),
        "writes" => fs::write(rt, path, order.text),
        "links" => symlink(rt, order.text, path),
        "joins" => fs::hard_link(rt, path, to),
        "renames" => fs::rename(rt, path, to),
        "removes" => fs::remove_dir_all(rt, path),
        "removes-empty" => fs::remove_dir(rt, path),
        "holds" => return Some(holds(rt, path, order.text)),
        "lacks" => return Some(matches!(fs::exists(rt, path), Ok(false))),
        _ => return None,
    };
    Some(answer.is_ok())
}

/// The same, where the order names what lies in this folder:
///
/// | Order | Does or sees |
/// |---|---|
/// | `makes b/000` | a folder is made, with those above it |
/// | `writes b/other: text` | a file is written |
/// | `links l: d/f` | a link is made that leads there |
/// | `joins b/other: second` | a file gets a second name |
/// | `renames b: away` | a file or folder gets another name |
/// | `removes b`, `removes-empty b` | a folder is removed, with all that is in it or where nothing is |
/// | `holds b/other: text` | a file has these bytes |
/// | `lacks b` | the system says that nothing is there |
pub fn on_files(rt: &HostRuntime, folder: &str, order: &Order<'_>) -> Option<bool> {
    let path = place(rt, folder, order.subject).ok()?;
    let to = place(rt, folder, order.text).ok()?;
    on_path(rt, path.as_str(), to.as_str(), order)
}

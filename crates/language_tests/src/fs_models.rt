// Texts as paths, and names.

use crate::rows::{Taken, tell};
use answers::script_text::{PathError, parse_path};
use fs_model::{Name, Path};
use std::alloc::Global;
use std::test::Fail;

/// How many names the text of a path has, or why it is none.
pub fn path_told(alloc: Global, text: &str) -> Result<String, Fail> {
    let refusal = match parse_path(alloc, text.as_bytes()) {
        Ok(path) => return Ok(format!(in alloc; "names {}", path.names().len())?),
        Err(PathError::Form) => "form",
        Err(PathError::Dot) => "dot",
        Err(PathError::LongName) => "long name",
        Err(PathError::LongPath) => "long path",
        Err(PathError::Memory) => "memory",
    };
    Ok(String::from_str(alloc, refusal)?)
}

/// An empty text, and texts of 256, 257, 4,096 and 4,097 bytes, are among them.
const TEXTS: &str = "# names 0
/
# names 1
/a
/...
/{a*255}
# names 2
/a/bc
# form

a
//
/a/
/.//
/a\0
# dot
/.
/a/../b
# long name
/{a*256}
/{a*4095}
# long path
/{a*4096}
";

#[test]
fn texts_are_paths_or_are_refused_in_order(rt: HostRuntime) -> Result<(), Fail> {
    tell(&rt, &Taken::Path, TEXTS)
}

/// A path of a name and its copy.
fn doubled(alloc: Global, text: &[u8]) -> Result<Path, Fail> {
    let name = Name::new(text.to_vec(alloc)?).ok_or("a name")?;
    let mut path = Path::root(alloc);
    path.push(name.try_clone()?)?;
    path.push(name)?;
    Ok(path)
}

#[test]
fn copies_of_names_are_equal_and_two_dots_are_none(rt: HostRuntime) -> Result<(), Fail> {
    let path = doubled(rt.alloc(), b"a")?;
    for name in path.names() {
        assert_eq!(rt; name.as_slice(), b"a".as_slice());
    }
    assert_eq!(rt; path.names().len(), 2);
    assert!(rt; Name::new(b"..".to_vec(rt.alloc())?).is_none());
    Ok(())
}

// What a listing promises, over any directory.
use crate::expected::expect;
use crate::vault_promises::names;
use outside::{FileName, Listing, file_text};
use std::alloc::Global;
use std::test::Fail;

/// Whether a listing gives the names of these files and no other.
fn lists<V: Listing>(alloc: Global, vault: &mut V, files: &[FileName]) -> Result<bool, Fail> {
    let mut came = vault.list(alloc)?;
    came.sort_unstable();
    let mut want = Vec::new(alloc);
    for file in files {
        want.push(file_text(alloc, file)?)?;
    }
    want.sort_unstable();
    Ok(came.as_slice() == want.as_slice())
}

/// The files that were put are listed, each once, and those that were removed aren't. The directory has no files at first.
pub fn lists_what_is_there<V: Listing>(alloc: Global, vault: &mut V) -> Result<(), Fail> {
    let files = names();
    for (count, name) in files.iter().enumerate() {
        let (there, _) = files.split_at(count);
        expect(
            alloc,
            lists(alloc, vault, there)?,
            "lists what was put",
            count,
        )?;
        vault.put(alloc, name, &[1])?;
        vault.put(alloc, name, &[2, 3])?;
    }
    for (count, name) in files.iter().enumerate() {
        let (_, there) = files.split_at(count);
        expect(
            alloc,
            lists(alloc, vault, there)?,
            "lists what wasn't removed",
            count,
        )?;
        vault.remove(alloc, name)?;
    }
    expect(alloc, lists(alloc, vault, &[])?, "lists nothing at last", 0)
}

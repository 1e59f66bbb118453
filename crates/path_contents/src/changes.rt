// Changes of a file's content, as the blobs show it.
ghost use Rattle.std.specs.Prelude.{◌≡◌, ◌≤◌, ◌+◌, ◌∷◌, length};
ghost use Rattle.std.specs.FinMap.{insert as with_key};
ghost use Rattle.fs_model.specs.declared.attr.Kind.TheVariants.{File};
ghost use Rattle.path_walks.specs.store_outcome.Outcome.{Outcome};
ghost use Rattle.block_id.specs.Contents.{resized, written};
ghost use Rattle.fs_model.specs.Tree.{directory_size};
ghost use Rattle.path_walks.specs.dir_entries.Layout.{entry_of};
ghost use Rattle.path_walks.specs.Showing.{IsShownBy};
ghost use Rattle.path_walks.specs.Entries.{SettingIn};
ghost use Rattle.path_contents.specs.Sparing.{IsSparingTwice};

use block_id::Fail;
use fs_model::{MAX_FILE, MAX_MODE};
use path_walks::Occupancy;
use path_walks::blob_api::Blobs;
use path_walks::dir_blob::change_in;
use path_walks::dir_entries::Entry;
use path_walks::fs_blobs::{resize_body, write_body};
use std::alloc::Global;

/// A file that was found gets these bytes at `from`, and its entry the new attributes.
pub fn write_at<B: Blobs>(
    alloc: Global,
    b: &mut B,
    at: &Occupancy,
    entry: &Entry,
    from: u64,
    bytes: &[u8],
) -> Result<(), Fail>
    requires intact { B.meanings.intact b.old }
    requires mode { entry.now.attr.mode ≤ MAX_MODE }
    requires file { entry.now.attr.kind ≡ File }
    requires fits { from + length bytes.now ≤ MAX_FILE }
    ensures outcome { Outcome B.meanings (SettingIn B.holdings b.old at.now.dir.place.blob.0 at.now.body.items (entry_of entry.now)) b.old b.new result
        (λ n _. IsShownBy B.holdings b.new n.setting.root (with_key n.setting.tree (entry.now.name ∷ n.setting.path) (record { attr = entry.now.attr; bytes = written n.setting.row.bytes from bytes.now })) n.setting.ids) }
    // Whatever it answers.
    ensures sparing { (n : SettingIn B.holdings b.old at.now.dir.place.blob.0 at.now.body.items (entry_of entry.now)) → B.meanings.sound b.old → B.meanings.forgeries b.new ≤ B.meanings.forgeries b.old
        → IsSparingTwice B.holdings b.old b.new (length n.setting.row.bytes) (directory_size n.setting.tree n.setting.path) from (length bytes.now) }
{
    write_body(alloc, b, &entry.blob, from, bytes)?;
    change_in(alloc, b, &at.dir.place.blob, &at.body, entry)
}

/// A file that was found gets this length, by a cut or by zeros, and its entry the new attributes.
pub fn resize_at<B: Blobs>(
    alloc: Global,
    b: &mut B,
    at: &Occupancy,
    entry: &Entry,
    len: u64,
) -> Result<(), Fail>
    requires intact { B.meanings.intact b.old }
    requires mode { entry.now.attr.mode ≤ MAX_MODE }
    requires file { entry.now.attr.kind ≡ File }
    requires fits { len ≤ MAX_FILE }
    ensures { Outcome B.meanings (SettingIn B.holdings b.old at.now.dir.place.blob.0 at.now.body.items (entry_of entry.now)) b.old b.new result
        (λ n _. IsShownBy B.holdings b.new n.setting.root (with_key n.setting.tree (entry.now.name ∷ n.setting.path) (record { attr = entry.now.attr; bytes = resized n.setting.row.bytes len })) n.setting.ids) }
{
    resize_body(alloc, b, &entry.blob, len)?;
    change_in(alloc, b, &at.dir.place.blob, &at.body, entry)
}

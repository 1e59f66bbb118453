// Commands on the tree of files that blocks show, in the terms of blocks alone.
ghost use Rattle.std.specs.Prelude.{◌≡◌, ◌≤◌, ◌+◌, ℕ, List, IfOk, cond, length};
ghost use Rattle.std.specs.FinMap as fin;
ghost use Rattle.std.specs.declared.option.Option.TheVariants.{None, Some};
ghost use Rattle.blob_store.specs.data_nodes.Layout.{IsPayloadLen};
ghost use Rattle.fs_model.specs.Fitting.{IsFitting};
ghost use Rattle.fs_model.specs.Tree.{empty_tree};
ghost use Rattle.path_contents.specs.store_outcome.Outcome.{Outcome};
ghost use Rattle.blob_store.specs.store_api.Content.{Content, same_id};
ghost use Rattle.blob_store.specs.store_api.Txs.{content_of, intact_in, tx_meanings};
ghost use Rattle.path_layer.specs.Performing.{Shown, Steps, IsReplyTo};
ghost use Rattle.path_layer.specs.Showing.{ShowsFiles};
ghost use Rattle.path_layer.specs.Sparing.{OnWriteInside};

use crate::blobs::perform_on_blobs;
use blob_store::BlobStore;
use blob_store::data_nodes::{Node, write_node};
use blob_store::store_api::{Blocks, Tx};
use block_id::{BlockId, Fail, Memory};
use fs_model::{Command, Moment, Reply};
use std::alloc::Global;

/// One command on the tree of files that the blocks show from the root on.
pub fn perform<S: Blocks>(
    alloc: Global,
    blobs: &mut BlobStore<S>,
    root: &BlockId,
    now: Moment,
    command: &Command,
) -> Result<Reply, Fail>
    requires intact { intact_in S.meanings S.holdings blobs.old.tx }
    requires fits { IsFitting command.now }
    ensures outcome { Outcome (tx_meanings S.meanings S.holdings) (Shown (ShowsFiles (S.holdings.payload blobs.old.tx.store) root.now.0) (content_of S.holdings blobs.old.tx))
        blobs.old.tx blobs.new.tx result (λ n reply. Steps (ShowsFiles (S.holdings.payload blobs.old.tx.store) root.now.0) now n.tree command.now (content_of S.holdings blobs.new.tx) reply) }
    // Whatever it answers.
    ensures sparing { (n : Shown (ShowsFiles (S.holdings.payload blobs.old.tx.store) root.now.0) (content_of S.holdings blobs.old.tx)) → S.meanings.sound blobs.old.tx.store → S.meanings.forgeries blobs.new.tx.store ≤ S.meanings.forgeries blobs.old.tx.store
        → OnWriteInside (S.holdings.payload blobs.old.tx.store) n.tree command.now (λ most. fin.len blobs.new.tx.overlay ≤ fin.len blobs.old.tx.overlay + most) }
    ensures variant { IfOk result (λ reply. IsReplyTo command.now reply) }
{
    perform_on_blobs(alloc, blobs, root, now, command)
}

/// The payload of a root's block that shows the empty tree, where there is no other block.
pub fn empty_root(alloc: Global, payload: usize) -> Result<Vec<u8>, Memory>
    requires { IsPayloadLen payload }
    ensures sized { IfOk result (λ bytes. length bytes.items ≡ payload) }
    ensures shows { IfOk result (λ bytes. (root : List ℕ) (content : Content) → length root ≡ 16
        → ((id : List ℕ) → content id ≡ cond (same_id id root) (Some bytes.items) None) → ShowsFiles payload root content empty_tree) }
{
    let blob = path_rows::empty_root(alloc)?;
    write_node(alloc, &Node::Leaf(blob), payload)
}

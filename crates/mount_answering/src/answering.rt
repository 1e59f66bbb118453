// The answer to a line, over any durable store and keeper.
ghost use Rattle.std.specs.Prelude.{◌≡◌, ◌⊎◌, ◌≤◌, true, false};
ghost use Rattle.std.specs.declared.option.Option.TheVariants.{Some};
ghost use Rattle.outside.specs.Causes.{RoseBy};
ghost use Rattle.mount_core.specs.record_saver.Saving.{world};
ghost use Rattle.mount_core.specs.store_api.Durables.{with_mark};
ghost use Rattle.mount_core.specs.store_api.Txs.{intact_in};
ghost use Rattle.mount_core.specs.path_layer.Performing.{is_sync, IsReplyTo};
ghost use Rattle.mount_core.specs.path_layer.Showing.{ShowsFiles};
ghost use Rattle.mount_core.specs.Answering.{FormAnswers, TreesAnswer, StoreAnswers};
ghost use Rattle.mount_core.specs.Drawing.{DrawsOnce, DrawsSeeded, LineDraws, NamesOfSeed};
ghost use Rattle.mount_core.specs.Standing.{Ready, IsKeptMarked};
ghost use Rattle.mount_answering.specs.Asking.{CanAsk, CanSettle, FormAsked, KeepsSaver, SaverLeaves, StoreAsked, StoreSettled, TreesAsked, TreesSettled};

use crate::kinds::{apply_answer, fail_answer, is_error, is_sync, only_looks, sync_answer};
use crate::syncing::sync_first;
use fs_model::{Command, Moment, Reply};
use mount_core::Core;
use mount_core::answers::Answer;
use mount_core::path_layer::perform;
use mount_core::store_api::{Blocks, Durable, Tx};
use outside::Keeper;
use rand_core::Rng;
use std::alloc::Global;

/// Marks the last record, and has it kept. Later commands are refused, and closing leaves all as it is.
pub fn mark<S: Durable, K: Keeper>(core: &mut Core<S, K>)
    requires ready { Ready (world S.meanings S.holdings S.durables S.records K.Keeper) core.old }
    ensures ready { Ready (world S.meanings S.holdings S.durables S.records K.Keeper) core.new }
    ensures store { core.new.blobs.tx ≡ core.old.blobs.tx }
    ensures root { core.new.root ≡ core.old.root }
    ensures violated { core.new.violated ≡ true }
    ensures kept { (K.kept core.new.saver.keeper ≡ Some (with_mark core.old.saver.last.items)) ⊎
        (K.kept core.new.saver.keeper ≡ K.kept core.old.saver.keeper) }
    ensures marked { IsKeptMarked S.records (K.kept core.new.saver.keeper) ⊎ RoseBy 1 (K.faults core.old.saver.keeper)
        (K.faults core.new.saver.keeper) }
    ensures keeper_grows { K.faults core.old.saver.keeper ≤ K.faults core.new.saver.keeper }
{
    core.saver.mark();
    core.violated = true;
}

/// Answers a reply to a command that was performed, once its changes are applied.
fn settle<S: Durable, K: Keeper, R: Rng>(
    alloc: Global,
    core: &mut Core<S, K>,
    command: &Command,
    reply: Reply,
    chance: &mut R,
) -> Answer
    requires can { CanSettle (world S.meanings S.holdings S.durables S.records K.Keeper) core.old }
    requires form { IsReplyTo command.now reply }
    ensures ready { Ready (world S.meanings S.holdings S.durables S.records K.Keeper) core.new }
    ensures trees { TreesSettled ShowsFiles (world S.meanings S.holdings S.durables S.records K.Keeper)
        core.old command.now reply result core.new }
    ensures store { StoreSettled S.meanings S.holdings S.durables core.old.blobs.tx.store core.old.blobs.tx.overlay
        command.now result core.new.blobs.tx.store }
    ensures saver { KeepsSaver core.old result core.new }
    ensures draws { DrawsOnce S.meanings (NamesOfSeed S.holdings core.old.blobs.tx.seed) S.applied S.drawn
        core.old.blobs.tx.store core.new.blobs.tx.store (R.stream chance.old) (R.stream chance.new) }
    ensures answers { (result ≡ Answer.Reply reply) ⊎ ((result ≡ Answer.Memory) ⊎ (result ≡ Answer.Spent)) }
{
    if only_looks(command) || is_error(&reply) || core.blobs.tx.batch().is_empty() {
        core.blobs.tx.abandon();
        return Answer::Reply(reply);
    }
    match core.blobs.tx.commit(alloc, chance) {
        Ok(()) => {
            core.saver.changed = true;
            Answer::Reply(reply)
        }
        Err(error) => {
            core.blobs.tx.abandon();
            apply_answer(error)
        }
    }
}

/// Answers a command by the blocks, and leaves the keeper alone. New ids come of the seed of the changes, of which there are
/// none yet.
fn ask_begun<S: Durable, K: Keeper, R: Rng>(
    alloc: Global,
    core: &mut Core<S, K>,
    now: Moment,
    command: &Command,
    chance: &mut R,
) -> Answer
    requires intact { intact_in S.Blocks.meanings S.Blocks.holdings core.old.blobs.tx }
    requires can { CanAsk (world S.meanings S.holdings S.durables S.records K.Keeper) core.old command.now }
    ensures ready { Ready (world S.meanings S.holdings S.durables S.records K.Keeper) core.new }
    ensures form { FormAsked command.now result }
    ensures trees { TreesAsked ShowsFiles (world S.meanings S.holdings S.durables S.records K.Keeper)
        now core.old command.now result core.new }
    ensures store { StoreAsked S.meanings S.holdings S.durables core.old.blobs.tx.store command.now result
        core.new.blobs.tx.store }
    ensures saver { KeepsSaver core.old result core.new }
    ensures draws { DrawsOnce S.meanings (NamesOfSeed S.holdings core.old.blobs.tx.seed) S.applied S.drawn
        core.old.blobs.tx.store core.new.blobs.tx.store (R.stream chance.old) (R.stream chance.new) }
{
    match perform(alloc, &mut core.blobs, &core.root, now, command) {
        Ok(reply) => settle(alloc, core, command, reply, chance),
        Err(fail) => {
            core.blobs.tx.abandon();
            fail_answer(fail)
        }
    }
}

/// The same, once a seed of new ids is drawn. What is left of `chance` goes to the vectors of files alone.
fn ask<S: Durable, K: Keeper, R: Rng>(
    alloc: Global,
    core: &mut Core<S, K>,
    now: Moment,
    command: &Command,
    chance: &mut R,
) -> Answer
    requires can { CanAsk (world S.meanings S.holdings S.durables S.records K.Keeper) core.old command.now }
    ensures ready { Ready (world S.meanings S.holdings S.durables S.records K.Keeper) core.new }
    ensures form { FormAsked command.now result }
    ensures trees { TreesAsked ShowsFiles (world S.meanings S.holdings S.durables S.records K.Keeper)
        now core.old command.now result core.new }
    ensures store { StoreAsked S.meanings S.holdings S.durables core.old.blobs.tx.store command.now result
        core.new.blobs.tx.store }
    ensures saver { KeepsSaver core.old result core.new }
    ensures draws { DrawsSeeded S.meanings S.holdings S.applied S.drawn core.old.blobs.tx.store core.new.blobs.tx.store
        (R.stream chance.old) (R.stream chance.new) }
{
    let mut seed = [0; 32];
    chance.fill_bytes(&mut seed);
    core.blobs.tx.begin(seed);
    ask_begun(alloc, core, now, command, chance)
}

/// Answers a command. After a violation each is refused. Where 8 MiB wait, and for `Sync`, there is a sync first: an error
/// of it is the answer, and for `Sync` there is no more to do. Then the command is performed, and its changes are applied
/// all at once or not at all. Where it meets a violation, the last record is marked and kept.
pub fn answer<S: Durable, K: Keeper, R: Rng>(
    alloc: Global,
    core: &mut Core<S, K>,
    now: Moment,
    command: &Command,
    chance: &mut R,
) -> Answer
    requires can { CanAsk (world S.meanings S.holdings S.durables S.records K.Keeper) core.old command.now }
    ensures ready { Ready (world S.meanings S.holdings S.durables S.records K.Keeper) core.new }
    ensures form { FormAnswers core.old (Ok command.now) result core.new }
    ensures trees { TreesAnswer ShowsFiles (world S.meanings S.holdings S.durables S.records K.Keeper)
        now core.old (Ok command.now) result core.new }
    ensures store { StoreAnswers S.meanings S.holdings S.durables core.old.violated core.old.saver.changed
        core.old.blobs.tx.store (Ok command.now) result core.new.blobs.tx.store }
    ensures saver { SaverLeaves (world S.meanings S.holdings S.durables S.records K.Keeper) core.old command.now result
        core.new }
    ensures draws { LineDraws S.meanings S.holdings S.durables S.applied S.drawn core.old.blobs.tx.store core.new.blobs.tx.store
        (R.stream chance.old) (R.stream chance.new) }
    ensures unmoved { is_sync command.now ≡ true → core.old.violated ≡ false → core.old.saver.changed ≡ false
        → (result ≡ Answer.Reply Reply.Done) × (core.new ≡ core.old) }
{
    if core.violated {
        return Answer::Refused;
    }
    match sync_first(alloc, core, command) {
        Ok(()) => {}
        Err(error) => return sync_answer(error),
    }
    if is_sync(command) {
        return Answer::Reply(Reply::Done);
    }
    let answer = ask(alloc, core, now, command, chance);
    match answer {
        Answer::Violation(_) => mark(core),
        _ => {}
    }
    answer
}

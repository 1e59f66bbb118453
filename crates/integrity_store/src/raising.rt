// What a batch makes of the known versions.
ghost use Rattle.std.specs.Prelude.{◌≡◌, ◌≤◌, ◌+◌};
ghost use Rattle.std.specs.FinMap as fin;
ghost use Rattle.store_api.specs.Entries.{entry_view, entries_of, change_view};
ghost use Rattle.integrity_store.specs.Raising.{is_spent_at, some_spent_in, one_if_new, count_new_in, MayCome, lives_after_one, lives_after_each, MayComeEach, count_new_each};

use block_id::BlockId;
use block_versions::local_state::Known;
use store_api::BatchChange;

/// Whether the change gives a payload to an id whose version can't rise.
fn is_spent(known: &Known, id: &BlockId, change: &BatchChange) -> bool
    ensures { result ≡ is_spent_at (change_view change.now) (fin.get known.now.lives id.now.0) }
{
    match change {
        BatchChange::Payload(_) => known.is_spent(id),
        BatchChange::Removal => false,
    }
}

/// Whether some id that gets a payload has the last version, so that it can get none.
pub fn some_spent(known: &Known, entries: &[(BlockId, BatchChange)]) -> bool
    ensures { result ≡ some_spent_in known.now.lives (entries_of entries.now) }
{
    for entry in entries {
        if is_spent(known, &entry.0, &entry.1) {
            return true;
        }
    }
    false
}

/// How many ids of the entries aren't known.
pub fn count_new(known: &Known, entries: &[(BlockId, BatchChange)]) -> usize
    ensures { result ≡ count_new_in known.now.lives (entries_of entries.now) }
{
    let mut count = 0;
    for entry in entries {
        if !known.is_used(&entry.0) {
            count += 1;
        }
    }
    count
}

/// Raises an id that gets a payload, or buries a removed one.
fn raise_or_bury(known: &mut Known, id: &BlockId, change: &BatchChange)
    requires may { MayCome id.now.0 (change_view change.now) (fin.get known.old.lives id.now.0) }
    requires room { one_if_new (fin.get known.old.lives id.now.0) ≤ known.old.spare }
    ensures lives { known.new.lives ≡ lives_after_one known.old.lives (id.now.0, change_view change.now) }
    ensures room { known.old.spare ≤ known.new.spare + one_if_new (fin.get known.old.lives id.now.0) }
{
    match change {
        BatchChange::Payload(_) => match known.raise(id) {
            Ok(_) => {}
            Err(_) => unreachable!(),
        },
        BatchChange::Removal => known.bury(id),
    }
}

/// Raises each id that gets a payload and buries each removed one.
pub fn raise_or_bury_all(known: &mut Known, entries: &[(BlockId, BatchChange)])
    requires may { MayComeEach known.old.lives (entries_of entries.now) }
    requires room { count_new_each known.old.lives (entries_of entries.now) ≤ known.old.spare }
    ensures { known.new.lives ≡ lives_after_each known.old.lives (entries_of entries.now) }
{
    for entry in entries {
        raise_or_bury(known, &entry.0, &entry.1);
    }
}

// The versions of other clients, as a finite map.
ghost use Rattle.std.specs.Prelude.{◌≡◌, map, All, OnOk, OnErr, IfOk, ℕ};
ghost use Rattle.std.specs.FinMap as fin;
ghost use Rattle.clients_core.specs.Listed.{listed_entry, listed_in, FitsOthers, HasNoOwn, IsInRange};
ghost use Rattle.clients_core.specs.Others.{OtherVersions, others_of, other_version, plain_entry, HaveDistinctAuthors};
ghost use Rattle.clients_core.specs.Versions.{version_of};

use block_id::{BlockId, Memory};
use local_state::Triple;
use std::alloc::Global;
use std::collections::HashMap;
use std::marker::Model;

/// A block and a client that wrote it.
#[derive(Clone, Copy, PartialEq, Eq, PartialOrd, Ord, Hash)]
pub struct Author {
    pub id: BlockId,
    pub client: u32,
}

/// The greatest version of each block by each other client.
#[derive(Drop)]
pub struct Others {
    versions: HashMap<Author, u64>,
}

impl Model for Others {
    ghost use Rattle.clients_core.specs.Others.{OtherVersions, others_code, others_of};

    ghost Value = { OtherVersions };

    ghost coded = { others_code };

    ghost view = { λ o. others_of o.versions.entries };
}

impl Others {
    /// Nothing of any client.
    pub fn new(alloc: Global) -> Others
        ensures { result ≡ fin.empty }
    {
        Others {
            versions: HashMap::new(alloc),
        }
    }

    /// Those that a list has; of one block and client the first.
    pub fn of(alloc: Global, listed: &[Triple]) -> Result<Others, Memory>
        ensures { IfOk result (λ others. others ≡ listed_in (map version_of listed.now)) }
    {
        let mut others = Others::new(alloc);
        let mut from = listed.len();
        while from > 0 {
            from -= 1;
            let t = listed[from];
            others.note(&t.id, t.client, t.version)?;
        }
        Ok(others)
    }

    /// All of them, in the order of a record.
    pub fn listed(&self, alloc: Global) -> Result<Vec<Triple>, Memory>
        ensures entries { IfOk result (λ vs. map listed_entry (map version_of vs.items) ≡ fin.entries self.now) }
        ensures fits { IfOk result (λ vs. (own : ℕ) → HasNoOwn own self.now → FitsOthers own (map version_of vs.items)) }
    {
        let entries = sorted_versions(alloc, &self.versions)?;
        triples_of(alloc, &entries)
    }

    /// The greatest version of the block by this client, or 0.
    pub fn greatest(&self, id: &BlockId, client: u32) -> u64
        ensures { result ≡ other_version self.now id.now.0 client }
    {
        version_of(&self.versions, &Author { id: *id, client })
    }

    /// Notes a version of the block by this client.
    pub fn note(&mut self, id: &BlockId, client: u32, version: u64) -> Result<(), Memory>
        ensures ok { OnOk result (self.new ≡ fin.insert self.old (id.now.0, client) version) }
        ensures err { OnErr result (self.new ≡ self.old) }
    {
        put_version(&mut self.versions, Author { id: *id, client }, version)
    }
}

fn version_of(versions: &HashMap<Author, u64>, author: &Author) -> u64
    ensures { result ≡ other_version (others_of versions.now.entries) author.now.id.0 author.now.client }
{
    versions.get(author).copied().unwrap_or(0)
}

fn put_version(
    versions: &mut HashMap<Author, u64>,
    author: Author,
    version: u64,
) -> Result<(), Memory>
    ensures ok { OnOk result (others_of versions.new.entries ≡ fin.insert (others_of versions.old.entries) (author.id.0, author.client) version) }
    ensures err { OnErr result (others_of versions.new.entries ≡ others_of versions.old.entries) }
{
    versions.insert(author, version)?;
    Ok(())
}

fn entries_of(alloc: Global, versions: &HashMap<Author, u64>) -> Result<Vec<(Author, u64)>, Memory>
    ensures entries { IfOk result (λ v. v.items ≡ versions.now.entries) }
    ensures distinct { HaveDistinctAuthors versions.now.entries }
{
    let mut entries = Vec::with_capacity(alloc, versions.len())?;
    for (author, version) in versions {
        entries.push((*author, *version))?;
    }
    Ok(entries)
}

/// The entries by rising ids, and of one block by rising clients.
fn sorted_versions(
    alloc: Global,
    versions: &HashMap<Author, u64>,
) -> Result<Vec<(Author, u64)>, Memory>
    ensures { IfOk result (λ v. map plain_entry v.items ≡ fin.entries (others_of versions.now.entries)) }
{
    let mut entries = entries_of(alloc, versions)?;
    entries.sort_unstable();
    Ok(entries)
}

fn triples_of(alloc: Global, entries: &[(Author, u64)]) -> Result<Vec<Triple>, Memory>
    ensures entries { IfOk result (λ vs. map listed_entry (map version_of vs.items) ≡ map plain_entry entries.now) }
    ensures ranges { IfOk result (λ vs. All (λ t. IsInRange (version_of t)) vs.items) }
{
    let mut triples = Vec::with_capacity(alloc, entries.len())?;
    for entry in entries {
        let triple = triple_of(&entry.0.id, entry.0.client, entry.1);
        triples.push(triple)?;
    }
    Ok(triples)
}

fn triple_of(id: &BlockId, client: u32, version: u64) -> Triple
    ensures is { version_of result ≡ record { id = id.now.0; client = client; version = version } }
    ensures range { IsInRange (version_of result) }
{
    // With its bytes read the id is known to have 16.
    let _bytes = id.0;
    Triple {
        id: *id,
        client,
        version,
    }
}

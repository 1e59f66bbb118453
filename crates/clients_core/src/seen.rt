// What a client has seen.
ghost use Rattle.std.specs.Prelude.{◌≡◌, ◌≢◌, ◌↔◌, ◌<◌, [], ◌∷◌, List, map, true, false, IfOk, IfSome, OnErr};
ghost use Rattle.std.specs.declared.option.Option.TheVariants.{Some};
ghost use Rattle.std.specs.declared.result.Result.TheVariants.{Err};
ghost use Rattle.std.specs.FinMap as fin;
ghost use Rattle.local_state.specs.Known.{is_last, is_live_at, life_at, version_at, zero_id};
ghost use Rattle.clients_core.specs.Judging.{judge};
ghost use Rattle.clients_core.specs.Listed.{listed_entry, listed_in, FitsOthers, HasNoOwn};
ghost use Rattle.clients_core.specs.Standing.{Stands, SameNumbers};
ghost use Rattle.clients_core.specs.Taking.{IsSpentFor, Noted, Took, Sealed, list_after, own_version};
ghost use Rattle.clients_core.specs.TakenAll.{SameVersions};
ghost use Rattle.clients_core.specs.Versions.{version_of, is_superseded, Version};

use crate::others::Others;
use crate::stale::{SealFail, Stale, TakeFail};
use block_id::{BlockId, Memory};
use local_state::{Known, Triple};
use std::alloc::Global;

/// The versions that a client sealed, those of others that it took, and which blocks are dead.
#[derive(Drop)]
pub struct Seen {
    own: u32,
    known: Known,
    others: Others,
}

impl Seen {
    /// Nothing was seen yet.
    pub fn new(alloc: Global, own: u32) -> Seen
        ensures own { result.own ≡ own }
        ensures lives { result.known.lives ≡ fin.empty }
        ensures others { result.others ≡ fin.empty }
        ensures stands { Stands result [] }
    {
        Seen {
            own,
            known: Known::new(alloc),
            others: Others::new(alloc),
        }
    }

    /// What was seen before: these lives, and these versions of others.
    pub fn of(alloc: Global, own: u32, known: Known, others: &[Triple]) -> Result<Seen, Memory>
        ensures own { IfOk result (λ s. s.own ≡ own) }
        ensures known { IfOk result (λ s. s.known ≡ known) }
        ensures others { IfOk result (λ s. s.others ≡ listed_in (map version_of others.now)) }
        ensures foreign { IfOk result (λ s. FitsOthers own (map version_of others.now) → HasNoOwn own s.others) }
    {
        let others = Others::of(alloc, others)?;
        Ok(Seen { own, known, others })
    }

    /// The lives, and the versions of others in the order of a record.
    pub fn into_parts(self, alloc: Global) -> Result<(Known, Vec<Triple>), Memory>
        ensures known { IfOk result (λ parts. parts.0 ≡ self.known) }
        ensures others { IfOk result (λ parts. map listed_entry (map version_of parts.1.items) ≡ fin.entries self.others) }
        ensures fits { IfOk result (λ parts. HasNoOwn self.own self.others → FitsOthers self.own (map version_of parts.1.items)) }
    {
        let Seen { known, others, .. } = self;
        let listed = others.listed(alloc)?;
        Ok((known, listed))
    }

    /// What is wrong with a version, if anything is.
    fn judge(&self, t: &Triple) -> Option<Stale>
        ensures { result ≡ judge self.now (version_of t.now) }
    {
        let known = self.known.version(&t.id).unwrap_or(0);
        let found = t.version;
        if t.client == self.own {
            let dead = self.known.is_used(&t.id) && !self.known.is_live(&t.id);
            if dead && found == known {
                return Some(Stale::Deleted);
            }
            if found < known {
                return Some(Stale::Lower { known, found });
            }
            if found > known {
                return Some(Stale::Ahead { known, found });
            }
            return None;
        }
        let noted = self.others.greatest(&t.id, t.client);
        if found < noted {
            return Some(Stale::Lower {
                known: noted,
                found,
            });
        }
        if found == noted && noted > 0 {
            return Some(Stale::Replaced {
                client: self.own,
                version: known,
            });
        }
        None
    }

    /// Takes a version that came for a block. One of another client is noted, and sealed anew under the version that is
    /// answered.
    pub fn take(&mut self, t: &Triple) -> Result<Option<u64>, TakeFail>
        requires client { 0 < t.now.client }
        requires version { 0 < t.now.version }
        requires id { t.now.id.0 ≢ zero_id }
        ensures stale { (s : Stale) → (result ≡ Err (TakeFail.Stale s)) ↔ (judge self.old (version_of t.now) ≡ Some s) }
        ensures spent { (result ≡ Err TakeFail.Spent) ↔ IsSpentFor self.old (version_of t.now) }
        ensures took { IfOk result (λ answer. Took self.old self.new (version_of t.now) answer) }
        ensures superseded { IfOk result (λ _. (h : List Version) → Stands self.old h → is_superseded h (version_of t.now) ≡ false) }
        ensures stands { IfOk result (λ answer. (h : List Version) → Stands self.old h → Stands self.new (list_after self.old.own (version_of t.now) answer h)) }
        ensures foreign { IfOk result (λ answer. HasNoOwn self.old.own self.old.others → HasNoOwn self.new.own self.new.others) }
        ensures err { OnErr result (SameNumbers self.old self.new) }
    {
        if let Some(stale) = self.judge(t) {
            return Err(TakeFail::Stale(stale));
        }
        if t.client == self.own {
            return Ok(None);
        }
        if self.known.is_spent(&t.id) {
            return Err(TakeFail::Spent);
        }
        let version = self.seal_after(t)?;
        Ok(Some(version))
    }

    /// Makes a live block dead. Its version stays.
    pub fn bury(&mut self, id: &BlockId)
        requires { is_live_at self.old.known id.now.0 ≡ true }
        ensures own { self.new.own ≡ self.old.own }
        ensures lives { IfSome (version_at self.old.known id.now.0) (λ version. self.new.known.lives
            ≡ fin.insert self.old.known.lives id.now.0 (record { version = version; live = false })) }
        ensures versions { SameVersions self.old.known.lives self.new.known.lives }
        ensures others { self.new.others ≡ self.old.others }
        ensures stands { (h : List Version) → Stands self.old h → Stands self.new h }
    {
        self.known.bury(id);
    }

    /// Notes the version of another client, and seals the next own one.
    fn seal_after(&mut self, t: &Triple) -> Result<u64, Memory>
        requires version { 0 < t.now.version }
        requires id { t.now.id.0 ≢ zero_id }
        requires unspent { is_last (life_at self.old.known t.now.id.0) ≡ false }
        ensures noted { IfOk result (λ version. Noted self.old self.new (version_of t.now) version) }
        ensures err { OnErr result (SameNumbers self.old self.new) }
    {
        self.known.reserve(1)?;
        self.others.note(&t.id, t.client, t.version)?;
        let version = self.known.next_version(&t.id);
        self.known.put(&t.id, version, true);
        Ok(version)
    }

    /// Seals the next version of a block that isn't dead.
    pub fn seal(&mut self, id: &BlockId) -> Result<u64, SealFail>
        requires not_zero { id.now.0 ≢ zero_id }
        requires not_dead { IfSome (life_at self.old.known id.now.0) (λ life. life.live ≡ true) }
        ensures sealed { IfOk result (λ version. Sealed self.old self.new id.now.0 version) }
        ensures stands { IfOk result (λ version. (h : List Version) → Stands self.old h → Stands self.new (own_version self.old.own id.now.0 version ∷ h)) }
        ensures spent { (result ≡ Err SealFail.Spent) ↔ (is_last (life_at self.old.known id.now.0) ≡ true) }
        ensures err { OnErr result (SameNumbers self.old self.new) }
    {
        if self.known.is_spent(id) {
            return Err(SealFail::Spent);
        }
        self.known.reserve(1)?;
        let version = self.known.next_version(id);
        self.known.put(id, version, true);
        Ok(version)
    }
}

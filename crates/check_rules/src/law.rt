// A flaw leaves no tree to show.
ghost use Rattle.std.specs.Prelude.{◌≡◌, ℕ, List, map, true, false};
ghost use Rattle.std.specs.FinMap.{get};
ghost use Rattle.path_walks.specs.blob_api.BlobMap.{BlobMap};
ghost use Rattle.check_walk.specs.declared.flaw.Flaw.{Flaw};
ghost use Rattle.check_walk.specs.Given.{Given, AgreesWith, content_of};
ghost use Rattle.check_walk.specs.Halts.{FlawAt};
ghost use Rattle.check_walk.specs.Marks.{MarkList};
ghost use Rattle.check_walk.specs.Needs.{top, Leads};
ghost use Rattle.check_walk.specs.data_tree.Trees.{NoDoubles};
ghost use Rattle.fs_model.specs.declared.attr.Kind.{Kind};
ghost use Rattle.check_walk.specs.data_tree.Stored.{StoresBlobs};
ghost use Rattle.path_walks.specs.Shows.{ShowsTree};
ghost use Rattle.fs_model.specs.Tree.{Path, Tree};
ghost use Rattle.check_walk.specs.store_api.Content.{Id, Content};
ghost use Rattle.check_walk.specs.store_api.Holdings.{has_id};
ghost use Rattle.check_rules.specs.Certificates.{Owners, Certifies};
ghost use Rattle.check_rules.specs.Flaws.{HasFlaw, HasUnowned, Refutes};
ghost use Rattle.check_rules.specs.Marked.{MarksOthers};
ghost use Rattle.check_rules.specs.Reached.{IsReached};

/// Where what was given has a flaw, no content with it shows a tree.
pub fn flaw_refutes()
    ensures { (payload : ℕ) (root : Id) (live : List Id) (given : Given) (flaw : Flaw)
        → HasFlaw payload root live (content_of given) flaw → Refutes payload root live given }
{}

/// A flaw that the walk over a reached blob found is one of what was given.
pub fn walk_flaw_is_flaw()
    ensures { (payload : ℕ) (root : Id) (live : List Id) (G : Content) (path : Path) (kind : Kind) (id parent : Id) (marks : MarkList) (held : Content) (flaw : Flaw)
        → IsReached payload G root path kind id parent → MarksOthers payload root live G path marks held
        → FlawAt payload G marks held (Leads G id top) flaw → HasFlaw payload root live G flaw }
{}

/// What was given, each id once, agrees with itself.
pub fn given_agrees()
    ensures { (given : Given) → NoDoubles (map (λ g. g.0) given) → AgreesWith (content_of given) given }
{}

/// A live block that wasn't given, where what was given shows a tree, has no owner.
pub fn unowned_is_flaw()
    ensures { (payload : ℕ) (root : Id) (live : List Id) (given : Given) (blobs : BlobMap) (tree : Tree) (id : Id) → StoresBlobs payload (content_of given) (get blobs) → ShowsTree blobs root tree
        → has_id live id ≡ true → has_id (map (λ g. g.0) given) id ≡ false → HasUnowned payload root live (content_of given) id }
{}

/// A certificate's owners are fixed by what was given.
pub fn owners_own()
    ensures { (payload : ℕ) (root : Id) (live : List Id) (given : Given) (one other : Owners) → Certifies payload root live given one → Certifies payload root live given other → one ≡ other }
{}

// The calls that look a page or a checkpoint up: search in a snapshot, and the highest checkpoint at or below an LSN. Each answers on every input, 20 first.
#![tactic(auto)]

ghost use Rattle.std.specs.Prelude.{◌≡◌, ◌≤◌, true, ◌&&◌, map, length, take};
ghost use Rattle.basics.specs.Says.{maybe_lsn_says};
ghost use Rattle.rules.specs.Search.{search_path};
ghost use Rattle.rules.specs.Reads.{checkpoint_read};
ghost use Rattle.layout.specs.Records.{commit_bytes};
ghost use Rattle.layout.specs.Tables.{commits_in, commits_ok, checkpoints_in, checkpoints_ok, index_in, index_ok};
ghost use Rattle.layout.specs.Lent.{lent};
ghost use Rattle.volume.specs.Snapshots.{range_says};
ghost use Rattle.arguments.specs.Replies.{value_or};
ghost use Rattle.searchcalls.specs.Searches.{Within, hit_says, HitOf, entry_commit, search_in};

use arguments::Reply;
use arguments::replies::refused;
use arguments::snapshots::{snapshot_arg, snapshot_ok};
use basics::id::LogId;
use basics::lsn::Lsn;
use basics::pageidx::PageIdx;
use basics::refusal::Refusal;
use commits::{commits_formed, find_commit};
use entries::{checkpoints_formed, index_formed};
use layout::COMMIT;
use lookups::entry_in;
use volume::snapshot::LogRange;

// The place of the commit that an index entry names: 21 where it is not stored.
fn entry_commit(commits: &[u8], log: LogId, lsn: Lsn) -> Result<Option<usize>, Refusal>
    requires { commits_ok commits.now ≡ true }
    ensures { HitOf commits.now (entry_commit (commits_in commits.now) log lsn.0) result }
{
    match find_commit(commits, log, lsn.0) {
        Some(i) => Ok(Some(i)),
        None => Err(Refusal::NoCommit),
    }
}

// The search over the first ranges of a path: the first that has an entry of the page decides. It answers the place of that entry's commit, or nothing where no range has one: 21.
fn search_path(
    commits: &[u8],
    index: &[u8],
    path: [LogRange; 8],
    len: usize,
    page: PageIdx,
) -> Result<Option<usize>, Refusal>
    requires { (commits_ok commits.now ≡ true) × (index_ok index.now ≡ true) × (len ≤ 8) }
    ensures { HitOf commits.now (search_path (commits_in commits.now) (index_in index.now) page.0 (map range_says (take len path))) result }
{
    for i in 0..len {
        let range = path[i];
        if let Some(lsn) = entry_in(index, range, page) {
            return entry_commit(commits, range.log, lsn);
        }
    }
    Ok(None)
}

// What a search found: a commit's bytes go to `out`.
fn put_hit(commits: &[u8], hit: Result<Option<usize>, Refusal>, out: &mut [u8]) -> Reply
    requires { (commits_ok commits.now ≡ true) × Within commits.now hit × (length out.old ≡ 722) }
    ensures { (result, out.new) ≡ value_or commit_bytes.spell out.old (hit_says commits.now hit) }
{
    match hit {
        Err(refusal) => refused(refusal),
        Ok(Some(i)) => {
            octets::load_all(commits, commits::row(commits, i), out);
            Reply { code: 0, found: 1 }
        }
        Ok(None) => Reply { code: 0, found: 0 },
    }
}

// The commit that a snapshot has of a page, to `out`: 20, 1, 2, 3, 21.
pub fn search(commits: &[u8], index: &[u8], snapshot: &[u8], page: PageIdx, out: &mut [u8]) -> Reply
    ensures { (result, out.new) ≡ value_or commit_bytes.spell out.old (lent (commits_ok commits.now && index_ok index.now) (search_in (commits_in commits.now) (index_in index.now) snapshot.now page.0 out.old)) }
{
    if !commits_formed(commits) {
        return refused(Refusal::TableForm);
    }
    if !index_formed(index) {
        return refused(Refusal::TableForm);
    }
    let s = snapshot_arg(snapshot);
    if !s.has_lsns() {
        return refused(Refusal::Zero);
    }
    if page.0 == 0 {
        return refused(Refusal::Zero);
    }
    if !s.is_ordered() {
        return refused(Refusal::Reversed);
    }
    if !snapshot_ok(snapshot) {
        return refused(Refusal::Form);
    }
    if out.len() != COMMIT {
        return refused(Refusal::Form);
    }
    let path = s.path;
    put_hit(commits, search_path(commits, index, path, s.len, page), out)
}

// The highest checkpoint of a log at or below an LSN, or nothing: 20, 1.
pub fn checkpoint_at(checkpoints: &[u8], log: LogId, lsn: Lsn) -> Result<Option<Lsn>, Refusal>
    ensures { maybe_lsn_says result ≡ lent (checkpoints_ok checkpoints.now) (checkpoint_read (checkpoints_in checkpoints.now) log lsn.0) }
{
    if !checkpoints_formed(checkpoints) {
        return Err(Refusal::TableForm);
    }
    if lsn.0 == 0 {
        return Err(Refusal::Zero);
    }
    Ok(lookups::checkpoint_at(checkpoints, log, lsn))
}

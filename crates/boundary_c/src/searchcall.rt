// A page's commit in a snapshot, and a log's checkpoint at or below an LSN.
ghost use Rattle.std.specs.Prelude.{◌≡◌, ◌&&◌};
ghost use Rattle.rules.specs.Reads.{checkpoint_read};
ghost use Rattle.layout.specs.Records.{commit_bytes};
ghost use Rattle.layout.specs.Tables.{commits_in, commits_ok, checkpoints_in, checkpoints_ok, index_in, index_ok};
ghost use Rattle.layout.specs.Lent.{lent};
ghost use Rattle.arguments.specs.Replies.{value_or};
ghost use Rattle.searchcalls.specs.Searches.{search_in};

use arguments::Reply;

// The commit that a snapshot has of a page, to `out`, or nothing: 20, 1, 2, 3, 21.
#[unsafe(no_mangle)]
pub extern "C" fn sigatuda_search(
    commits: &[u8],
    index: &[u8],
    snapshot: &[u8],
    page: u32,
    out: &mut [u8],
) -> Reply
    ensures { (result, out.new) ≡ value_or commit_bytes.spell out.old (lent (commits_ok commits.now && index_ok index.now) (search_in (commits_in commits.now) (index_in index.now) snapshot.now page out.old)) }
{
    boundary::searchcall::sigatuda_search(commits, index, snapshot, page, out)
}

// The log's highest checkpoint at or below an LSN, or nothing: 20, 1.
#[unsafe(no_mangle)]
pub extern "C" fn sigatuda_checkpoint_at(
    checkpoints: &[u8],
    log: &[u8; 16],
    lsn: u64,
    checkpoint: &mut u64,
) -> Reply
    ensures { (result, checkpoint.new) ≡ value_or (λ m. m) checkpoint.old (lent (checkpoints_ok checkpoints.now) (checkpoint_read (checkpoints_in checkpoints.now) log.now lsn)) }
{
    boundary::searchcall::sigatuda_checkpoint_at(checkpoints, log, lsn, checkpoint)
}

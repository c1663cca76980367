// The calls that read commits.
ghost use Rattle.std.specs.Prelude.{◌≡◌};
ghost use Rattle.rules.specs.Reads.{commit_read, latest_lsn_read, latest_commit_read, page_count_read};
ghost use Rattle.layout.specs.Records.{commit_bytes};
ghost use Rattle.layout.specs.Tables.{commits_in, commits_ok};
ghost use Rattle.layout.specs.Lent.{lent, sized};
ghost use Rattle.arguments.specs.Replies.{value_or};

use arguments::Reply;

// The log's commit at an LSN, in its table form, or nothing: 20, 1, 3.
#[unsafe(no_mangle)]
pub extern "C" fn sigatuda_commit_read(
    commits: &[u8],
    log: &[u8; 16],
    lsn: u64,
    out: &mut [u8],
) -> Reply
    ensures { (result, out.new) ≡ value_or commit_bytes.spell out.old (sized 722 out.old (lent (commits_ok commits.now) (commit_read (commits_in commits.now) log.now lsn))) }
{
    boundary::commitcall::sigatuda_commit_read(commits, log, lsn, out)
}

// The log's latest commit, in its table form, or nothing: 20, 3.
#[unsafe(no_mangle)]
pub extern "C" fn sigatuda_latest_commit(commits: &[u8], log: &[u8; 16], out: &mut [u8]) -> Reply
    ensures { (result, out.new) ≡ value_or commit_bytes.spell out.old (sized 722 out.old (lent (commits_ok commits.now) (latest_commit_read (commits_in commits.now) log.now))) }
{
    boundary::commitcall::sigatuda_latest_commit(commits, log, out)
}

// The LSN of the log's latest commit, or nothing: 20.
#[unsafe(no_mangle)]
pub extern "C" fn sigatuda_latest_lsn(commits: &[u8], log: &[u8; 16], lsn: &mut u64) -> Reply
    ensures { (result, lsn.new) ≡ value_or (λ n. n) lsn.old (lent (commits_ok commits.now) (latest_lsn_read (commits_in commits.now) log.now)) }
{
    boundary::commitcall::sigatuda_latest_lsn(commits, log, lsn)
}

// The page count of the log's commit at an LSN, or nothing: 20, 1.
#[unsafe(no_mangle)]
pub extern "C" fn sigatuda_page_count(
    commits: &[u8],
    log: &[u8; 16],
    lsn: u64,
    count: &mut u32,
) -> Reply
    ensures { (result, count.new) ≡ value_or (λ n. n) count.old (lent (commits_ok commits.now) (page_count_read (commits_in commits.now) log.now lsn)) }
{
    boundary::commitcall::sigatuda_page_count(commits, log, lsn, count)
}

// The calls that read commits. Each answers on every input: 20 where the lent table is not one, then 1, then 3 for a lent place of another
// size than a record, then the record or nothing. A record goes to lent bytes, in its table form.
#![tactic(auto)]

ghost use Rattle.std.specs.Prelude.{◌≡◌, true, length};
ghost use Rattle.basics.specs.Answers.{done};
ghost use Rattle.basics.specs.Says.{maybe_lsn_says};
ghost use Rattle.layout.specs.Records.{commit_bytes};
ghost use Rattle.layout.specs.Tables.{commits_in, commits_ok};
ghost use Rattle.layout.specs.Lent.{lent, sized};
ghost use Rattle.rules.specs.Reads.{commit_read, latest_lsn_read, latest_commit_read, page_count_read};
ghost use Rattle.commits.specs.Places.{place_says, Inside};
ghost use Rattle.commitcalls.specs.Says.{maybe_count_says, found_says, Answered};

use basics::id::LogId;
use basics::lsn::Lsn;
use basics::page_count::PageCount;
use basics::refusal::Refusal;
use commits::commits_formed;
use layout::COMMIT;

// The LSN of the log's latest commit, its highest: 20.
pub fn latest_lsn(commits: &[u8], log: LogId) -> Result<Option<Lsn>, Refusal>
    ensures { maybe_lsn_says result ≡ lent (commits_ok commits.now) (latest_lsn_read (commits_in commits.now) log) }
{
    if !commits_formed(commits) {
        return Err(Refusal::TableForm);
    }
    match commits::latest(commits, log) {
        Some(i) => Ok(Some(Lsn(commits::lsn_at(commits, i)))),
        None => Ok(None),
    }
}

// The page count of the log's commit at an LSN: 20, 1.
pub fn page_count(commits: &[u8], log: LogId, lsn: Lsn) -> Result<Option<PageCount>, Refusal>
    ensures { maybe_count_says result ≡ lent (commits_ok commits.now) (page_count_read (commits_in commits.now) log lsn.0) }
{
    if !commits_formed(commits) {
        return Err(Refusal::TableForm);
    }
    let n = lsn.0;
    if n == 0 {
        return Err(Refusal::Zero);
    }
    match commits::find_commit(commits, log, n) {
        Some(i) => Ok(Some(PageCount(commits::count_at(commits, i)))),
        None => Ok(None),
    }
}

// The commit at a place of the table written to `out`, if there is one.
fn write_found(t: &[u8], place: Option<usize>, out: &mut [u8]) -> Result<bool, Refusal>
    requires { (commits_ok t.now ≡ true) × Inside t.now place × (length out.old ≡ 722) }
    ensures { Answered commit_bytes (done (place_says t.now place)) (found_says result) out.old out.new }
{
    match place {
        Some(i) => {
            octets::load_all(t, commits::row(t, i), out);
            Ok(true)
        }
        None => Ok(false),
    }
}

// The log's commit at an LSN, to `out`: 20, 1, 3.
pub fn commit_read(commits: &[u8], log: LogId, lsn: Lsn, out: &mut [u8]) -> Result<bool, Refusal>
    ensures { Answered commit_bytes (sized 722 out.old (lent (commits_ok commits.now) (commit_read (commits_in commits.now) log lsn.0))) (found_says result) out.old out.new }
{
    if !commits_formed(commits) {
        return Err(Refusal::TableForm);
    }
    let n = lsn.0;
    if n == 0 {
        return Err(Refusal::Zero);
    }
    if out.len() != COMMIT {
        return Err(Refusal::Form);
    }
    write_found(commits, commits::find_commit(commits, log, n), out)
}

// The log's latest commit, to `out`: 20, 3.
pub fn latest_commit(commits: &[u8], log: LogId, out: &mut [u8]) -> Result<bool, Refusal>
    ensures { Answered commit_bytes (sized 722 out.old (lent (commits_ok commits.now) (latest_commit_read (commits_in commits.now) log))) (found_says result) out.old out.new }
{
    if !commits_formed(commits) {
        return Err(Refusal::TableForm);
    }
    if out.len() != COMMIT {
        return Err(Refusal::Form);
    }
    write_found(commits, commits::latest(commits, log), out)
}

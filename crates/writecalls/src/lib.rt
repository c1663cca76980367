// Writing a commit, given as its 722 bytes, to its three tables: `write_plan` decides and stores nothing, `write_fresh` stores what was planned, `write_commit` is the call.
// Other calls that write a commit ask `write_room` and then `write_stored`.
#![tactic(auto)]

ghost use Rattle.std.specs.Prelude.{◌≡◌, true};
ghost use Rattle.basics.specs.Answers.{code};
ghost use Rattle.basics.specs.Refusals.{code_of};
ghost use Rattle.basics.specs.Orders.{log_lsn, log_page_lsn};
ghost use Rattle.layout.specs.Records.{checkpoint_bytes, entry_bytes, commit_bytes};
ghost use Rattle.layout.specs.Tables.{commits_in, commits_ok, checkpoints_in, checkpoints_ok, index_in, index_ok, laid_over};
ghost use Rattle.layout.specs.Lent.{lent, after};
ghost use Rattle.rules.specs.Records.{commit_key, checkpoint_key, entry_key};
ghost use Rattle.rules.specs.Tables.{fits, store, store_all};
ghost use Rattle.rules.specs.Write.{pages_of, checkpoints_of, entries_of, Logs, write, logs_fit};
ghost use Rattle.setbytes.specs.Laid.{set_laid};
ghost use Rattle.writecalls.specs.Written.{IsCommit, commit_in, logs_in, logs_ok, fresh_in, roomed, plan_says, planned, write_in};

use basics::refusal::Refusal;
use commitbytes::{commit_form, commit_lsns_ok, fields, lsns};
use commits::commits_formed;
use entries::{checkpoints_formed, index_formed};
use layout::{CHECKPOINT, COMMIT, COMMIT_KEY, ENTRY};
use octets::load8;
use pageset::{PageSet, sets};
use setbytes::set_read;

// Where a commit's bytes say whether it has a segment, where that segment's pages stand, and where the listed checkpoints do.
const SEGMENT: usize = 62;

const PAGES: usize = 79;

const CHECKPOINTS: usize = 657;

// Whether the three lent tables are formed (20).
pub fn logs_formed(commits: &[u8], checkpoints: &[u8], index: &[u8]) -> bool
    ensures { result ≡ logs_ok commits.now checkpoints.now index.now }
{
    if !commits_formed(commits) {
        return false;
    }
    if !checkpoints_formed(checkpoints) {
        return false;
    }
    index_formed(index)
}

// The pages of a commit, read where its segment's set stands: none where the segment is missing.
pub fn commit_pages(c: &[u8]) -> PageSet
    requires { IsCommit c.now }
    ensures { result ≡ set_laid (pages_of (commit_in c.now).segment) }
{
    if load8(c, SEGMENT) == 0 {
        return sets::empty();
    }
    set_read(c, PAGES)
}

// Whether the commits have room for a commit: it replaces one, or one more fits.
fn room_for_commit(t: &[u8], c: &[u8]) -> bool
    requires { (commits_ok t.now ≡ true) × IsCommit c.now }
    ensures { result ≡ fits (store commit_key log_lsn (commit_in c.now) (commits_in t.now)) }
{
    table::room(t, COMMIT, COMMIT_KEY, c)
}

// Whether the checkpoints have room for those of a commit.
pub fn room_for_checkpoints(t: &[u8], c: &[u8]) -> bool
    requires { (checkpoints_ok t.now ≡ true) × IsCommit c.now }
    ensures { result ≡ fits (store_all checkpoint_key log_lsn (checkpoints_of (commit_in c.now)) (checkpoints_in t.now)) }
{
    let log = fields::commit_log(c, 0);
    let n = lsns::lsns_number(c, CHECKPOINTS);
    let ns = lsns::lsns_read(c, CHECKPOINTS);
    let more = indexing::count_checkpoints(t, log, ns, n);
    table::room_for(t, CHECKPOINT, more)
}

// How many of a commit's entries have a key that the index lacks.
pub fn fresh_entries(t: &[u8], c: &[u8]) -> usize
    requires { (index_ok t.now ≡ true) × IsCommit c.now }
    ensures { result ≡ fresh_in t.now (commit_in c.now) }
{
    let log = fields::commit_log(c, 0);
    let lsn = fields::commit_lsn(c, 0);
    let set = commit_pages(c);
    indexing::count_entries(t, log, lsn, set)
}

// The checkpoints of a commit put in; there is room for them.
pub fn put_checkpoints(t: &mut [u8], c: &[u8])
    requires t_value { (checkpoints_ok t.old ≡ true) × IsCommit c.now }
    requires t_value_2 { fits (store_all checkpoint_key log_lsn (checkpoints_of (commit_in c.now)) (checkpoints_in t.old)) ≡ true }
    ensures { t.new ≡ laid_over checkpoint_bytes (store_all checkpoint_key log_lsn (checkpoints_of (commit_in c.now)) (checkpoints_in t.old)) t.old }
{
    let log = fields::commit_log(c, 0);
    let n = lsns::lsns_number(c, CHECKPOINTS);
    let ns = lsns::lsns_read(c, CHECKPOINTS);
    indexing::put_checkpoints(t, log, ns, n);
}

// The entries of a commit put in, `fresh` of them new; there is room for them.
pub fn put_entries(t: &mut [u8], c: &[u8], fresh: usize)
    requires t_value { (index_ok t.old ≡ true) × IsCommit c.now }
    requires t_value_2 { fits (store_all entry_key log_page_lsn (entries_of (commit_in c.now)) (index_in t.old)) ≡ true }
    requires fresh_value { fresh ≡ fresh_in t.old (commit_in c.now) }
    ensures { t.new ≡ laid_over entry_bytes (store_all entry_key log_page_lsn (entries_of (commit_in c.now)) (index_in t.old)) t.old }
{
    let log = fields::commit_log(c, 0);
    let lsn = fields::commit_lsn(c, 0);
    let set = commit_pages(c);
    indexing::put_entries(t, log, lsn, set, fresh);
}

// The plan by room alone, for all that a commit adds to the three tables: 19, or the number of new index entries.
fn room_plan(commits: &[u8], checkpoints: &[u8], index: &[u8], c: &[u8]) -> Result<usize, Refusal>
    requires commits_value { (commits_ok commits.now ≡ true) × (checkpoints_ok checkpoints.now ≡ true) × (index_ok index.now ≡ true) }
    requires commit { IsCommit c.now }
    ensures { plan_says result ≡ planned (roomed (write (logs_in commits.now checkpoints.now index.now) (commit_in c.now))) (fresh_in index.now (commit_in c.now)) }
{
    if !room_for_commit(commits, c) {
        return Err(Refusal::NoRoom);
    }
    if !room_for_checkpoints(checkpoints, c) {
        return Err(Refusal::NoRoom);
    }
    let fresh = fresh_entries(index, c);
    if !table::room_for(index, ENTRY, fresh) {
        return Err(Refusal::NoRoom);
    }
    Ok(fresh)
}

// Whether the three tables have room for all that a commit adds.
pub fn write_room(commits: &[u8], checkpoints: &[u8], index: &[u8], c: &[u8]) -> bool
    requires commits_value { (commits_ok commits.now ≡ true) × (checkpoints_ok checkpoints.now ≡ true) × (index_ok index.now ≡ true) }
    requires commit { IsCommit c.now }
    ensures { result ≡ logs_fit (write (logs_in commits.now checkpoints.now index.now) (commit_in c.now)) }
{
    room_plan(commits, checkpoints, index, c).is_ok()
}

// A commit written to the three tables, which have room for all that it adds; `fresh` of its index entries are new.
pub fn write_fresh(
    commits: &mut [u8],
    checkpoints: &mut [u8],
    index: &mut [u8],
    c: &[u8],
    fresh: usize,
)
    requires commits_value { (commits_ok commits.old ≡ true) × (checkpoints_ok checkpoints.old ≡ true) × (index_ok index.old ≡ true) }
    requires commit { IsCommit c.now }
    requires c_value { logs_fit (write (logs_in commits.old checkpoints.old index.old) (commit_in c.now)) ≡ true }
    requires fresh_value { fresh ≡ fresh_in index.old (commit_in c.now) }
    ensures commits_after { commits.new ≡ laid_over commit_bytes (write (logs_in commits.old checkpoints.old index.old) (commit_in c.now)).commits commits.old }
    ensures checkpoints_after { checkpoints.new ≡ laid_over checkpoint_bytes (write (logs_in commits.old checkpoints.old index.old) (commit_in c.now)).checkpoints checkpoints.old }
    ensures index_after { index.new ≡ laid_over entry_bytes (write (logs_in commits.old checkpoints.old index.old) (commit_in c.now)).index index.old }
{
    table::put(commits, COMMIT, COMMIT_KEY, c);
    put_checkpoints(checkpoints, c);
    put_entries(index, c, fresh);
}

// A commit written to the three tables, which have room for all that it adds.
pub fn write_stored(commits: &mut [u8], checkpoints: &mut [u8], index: &mut [u8], c: &[u8])
    requires commits_value { (commits_ok commits.old ≡ true) × (checkpoints_ok checkpoints.old ≡ true) × (index_ok index.old ≡ true) }
    requires commit { IsCommit c.now }
    requires c_value { logs_fit (write (logs_in commits.old checkpoints.old index.old) (commit_in c.now)) ≡ true }
    ensures commits_after { commits.new ≡ laid_over commit_bytes (write (logs_in commits.old checkpoints.old index.old) (commit_in c.now)).commits commits.old }
    ensures checkpoints_after { checkpoints.new ≡ laid_over checkpoint_bytes (write (logs_in commits.old checkpoints.old index.old) (commit_in c.now)).checkpoints checkpoints.old }
    ensures index_after { index.new ≡ laid_over entry_bytes (write (logs_in commits.old checkpoints.old index.old) (commit_in c.now)).index index.old }
{
    let fresh = fresh_entries(index, c);
    write_fresh(commits, checkpoints, index, c, fresh);
}

// The plan of a write, with nothing stored: 20, 3 for another number of bytes, 1, 3, 19, or the number of new index entries.
pub fn write_plan(
    commits: &[u8],
    checkpoints: &[u8],
    index: &[u8],
    c: &[u8],
) -> Result<usize, Refusal>
    ensures { plan_says result ≡ planned (lent (logs_ok commits.now checkpoints.now index.now) (write_in (logs_in commits.now checkpoints.now index.now) c.now)) (fresh_in index.now (commit_in c.now)) }
{
    if !logs_formed(commits, checkpoints, index) {
        return Err(Refusal::TableForm);
    }
    if c.len() != COMMIT {
        return Err(Refusal::Form);
    }
    if !commit_lsns_ok(c, 0) {
        return Err(Refusal::Zero);
    }
    if !commit_form(c, 0) {
        return Err(Refusal::Form);
    }
    room_plan(commits, checkpoints, index, c)
}

// A commit written, all or nothing: it replaces any at its log and LSN, and adds its checkpoints and an index entry for each of its pages: 20, 3 for another number of bytes, 1, 3, 19.
pub fn write_commit(
    commits: &mut [u8],
    checkpoints: &mut [u8],
    index: &mut [u8],
    c: &[u8],
) -> Result<(), Refusal>
    ensures value { code_of result ≡ code (lent (logs_ok commits.old checkpoints.old index.old) (write_in (logs_in commits.old checkpoints.old index.old) c.now)) }
    ensures commits_after { commits.new ≡ after commit_bytes (λ (g : Logs). g.commits) commits.old (lent (logs_ok commits.old checkpoints.old index.old) (write_in (logs_in commits.old checkpoints.old index.old) c.now)) }
    ensures checkpoints_after { checkpoints.new ≡ after checkpoint_bytes (λ (g : Logs). g.checkpoints) checkpoints.old (lent (logs_ok commits.old checkpoints.old index.old) (write_in (logs_in commits.old checkpoints.old index.old) c.now)) }
    ensures index_after { index.new ≡ after entry_bytes (λ (g : Logs). g.index) index.old (lent (logs_ok commits.old checkpoints.old index.old) (write_in (logs_in commits.old checkpoints.old index.old) c.now)) }
{
    match write_plan(commits, checkpoints, index, c) {
        Err(refusal) => Err(refusal),
        Ok(fresh) => {
            write_fresh(commits, checkpoints, index, c, fresh);
            Ok(())
        }
    }
}

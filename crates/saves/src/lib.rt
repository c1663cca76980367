// What a save adds: its LSN, whether its segment is in use, its commit in bytes, and its pages, which become present.
#![tactic(auto)]

ghost use Rattle.std.specs.Prelude.{◌≡◌, ◌+◌, ◌*◌, ◌≤◌, true, false, length};
ghost use Rattle.octets.specs.Bytes as B;
ghost use Rattle.basics.specs.Says.{lsn_says};
ghost use Rattle.pageset.specs.Sets.{shown, normal};
ghost use Rattle.rules.specs.Lists.{any};
ghost use Rattle.rules.specs.Forms.{lsn_form, volume_form, commit_form};
ghost use Rattle.rules.specs.Pages.{size};
ghost use Rattle.rules.specs.Tables.{latest_lsn, fits};
ghost use Rattle.rules.specs.Save.{lsn_after, has_sid, sid_in_use, saved_commit, now_present};
ghost use Rattle.volume.specs.Volumes.{volume_says};
ghost use Rattle.commitbytes.specs.Laid.{commit_laid};
ghost use Rattle.layout.specs.Records.{commit_bytes, present_bytes};
ghost use Rattle.layout.specs.Tables.{commits_in, commits_ok, presence_in, presence_ok, laid_over};
ghost use Rattle.presence.specs.Pages.{of_segment};
ghost use Rattle.saves.specs.Added.{filled};

use basics::id::{LogId, SegmentId};
use basics::lsn::Lsn;
use basics::page_count::PageCount;
use basics::pageidx::PageIdx;
use basics::refusal::Refusal;
use commit::{Commit, SegmentIdx, no_checkpoints};
use commits::{lsn_at, sid_is};
use entries::present_key;
use layout::PRESENT;
use pageset::{PageSet, Window, sets};
use presence::any_present;
use volume::volume::Volume;

// ---- what a save asks

// The LSN after a log's latest, and 1 where it has no commit: 18 where none is left.
pub fn next_lsn(commits: &[u8], log: LogId) -> Result<Lsn, Refusal>
    requires { commits_ok commits.now ≡ true }
    ensures { lsn_says result ≡ lsn_after (latest_lsn (commits_in commits.now) log) }
{
    let Some(i) = commits::latest(commits, log) else {
        return Ok(Lsn(1));
    };
    let n = lsn_at(commits, i);
    if n == 18446744073709551615 {
        return Err(Refusal::NoLsnLeft);
    }
    Ok(Lsn(n + 1))
}

// Whether a commit names the segment.
fn any_commit(commits: &[u8], sid: SegmentId) -> bool
    requires { commits_ok commits.now ≡ true }
    ensures { result ≡ any (λ c. has_sid sid c.segment) (commits_in commits.now).rows }
{
    for i in 0..table::count(commits) {
        if sid_is(commits, i, sid) {
            return true;
        }
    }
    false
}

// Whether a commit or a present page is of the segment.
pub fn in_use(commits: &[u8], presence: &[u8], sid: SegmentId) -> bool
    requires { (commits_ok commits.now ≡ true) × (presence_ok presence.now ≡ true) }
    ensures { result ≡ sid_in_use (commits_in commits.now) (presence_in presence.now) sid }
{
    if any_present(presence, sid) {
        return true;
    }
    any_commit(commits, sid)
}

// ---- the commit

// The commit of a save; it is a checkpoint where the page count is the number of its pages.
fn commit_made(v: Volume, lsn: Lsn, count: PageCount, sid: SegmentId, set: PageSet) -> Commit
    requires { normal set ≡ true }
    ensures { result ≡ commit_laid (saved_commit (volume_says v) lsn.0 count.0 sid (shown set)) }
{
    let log = v.local;
    let segment = SegmentIdx::new(sid, set);
    let c = Commit::new(log, lsn, count).with_segment_idx(segment);
    if count.0 != sets::cardinality(set).0 {
        return c;
    }
    let mut lsns = no_checkpoints();
    lsns[0] = lsn;
    c.with_checkpoints(1, lsns)
}

// Its bytes, over the 722 that are lent. (It is in form.)
pub fn write_saved(
    bytes: &mut [u8],
    v: Volume,
    lsn: Lsn,
    count: PageCount,
    sid: SegmentId,
    set: PageSet,
)
    requires v_value { (volume_form (volume_says v) ≡ true) × (lsn_form lsn.0 ≡ true) × (normal set ≡ true) }
    requires bytes_len { length bytes.old ≡ 722 }
    ensures bytes_after { bytes.new ≡ commit_bytes.spell (saved_commit (volume_says v) lsn.0 count.0 sid (shown set)) }
    ensures set_value { commit_form (saved_commit (volume_says v) lsn.0 count.0 sid (shown set)) ≡ true }
{
    let c = commit_made(v, lsn, count, sid, set);
    commitbytes::commit_write(bytes, 0, c);
}

// ---- the pages

// Whether there is room for the pages of a segment of which none is present.
pub fn room_for_pages(t: &[u8], sid: SegmentId, set: PageSet) -> bool
    requires t_value { (presence_ok t.now ≡ true) × (normal set ≡ true) }
    requires t_value_2 { any (of_segment sid) (presence_in t.now).rows ≡ false }
    ensures { result ≡ fits (now_present sid (shown set) (presence_in t.now)) }
{
    let n = sets::cardinality(set).0 as usize;
    table::room_for(t, PRESENT, n)
}

// The rows of a segment's pages, last page first, over the bytes from a place on.
fn fill_pages(t: &mut [u8], at: usize, sid: SegmentId, set: PageSet)
    requires { (normal set ≡ true) × (at + size (shown set) * 21 ≤ length t.old) }
    ensures { t.new ≡ B.put at (filled sid (shown set)) t.old }
{
    let ws = set.windows;
    let mut to = at;
    let mut i = set.len;
    let mut w = Window { index: 0, mask: 0 };
    let mut n = sets::cardinality(set).0;
    while 0 < n {
        let step = pagesdown::next_down(i, w, ws[pagesdown::last_place(i)]);
        let row = present_key(sid, PageIdx(step.page));
        octets::store_all(t, to, &row);
        to += PRESENT;
        i = step.windows;
        w = step.rest;
        n -= 1;
    }
}

// The pages of a segment of which none is present become present; there is room for them. Their rows are one run, so those behind it move once.
pub fn put_pages(t: &mut [u8], sid: SegmentId, set: PageSet)
    requires t_value { (presence_ok t.old ≡ true) × (normal set ≡ true) }
    requires t_value_2 { any (of_segment sid) (presence_in t.old).rows ≡ false }
    requires t_value_3 { fits (now_present sid (shown set) (presence_in t.old)) ≡ true }
    ensures { t.new ≡ laid_over present_bytes (now_present sid (shown set) (presence_in t.old)) t.old }
{
    let n = sets::cardinality(set).0 as usize;
    let key = present_key(sid, PageIdx(4294967295));
    let i = table::from_key(t, PRESENT, PRESENT, &key);
    let count = table::count(t);
    let at = 2 + i * PRESENT;
    octets::move_up(t, at, n * PRESENT, (count - i) * PRESENT);
    fill_pages(t, at, sid, set);
    octets::store16(t, 0, count + n);
}

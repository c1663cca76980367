// Missing frames: those that meet a gift of the walk and whose set's first page is not present. `next_missing` yields one after another and stores nothing; the call goes over the items
// and, of each, over the frames where they stand: once to count, and once to put.
#![tactic(auto)]

ghost use Rattle.std.specs.Prelude.{◌≡◌, ◌+◌, ◌-◌, ◌/◌, ◌<◌, ◌≤◌, true, ◌&&◌, length, take, Some};
ghost use Rattle.octets.specs.Bytes.{put};
ghost use Rattle.octets.specs.Flat.{flat};
ghost use Rattle.pageset.specs.Sets.{shown, normal};
ghost use Rattle.rules.specs.Walk.{is_missing, missing_of, missing_frames};
ghost use Rattle.commit.specs.Says.{range_says};
ghost use Rattle.layout.specs.Values.{part_bytes};
ghost use Rattle.layout.specs.Tables.{commits_in, commits_ok, presence_in, presence_ok};
ghost use Rattle.layout.specs.Lent.{lent};
ghost use Rattle.gifts.specs.Paths.{places_in, Inside};
ghost use Rattle.gifts.specs.Steps.{items_from};
ghost use Rattle.resultlists.specs.Lists.{slots_in, list_left};
ghost use Rattle.resultlists.specs.Snapshots.{on_snapshot};
ghost use Rattle.missingcalls.specs.Cursors.{SoundAt, Sound, frames_at, frames_left, NextFrame, start_cursor, missing_left, NextMissing};
ghost use Rattle.missingcalls.specs.Entries.{entered, Entries};

use arguments::Reply;
use arguments::replies::refused;
use arguments::snapshots::snapshot_arg;
use basics::page_count::PageCount;
use commit::SegmentRange;
use commits::{commits_formed, row};
use entries::presence_formed;
use gifts::next_set;
use gifts::paths::Path;
use layout::RANGE;
use notes::Notes;
use pageset::{PageSet, sets};
use presence::is_present;
use resultlists::snapshot_given;
use segmentargs::lists::frame_in;
use segmentbytes::frames::frames_count;
use segmentbytes::range_write;

// Where a listing stands: the record whose frames are listed, its gift, the number of its next frame, and the number of the path's next commit.
#[derive(Clone, Copy)]
pub struct Cursor {
    pub at: Option<usize>,
    pub gift: PageSet,
    pub frame: usize,
    pub next: usize,
}

// A missing frame, and where the listing then stands; or none.
#[derive(Clone, Copy)]
pub struct Missing {
    pub found: bool,
    pub range: SegmentRange,
    pub rest: Cursor,
}

// A missing frame of a segment, and the number of the frame after it; or none.
#[derive(Clone, Copy)]
pub struct FrameStep {
    pub found: bool,
    pub range: SegmentRange,
    pub frame: usize,
}

// Whether a frame meets a gift, and the first page of its set is not present.
fn is_missing(presence: &[u8], range: SegmentRange, gift: PageSet) -> bool
    requires { (presence_ok presence.now ≡ true) × (normal range.pages ≡ true) × (normal gift ≡ true) }
    ensures { result ≡ is_missing (presence_in presence.now) (shown gift) (range_says range) }
{
    let sid = range.sid;
    let pages = range.pages;
    let both = sets::cut(pages, gift);
    let common = both.common;
    if common.len == 0 {
        return false;
    }
    let first = sets::first(pages);
    match first {
        Some(page) => !is_present(presence, sid, page),
        None => false,
    }
}

// The next missing frame of record i, which has a segment, from a number on.
fn next_frame(commits: &[u8], presence: &[u8], i: usize, gift: PageSet, from: usize) -> FrameStep
    requires { (commits_ok commits.now ≡ true) × (presence_ok presence.now ≡ true) × SoundAt commits.now (Some i) × (normal gift ≡ true) }
    ensures { NextFrame (presence_in presence.now) (shown gift) (frames_at commits.now i) from result }
{
    let at = row(commits, i) + 63;
    let n = frames_count(commits, at + 401);
    for j in from..n {
        let range = frame_in(commits, at, j);
        if is_missing(presence, range, gift) {
            return FrameStep {
                found: true,
                range,
                frame: j + 1,
            };
        }
    }
    let none = SegmentRange::zero();
    FrameStep {
        found: false,
        range: none,
        frame: n,
    }
}

// The first missing frame of the items from a number of the path on. The notes know nothing of the commits before it.
fn next_item(commits: &[u8], presence: &[u8], path: Path, count: PageCount, from: usize) -> Missing
    requires { (commits_ok commits.now ≡ true) × (presence_ok presence.now ≡ true) × Inside commits.now (places_in path.runs) }
    ensures { NextMissing commits.now (presence_in presence.now) count.0 (places_in path.runs) (missing_of (presence_in presence.now) (items_from commits.now count.0 (places_in path.runs) from)) result }
{
    let mut notes = Notes::unknowing();
    let mut next = from;
    loop {
        let step = next_set(commits, path, count, next, &mut notes);
        let at = step.at;
        let Some(i) = at else {
            let range = SegmentRange::zero();
            return Missing {
                found: false,
                range,
                rest: start(),
            };
        };
        next = step.next;
        let gift = step.gift;
        let f = next_frame(commits, presence, i, gift, 0);
        if f.found {
            let range = f.range;
            let frame = f.frame;
            let rest = Cursor {
                at: Some(i),
                gift,
                frame,
                next,
            };
            return Missing {
                found: true,
                range,
                rest,
            };
        }
    }
}

// The listing before its first frame.
pub fn start() -> Cursor
    ensures { result ≡ start_cursor }
{
    let gift = sets::empty();
    Cursor {
        at: None,
        gift,
        frame: 0,
        next: 0,
    }
}

// The next missing frame of a listing; nothing is stored.
pub fn next_missing(
    commits: &[u8],
    presence: &[u8],
    path: Path,
    count: PageCount,
    c: Cursor,
) -> Missing
    requires { (commits_ok commits.now ≡ true) × (presence_ok presence.now ≡ true) × Inside commits.now (places_in path.runs) × Sound commits.now c }
    ensures { NextMissing commits.now (presence_in presence.now) count.0 (places_in path.runs) (missing_left commits.now (presence_in presence.now) count.0 (places_in path.runs) c) result }
{
    let at = c.at;
    let gift = c.gift;
    let next = c.next;
    let Some(i) = at else {
        return next_item(commits, presence, path, count, next);
    };
    let f = next_frame(commits, presence, i, gift, c.frame);
    if !f.found {
        return next_item(commits, presence, path, count, next);
    }
    let range = f.range;
    let frame = f.frame;
    let rest = Cursor {
        at: Some(i),
        gift,
        frame,
        next,
    };
    Missing {
        found: true,
        range,
        rest,
    }
}

// A frame, where it is missing, as entry `to` of a list that has a place for it; and the number of the next entry.
fn put_frame(
    presence: &[u8],
    gift: PageSet,
    range: SegmentRange,
    list: &mut [u8],
    to: usize,
) -> usize
    requires { (presence_ok presence.now ≡ true) × (normal range.pages ≡ true) × (normal gift ≡ true) × (to < 8589934592) }
    ensures { (result, list.new) ≡ entered (is_missing (presence_in presence.now) (shown gift) (range_says range)) to (range_says range) list.old }
{
    if !is_missing(presence, range, gift) {
        return to;
    }
    if list.len() / RANGE <= to {
        return to + 1;
    }
    range_write(list, to * RANGE, range);
    to + 1
}

// The missing frames of record i, which has a segment, as entries of a list from number `from` on, as far as it has places; and the number behind all of them.
fn put_frames(
    commits: &[u8],
    presence: &[u8],
    i: usize,
    gift: PageSet,
    list: &mut [u8],
    from: usize,
) -> usize
    requires commits_value { (commits_ok commits.now ≡ true) × (presence_ok presence.now ≡ true) × SoundAt commits.now (Some i) × (normal gift ≡ true) }
    requires from_bound { from < 4294967296 }
    ensures value { result ≡ from + length (frames_left (presence_in presence.now) (shown gift) (frames_at commits.now i) 0) }
    ensures entries { Entries from (take (length list.old / 417 - from) (frames_left (presence_in presence.now) (shown gift) (frames_at commits.now i) 0)) list.old list.new }
{
    let at = row(commits, i) + 63;
    let n = frames_count(commits, at + 401);
    let mut to = from;
    for j in 0..n {
        to = put_frame(presence, gift, frame_in(commits, at, j), list, to);
    }
    to
}

// How many missing frames a path has: they are put into a list without places.
fn count_missing(commits: &[u8], presence: &[u8], path: Path, count: PageCount) -> usize
    requires { (commits_ok commits.now ≡ true) × (presence_ok presence.now ≡ true) × Inside commits.now (places_in path.runs) }
    ensures { result ≡ length (missing_of (presence_in presence.now) (items_from commits.now count.0 (places_in path.runs) 0)) }
{
    let mut none = [0u8; 1];
    let mut notes = Notes::new();
    let mut k: usize = 0;
    let mut n: usize = 0;
    loop {
        let step = next_set(commits, path, count, k, &mut notes);
        let at = step.at;
        let Some(i) = at else {
            return n;
        };
        n = put_frames(commits, presence, i, step.gift, &mut none, n);
        k = step.next;
    }
}

// The missing frames of a path, one after another from the start of the list on, and their number.
fn put_missing(
    commits: &[u8],
    presence: &[u8],
    path: Path,
    count: PageCount,
    list: &mut [u8],
) -> usize
    requires commits_value { (commits_ok commits.now ≡ true) × (presence_ok presence.now ≡ true) × Inside commits.now (places_in path.runs) }
    requires runs_in_bounds { length (missing_of (presence_in presence.now) (items_from commits.now count.0 (places_in path.runs) 0)) ≤ length list.old / 417 }
    ensures value { (result ≡ length (missing_of (presence_in presence.now) (items_from commits.now count.0 (places_in path.runs) 0))) × (result < 4294967296) }
    ensures list_after { list.new ≡ put 0 (flat part_bytes.spell (missing_of (presence_in presence.now) (items_from commits.now count.0 (places_in path.runs) 0))) list.old }
{
    let mut notes = Notes::new();
    let mut k: usize = 0;
    let mut n: usize = 0;
    loop {
        let step = next_set(commits, path, count, k, &mut notes);
        let at = step.at;
        let Some(i) = at else {
            return n;
        };
        n = put_frames(commits, presence, i, step.gift, list, n);
        k = step.next;
    }
}

// The frames of a snapshot's segments that meet a gift of its walk and are missing, as ranges: 20, 1, 2, 3, 19.
pub fn missing_frames(
    commits: &[u8],
    presence: &[u8],
    snapshot: &[u8],
    list: &mut [u8],
    items: &mut u32,
) -> Reply
    ensures { (result, (list.new, items.new)) ≡ list_left part_bytes list.old items.old (lent (commits_ok commits.now && presence_ok presence.now) (on_snapshot snapshot.now (missing_frames (commits_in commits.now) (presence_in presence.now) (slots_in part_bytes list.old)))) }
{
    if !commits_formed(commits) {
        return Reply { code: 20, found: 0 };
    }
    if !presence_formed(presence) {
        return Reply { code: 20, found: 0 };
    }
    if let Err(refusal) = snapshot_given(snapshot) {
        return refused(refusal);
    }
    let s = snapshot_arg(snapshot);
    let path = Path::of(commits, s);
    let count = s.count;
    if list.len() / RANGE < count_missing(commits, presence, path, count) {
        return Reply { code: 19, found: 0 };
    }
    let n = put_missing(commits, presence, path, count, list);
    *items = n as u32;
    Reply { code: 0, found: 1 }
}

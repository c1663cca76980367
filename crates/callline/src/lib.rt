// The lines of a call list: a line's bytes to the call that it names and the values of its keys, or that it is not in the form (24).
#![tactic(auto)]

pub mod fields;
pub mod texts;
pub mod values;

ghost use Rattle.std.specs.Prelude.{◌≡◌};
ghost use Rattle.callline.specs.Lines.{open_of, snap_of, save_of, find_of, fetch_of, pull_of, meaning};
ghost use Rattle.callline.specs.Says.{read_on, line_says, Placed};

use crate::fields::Cursor;
use crate::values::LAST_U32;

// The last of the slots that hold snapshots.
pub const LAST_SLOT: u64 = 3;

// The largest LSN.
pub const LAST_LSN: u64 = 18446744073709551615;

// The most bytes of a line, its newline not counted.
pub const LINE_BYTES: usize = 256;

// A call with the values of its keys: an identifier by its last byte, pages by the place of their text in the line. Or a line not in the form.
#[derive(Clone, Copy)]
pub enum Line {
    Malformed,
    Open {
        vid: u8,
        local: u8,
        remote: u8,
    },
    Snap {
        vid: u8,
        slot: u8,
    },
    Save {
        vid: u8,
        slot: u8,
        count: u32,
        sid: u8,
        from: usize,
        to: usize,
    },
    Find {
        slot: u8,
        page: u32,
    },
    Fetch {
        log: u8,
        lsn: u64,
        count: u32,
        sid: u8,
        from: usize,
        to: usize,
    },
    Pull {
        vid: u8,
    },
}

// op=open vid= local= remote=, behind its first word.
fn parse_open(line: &[u8], op: Cursor) -> Line
    ensures result_value { line_says line.now result ≡ read_on line.now op open_of }
    ensures placed { Placed line.now result }
{
    let vid = fields::identifier(line, op, b"vid=");
    let local = fields::identifier(line, vid.next, b"local=");
    let remote = fields::identifier(line, local.next, b"remote=");
    if !fields::is_over(line, remote.next) {
        return Line::Malformed;
    }
    Line::Open {
        vid: vid.value as u8,
        local: local.value as u8,
        remote: remote.value as u8,
    }
}

// op=snap vid= slot=, behind its first word.
fn parse_snap(line: &[u8], op: Cursor) -> Line
    ensures result_value { line_says line.now result ≡ read_on line.now op snap_of }
    ensures placed { Placed line.now result }
{
    let vid = fields::identifier(line, op, b"vid=");
    let slot = fields::decimal(line, vid.next, b"slot=", LAST_SLOT);
    if !fields::is_over(line, slot.next) {
        return Line::Malformed;
    }
    Line::Snap {
        vid: vid.value as u8,
        slot: slot.value as u8,
    }
}

// op=save vid= slot= count= sid= pages=, behind its first word.
fn parse_save(line: &[u8], op: Cursor) -> Line
    ensures result_value { line_says line.now result ≡ read_on line.now op save_of }
    ensures placed { Placed line.now result }
{
    let vid = fields::identifier(line, op, b"vid=");
    let slot = fields::decimal(line, vid.next, b"slot=", LAST_SLOT);
    let count = fields::decimal(line, slot.next, b"count=", LAST_U32);
    let sid = fields::identifier(line, count.next, b"sid=");
    let pages = fields::pages(line, sid.next, b"pages=");
    let last = Cursor {
        good: pages.good,
        end: pages.to,
    };
    if !fields::is_over(line, last) {
        return Line::Malformed;
    }
    Line::Save {
        vid: vid.value as u8,
        slot: slot.value as u8,
        count: count.value as u32,
        sid: sid.value as u8,
        from: pages.from,
        to: pages.to,
    }
}

// op=find slot= page=, behind its first word.
fn parse_find(line: &[u8], op: Cursor) -> Line
    ensures result_value { line_says line.now result ≡ read_on line.now op find_of }
    ensures placed { Placed line.now result }
{
    let slot = fields::decimal(line, op, b"slot=", LAST_SLOT);
    let page = fields::decimal(line, slot.next, b"page=", LAST_U32);
    if !fields::is_over(line, page.next) {
        return Line::Malformed;
    }
    Line::Find {
        slot: slot.value as u8,
        page: page.value as u32,
    }
}

// op=fetch log= lsn= count= sid= pages=, behind its first word.
fn parse_fetch(line: &[u8], op: Cursor) -> Line
    ensures result_value { line_says line.now result ≡ read_on line.now op fetch_of }
    ensures placed { Placed line.now result }
{
    let log = fields::identifier(line, op, b"log=");
    let lsn = fields::decimal(line, log.next, b"lsn=", LAST_LSN);
    let count = fields::decimal(line, lsn.next, b"count=", LAST_U32);
    let sid = fields::identifier(line, count.next, b"sid=");
    let pages = fields::pages(line, sid.next, b"pages=");
    let last = Cursor {
        good: pages.good,
        end: pages.to,
    };
    if !fields::is_over(line, last) {
        return Line::Malformed;
    }
    Line::Fetch {
        log: log.value as u8,
        lsn: lsn.value,
        count: count.value as u32,
        sid: sid.value as u8,
        from: pages.from,
        to: pages.to,
    }
}

// op=pull vid=, behind its first word.
fn parse_pull(line: &[u8], op: Cursor) -> Line
    ensures result_value { line_says line.now result ≡ read_on line.now op pull_of }
    ensures placed { Placed line.now result }
{
    let vid = fields::identifier(line, op, b"vid=");
    if !fields::is_over(line, vid.next) {
        return Line::Malformed;
    }
    Line::Pull {
        vid: vid.value as u8,
    }
}

// The call that a line names and the values of its keys, or that the line is not in the form.
pub fn parse(line: &[u8]) -> Line
    ensures result_value { line_says line.now result ≡ meaning line.now }
    ensures placed { Placed line.now result }
{
    if LINE_BYTES < line.len() {
        return Line::Malformed;
    }
    let end = texts::piece_end(line, 0, 32);
    let op = Cursor { good: true, end };
    if texts::is_text(&line[0..end], b"op=open") {
        return parse_open(line, op);
    }
    if texts::is_text(&line[0..end], b"op=snap") {
        return parse_snap(line, op);
    }
    if texts::is_text(&line[0..end], b"op=save") {
        return parse_save(line, op);
    }
    if texts::is_text(&line[0..end], b"op=find") {
        return parse_find(line, op);
    }
    if texts::is_text(&line[0..end], b"op=fetch") {
        return parse_fetch(line, op);
    }
    if texts::is_text(&line[0..end], b"op=pull") {
        return parse_pull(line, op);
    }
    Line::Malformed
}

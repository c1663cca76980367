// The frames of a segment in bytes: their number, and 16 places of 12 bytes, a frame's size and its last page; zero past the frames that count.
ghost use Rattle.std.specs.Prelude.{◌≡◌, ◌+◌, ◌-◌, ◌*◌, ◌≤◌, ◌++◌, map, length, take, replicate};
ghost use Rattle.octets.specs.Bytes.{part, put};
ghost use Rattle.octets.specs.Flat.{flat};
ghost use Rattle.basics.specs.Numbers.{last_lsn};
ghost use Rattle.commit.specs.Builders.{zero_frame};
ghost use Rattle.commit.specs.Says.{frame_says};
ghost use Rattle.layout.specs.Codecs.{Codec, in_form};
ghost use Rattle.layout.specs.Values.{frame_bytes, frames_bytes};
ghost use Rattle.segmentbytes.specs.Laid.{frames_at, frame_laid, frames_laid, IsLaid};
ghost use Rattle.segmentbytes.specs.Domain.{domain, frames_from};

use basics::pageidx::PageIdx;
use commit::{Frame, no_frames};
use octets::{all_zero, load8, load32, load64, store8, store32, store64};
use setbytes::count_read;

// The frame at a place.
fn frame_read(s: &[u8], at: usize) -> Frame
    requires { at + 12 ≤ length s.now }
    ensures { result ≡ frame_laid (frame_bytes.read (part at 12 s.now)) }
{
    let size = load64(s, at);
    let last = PageIdx(load32(s, at + 8));
    Frame { size, last }
}

// A frame over the 12 bytes at a place.
fn frame_write(s: &mut [u8], at: usize, f: Frame)
    requires { at + 12 ≤ length s.old }
    ensures { s.new ≡ put at (frame_bytes.spell (frame_says f)) s.old }
{
    store64(s, at, f.size);
    store32(s, at + 8, f.last.0);
}

// Whether the last pages of the n frames from a place on strictly rise from the page after `start` on, and their sizes sum to at most 2^64-1.
fn in_domain(s: &[u8], at: usize, n: usize, start: u32) -> bool
    requires { (n ≤ 16) × (at + n * 12 ≤ length s.now) }
    ensures { result ≡ domain (start + 1) last_lsn (frames_at n at s.now) }
{
    let mut below = start;
    let mut room = u64::MAX;
    for i in 0..n {
        let f = frame_read(s, at + i * 12);
        if f.last.0 <= below {
            return false;
        }
        if room < f.size {
            return false;
        }
        below = f.last.0;
        room -= f.size;
    }
    true
}

// Whether the 193 bytes at a place are those of at most 16 frames whose last pages rise from the page after `start` on, within the sum of sizes.
pub fn frames_form(s: &[u8], at: usize, start: u32) -> bool
    requires { at + 193 ≤ length s.now }
    ensures { result ≡ in_form frames_bytes (frames_from (start + 1)) (part at 193 s.now) }
{
    let n = usize::from(load8(s, at));
    if 16 < n {
        return false;
    }
    if !in_domain(s, at + 1, n, start) {
        return false;
    }
    all_zero(s, at + 1 + n * 12, (16 - n) * 12)
}

// The number of frames that the 193 bytes at a place spell.
pub fn frames_count(s: &[u8], at: usize) -> usize
    requires { at + 193 ≤ length s.now }
    ensures { result ≡ length (frames_bytes.read (part at 193 s.now)) }
{
    count_read(s, at, 16)
}

// The frames that the 193 bytes at a place spell, in an array; zero past them.
// Kept: windows, LSNs and ranges have the same loop in their crates; a trait would want an impl where neither it nor the type stands, and a closure a law longer than the loop.
pub fn frames_read(s: &[u8], at: usize) -> [Frame; 16]
    requires { at + 193 ≤ length s.now }
    ensures { result ≡ frames_laid (frames_bytes.read (part at 193 s.now)) }
{
    let n = count_read(s, at, 16);
    let mut fs = no_frames();
    for i in 0..n {
        fs[i] = frame_read(s, at + 1 + i * 12);
    }
    fs
}

// All frames of an array over the 192 bytes at a place.
// Kept: windows, LSNs and ranges have the same loop in their crates; a trait would want an impl where neither it nor the type stands, and a closure a law longer than the loop.
fn all_write(s: &mut [u8], at: usize, fs: [Frame; 16])
    requires { at + 192 ≤ length s.old }
    ensures { s.new ≡ put at (flat (λ f. frame_bytes.spell (frame_says f)) fs) s.old }
{
    for (i, f) in fs.iter().enumerate() {
        frame_write(s, at + 12 * i, *f);
    }
}

// The first n frames of an array that is zero past them, over the 193 bytes at a place.
pub fn frames_write(s: &mut [u8], at: usize, n: usize, fs: [Frame; 16])
    requires at_in_bounds { at + 193 ≤ length s.old }
    requires laid { IsLaid n fs }
    ensures { s.new ≡ put at (frames_bytes.spell (map frame_says (take n fs))) s.old }
{
    store8(s, at, n as u8);
    all_write(s, at + 1, fs);
}

// A segment as plain lists, and where its frames lie.
use basics::id::SegmentId;
use basics::pageidx::PageIdx;
use commit::{Frame, SegmentIdx};
use plainset::held::Held;
use plainset::naive::Pages;
use plainset::{naive, random};

// A set beside the list of its pages, and the frames. The first `len` count; it may say more than there are, and is refused then.
#[derive(Clone, Copy)]
pub struct Plain {
    pub held: Held,
    pub len: usize,
    pub frames: [Frame; 16],
}

impl Plain {
    // A segment without frames.
    pub fn bare(held: Held) -> Plain {
        let frames = commit::no_frames();
        Plain {
            held,
            len: 0,
            frames,
        }
    }

    // The segment with a frame more; as it was where it has 16.
    pub fn with(self, size: u64, last: u32) -> Plain {
        let mut more = self;
        if more.len < 16 {
            let last = PageIdx(last);
            more.frames[more.len] = Frame { size, last };
            more.len += 1;
        }
        more
    }

    // The same lists, with another number of frames that count.
    pub fn counted(self, len: usize) -> Plain {
        Plain { len, ..self }
    }

    // The segment by value.
    pub fn segment(&self) -> SegmentIdx {
        SegmentIdx::new(sid(), self.held.set).with_frames(self.len, self.frames)
    }

    // The size of frame i; 0 where there is none.
    pub fn size(&self, i: usize) -> u64 {
        self.frames.get(i).map_or(0, |frame| frame.size)
    }

    // The last page of frame i; 0 where there is none.
    fn last(&self, i: usize) -> u32 {
        self.frames.get(i).map_or(0, |frame| frame.last.0)
    }

    // The first page of frame i: that after the last page of the frame before; of the first frame the lowest page of the list, or page 1.
    fn first(&self, i: usize) -> u64 {
        match i.checked_sub(1) {
            Some(before) => u64::from(self.last(before)) + 1,
            None => u64::from(naive::lowest(&self.held.pages).unwrap_or(1)),
        }
    }

    // The byte at which frame i starts: the sum of the sizes before it.
    pub fn start(&self, i: usize) -> u64 {
        self.frames
            .iter()
            .take(i)
            .fold(0u64, |sum, frame| sum.wrapping_add(frame.size))
    }

    // The byte at which frame i ends.
    pub fn end(&self, i: usize) -> u64 {
        self.start(i).wrapping_add(self.size(i))
    }

    // Whether frame i is out of the domain: it ends below its first page, or its bytes end above 2^64-1.
    fn is_bad(&self, i: usize) -> bool {
        u64::from(self.last(i)) < self.first(i) || self.end(i) < self.start(i)
    }

    // The number of a segment: 3 where there are over 16 frames, or one is out of the domain; else 0.
    pub fn fault(&self) -> u32 {
        if 16 < self.len || (0..self.len).any(|i| self.is_bad(i)) {
            3
        } else {
            0
        }
    }

    // The pages of frame i: those of the list from its first page to its last.
    pub fn pages_of(&self, i: usize) -> Pages {
        let first = random::clipped(self.first(i));
        let last = self.last(i);
        naive::kept(self.held.pages, |p| naive::is_within(p, first, last))
    }

    // The first frame that has a page.
    pub fn frame_of(&self, page: u32) -> Option<usize> {
        (0..self.len).find(|i| naive::has(&self.pages_of(*i), page))
    }
}

// The segment of all that is tried.
pub fn sid() -> SegmentId {
    [83u8; 16]
}

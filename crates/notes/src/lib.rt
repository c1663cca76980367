// What is known of the pages that the earlier commits of a path hold, in a memory of its own size however many there are. It serves speed alone: what it does not know is asked of the commits.
// 64 places, place s for one of the windows of number s modulo 64: its tag is that number divided by 64, its mask the pages of the window that are held. And 4,096 marks, bit by bit: a
// window whose mark (its number modulo 4,096) is not set has no page that is held.
#![tactic(auto)]

ghost use Rattle.std.specs.Prelude.{◌≡◌, ℕ, ◌≤◌, Bool, false};
ghost use Rattle.notes.specs.Known.{Known, AsNoted};

use pageset::bits::has_bit;

// The notes of a walk: of each place the tag of its window and the mask of that window's held pages, and the marks of the windows met, 64 in a word. Whoever walks may give notes of its own: what a step asks of them is said by `Known`.
#[derive(Clone, Copy)]
pub struct Notes {
    pub tags: [u32; 64],
    pub masks: [u64; 64],
    pub marks: [u64; 64],
}

impl Notes {
    // The notes while no page is held.
    pub fn new() -> Notes
        ensures { Known (λ p. false) result }
    {
        Notes {
            tags: [0; 64],
            masks: [0; 64], // of no page
            marks: [0; 64],
        }
    }

    // Notes that know nothing, whatever pages are held: each place has a window past the last, and each mark is set.
    pub fn unknowing() -> Notes
        ensures { (held : ℕ → Bool) → ((p : ℕ) → 4294967296 ≤ p → held p ≡ false) → Known held result }
    {
        Notes {
            tags: [u32::MAX; 64],
            masks: [0; 64],
            marks: [u64::MAX; 64],
        }
    }

    // Notes that a commit holds these pages of a window, and tells the pages of the window that were held before; none where it does not know. A window that was not met yet moves into its place.
    pub fn note(&mut self, index: u32, mask: u64) -> Option<u64>
        ensures { AsNoted index mask self.old self.new result }
    {
        let at = (index % 64) as usize;
        let tag = index / 64;
        let word = (index / 64 % 64) as usize;
        let marked = has_bit(self.marks[word], index % 64);
        self.marks[word] |= 1u64 << (index % 64);
        if self.tags[at] == tag {
            let held = self.masks[at];
            self.masks[at] = held | mask;
            return Some(held);
        }
        if marked {
            return None;
        }
        self.tags[at] = tag;
        self.masks[at] = mask;
        Some(0)
    }
}

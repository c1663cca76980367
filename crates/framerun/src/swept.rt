// A segment asked for everything: its form, its frame list, and the frame and the bytes of many pages.
use plainframes::asked;
use plainframes::plain::Plain;
use plainset::naive;
use plainset::tally::Tally;

// The lent bytes, no two the same.
const LENT: &[u8] = b"ABCDEFGHIJKLMNOPQRSTUVWXYZabcdefghijklmnopqrstuvwxyz0123456789+/";

// The frame of a page, and where its bytes lie: in none, 5 and 64 lent bytes, and in as many as can be said.
pub fn page(tally: &mut Tally, p: &Plain, page: u32) {
    asked::page(tally, p, page);
    for lent in [&LENT[..0], &LENT[..5], LENT] {
        asked::part(tally, p, page, lent);
    }
    for lent in [usize::MAX - 1, usize::MAX] {
        asked::bytes(tally, p, page, lent);
    }
}

// A page and the pages beside it; nothing where there is no page.
fn around(tally: &mut Tally, p: &Plain, number: u32) {
    if number == 0 {
        return;
    }
    for beside in naive::around(number) {
        page(tally, p, beside);
    }
}

// A segment: its form, its list, its pages and its frames' last pages, and the pages beside them.
pub fn all(tally: &mut Tally, p: &Plain) {
    asked::form(tally, p);
    asked::list(tally, p);
    page(tally, p, 0);
    for number in p.held.pages {
        around(tally, p, number);
    }
    for frame in p.frames {
        around(tally, p, frame.last.0);
    }
}

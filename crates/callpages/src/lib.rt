// The pages of a call list line as a set: built by windows, range by range, and never page by page.
#![tactic(auto)]

ghost use Rattle.std.specs.Prelude.{◌≡◌, ◌<◌, ◌≤◌, true, ◌||◌};
ghost use Rattle.basics.specs.Answers.{done};
ghost use Rattle.pageset.specs.Sets.{member, normal};
ghost use Rattle.pageset.specs.Rules.{within};
ghost use Rattle.pageset.specs.Says.{GivesOr22};
ghost use Rattle.callpages.specs.Pages.{pages_rule};

use basics::pageidx::PageIdx;
use callline::values::Pages;
use callline::{texts, values};
use pageset::{PageSet, SetAnswer, sets};

// A set with the pages of a range, or 22.
fn with_range(s: PageSet, first: PageIdx, last: PageIdx) -> SetAnswer
    requires { (normal s ≡ true) × (0 < first.0) × (first.0 ≤ last.0) }
    ensures { GivesOr22 result (done (λ p. member s p || within first.0 last.0 p)) }
{
    let part = sets::from_range(first, last);
    if part.code != 0 {
        return part;
    }
    let pages = part.set;
    sets::union(s, pages)
}

// The set of the pages that a text names: 24 for a text that is not in the form, then 22.
pub fn page_set(text: &[u8]) -> SetAnswer
    ensures { GivesOr22 result (pages_rule text.now) }
{
    if !values::is_pages(text) {
        return sets::refusal(24);
    }
    let mut set = sets::empty();
    if texts::is_text(text, b"-") {
        return SetAnswer { code: 0, set };
    }
    let mut at: usize = 0;
    loop {
        let end = texts::piece_end(text, at, 44);
        let Pages::From(first, last) = values::range(&text[at..end]) else {
            return sets::refusal(24);
        };
        let sum = with_range(set, PageIdx(first), PageIdx(last));
        if sum.code != 0 {
            return sum;
        }
        set = sum.set;
        if end == text.len() {
            return SetAnswer { code: 0, set };
        }
        at = end + 1;
    }
}

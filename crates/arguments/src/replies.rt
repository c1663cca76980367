// Answers by value as a reply and what is lent: written where there is an answer under 0, else as found.
ghost use Rattle.std.specs.Prelude.{◌≡◌};
ghost use Rattle.basics.specs.Answers.{done};
ghost use Rattle.basics.specs.Refusals.{code_of, number_of};
ghost use Rattle.basics.specs.Says.{lsn_says, maybe_lsn_says, page_says, maybe_page_says};
ghost use Rattle.volume.specs.Volumes.{changes_says};
ghost use Rattle.pagecalls.specs.Says.{count_says, page_says as end_says, yes_says};
ghost use Rattle.arguments.specs.Replies.{none_under, value, value_or, yes_or_no, numbered_reply, bit as bit_of};

use super::Reply;
use basics::lsn::Lsn;
use basics::page_count::PageCount;
use basics::pageidx::PageIdx;
use basics::refusal::Refusal;
use volume::volume::LsnRange;

// A refusal.
pub fn refused(refusal: Refusal) -> Reply
    ensures { result ≡ none_under (number_of refusal) }
{
    Reply {
        code: refusal.number(),
        found: 0,
    }
}

// An LSN.
pub fn put_lsn(a: Result<Lsn, Refusal>, out: &mut u64) -> Reply
    ensures { (result, out.new) ≡ value (λ m. m) out.old (lsn_says a) }
{
    match a {
        Err(refusal) => refused(refusal),
        Ok(n) => {
            *out = n.0;
            Reply { code: 0, found: 1 }
        }
    }
}

// An LSN or nothing.
pub fn put_maybe_lsn(a: Result<Option<Lsn>, Refusal>, out: &mut u64) -> Reply
    ensures { (result, out.new) ≡ value_or (λ m. m) out.old (maybe_lsn_says a) }
{
    match a {
        Err(refusal) => refused(refusal),
        Ok(Some(n)) => {
            *out = n.0;
            Reply { code: 0, found: 1 }
        }
        Ok(None) => Reply { code: 0, found: 0 },
    }
}

// A page.
pub fn put_page(a: Result<PageIdx, Refusal>, out: &mut u32) -> Reply
    ensures { (result, out.new) ≡ value (λ m. m) out.old (page_says a) }
{
    match a {
        Err(refusal) => refused(refusal),
        Ok(p) => {
            *out = p.0;
            Reply { code: 0, found: 1 }
        }
    }
}

// A page or nothing.
pub fn put_maybe_page(a: Option<PageIdx>, out: &mut u32) -> Reply
    ensures { (result, out.new) ≡ value_or (λ m. m) out.old (done (maybe_page_says a)) }
{
    match a {
        Some(p) => {
            *out = p.0;
            Reply { code: 0, found: 1 }
        }
        None => Reply { code: 0, found: 0 },
    }
}

// A range of LSNs or nothing.
pub fn put_changes(a: Result<Option<LsnRange>, Refusal>, start: &mut u64, end: &mut u64) -> Reply
    ensures { (result, (start.new, end.new)) ≡ value_or (λ m. m) (start.old, end.old) (changes_says a) }
{
    match a {
        Err(refusal) => refused(refusal),
        Ok(Some(range)) => {
            *start = range.start.0;
            *end = range.end.0;
            Reply { code: 0, found: 1 }
        }
        Ok(None) => Reply { code: 0, found: 0 },
    }
}

// A number of pages.
pub fn put_count(a: Result<PageCount, Refusal>, out: &mut u32) -> Reply
    ensures { (result, out.new) ≡ value (λ m. m) out.old (count_says a) }
{
    match a {
        Err(refusal) => refused(refusal),
        Ok(n) => {
            *out = n.0;
            Reply { code: 0, found: 1 }
        }
    }
}

// A set's first or last page, or nothing.
pub fn put_end(a: Result<Option<PageIdx>, Refusal>, out: &mut u32) -> Reply
    ensures { (result, out.new) ≡ value_or (λ m. m) out.old (end_says a) }
{
    match a {
        Err(refusal) => refused(refusal),
        Ok(Some(p)) => {
            *out = p.0;
            Reply { code: 0, found: 1 }
        }
        Ok(None) => Reply { code: 0, found: 0 },
    }
}

// Yes or no.
pub fn yes_or_no(a: Result<bool, Refusal>) -> Reply
    ensures { result ≡ yes_or_no (yes_says a) }
{
    match a {
        Err(refusal) => refused(refusal),
        Ok(true) => Reply { code: 0, found: 1 },
        Ok(false) => Reply { code: 0, found: 0 },
    }
}

// 1 for yes, 0 for no.
pub fn bit(b: bool) -> u32
    ensures { result ≡ bit_of b }
{
    if b { 1 } else { 0 }
}

// The number of a call that answers nothing else.
pub fn numbered(answer: Result<(), Refusal>) -> Reply
    ensures { result ≡ numbered_reply (code_of answer) }
{
    match answer {
        Err(refusal) => refused(refusal),
        Ok(()) => Reply { code: 0, found: 1 },
    }
}

// The number of a call that answers nothing else, where it is still a number.
pub fn by_number(code: u32) -> Reply
    ensures { result ≡ numbered_reply code }
{
    if code == 0 {
        return Reply { code: 0, found: 1 };
    }
    Reply { code, found: 0 }
}

// Answers of the calls over tables as a reply and what is lent: written where there is an answer under 0, else as found.
#![tactic(auto)]

ghost use Rattle.std.specs.Prelude.{◌≡◌, ℕ, ◌==◌};
ghost use Rattle.basics.specs.Answers.{code};
ghost use Rattle.basics.specs.Refusals.{number_of};
ghost use Rattle.volume.specs.Volumes.{volume_says};
ghost use Rattle.tagcalls.specs.Says.{named_says};
ghost use Rattle.arguments.specs.Replies.{none_under, value_or, yes_or_no};
ghost use Rattle.tablereplies.specs.Records.{says_by, counted, volume_put};

use arguments::Reply;
use arguments::replies::refused;
use basics::id::VolumeId;
use basics::page_count::PageCount;
use basics::refusal::Refusal;
use layout::VOLUME;
use volume::volume::Volume;
use volumebytes::put_out;

// What refuses a call, as its reply tells it: one of document 01's refusals, or any number.
pub trait Numbered: Copy {
    // The number that the reply tells.
    ghost number: { Self → ℕ };

    fn to_number(self) -> u32
        ensures { result ≡ number self };
}

// Document 01's number.
impl Numbered for Refusal {
    ghost number = { number_of };

    fn to_number(self) -> u32 {
        Refusal::number(self)
    }
}

// Any number, as it is.
impl Numbered for u32 {
    ghost number = { λ n. n };

    fn to_number(self) -> u32 {
        self
    }
}

// A refusal under its number.
fn told<R: Numbered>(refusal: R) -> Reply
    ensures { result ≡ none_under (R.number refusal) }
{
    Reply {
        code: refusal.to_number(),
        found: 0,
    }
}

// Whether an answer is 20, which comes before the lent place's 3.
fn is_unformed<R: Numbered>(a: Result<Volume, R>) -> bool
    ensures { result ≡ (code (says_by R.number volume_says a) == 20) }
{
    match a {
        Err(refusal) => refusal.to_number() == 20,
        Ok(_) => false,
    }
}

// A volume: 20 of the call; 3 for a lent place of another length; the call's other numbers; or the volume's bytes.
pub fn put_volume<R: Numbered>(a: Result<Volume, R>, out: &mut [u8]) -> Reply
    ensures { (result, out.new) ≡ volume_put out.old (says_by R.number volume_says a) }
{
    if is_unformed(a) {
        return refused(Refusal::TableForm);
    }
    if out.len() != VOLUME {
        return refused(Refusal::Form);
    }
    match a {
        Err(refusal) => told(refusal),
        Ok(volume) => {
            put_out(out, volume);
            Reply { code: 0, found: 1 }
        }
    }
}

// The volume that a tag names, or nothing.
pub fn put_tagged<R: Numbered>(a: Result<Option<VolumeId>, R>, vid: &mut [u8; 16]) -> Reply
    ensures { (result, vid.new) ≡ value_or (λ v. v) vid.old (says_by R.number named_says a) }
{
    match a {
        Err(refusal) => told(refusal),
        Ok(Some(id)) => {
            *vid = id;
            Reply { code: 0, found: 1 }
        }
        Ok(None) => Reply { code: 0, found: 0 },
    }
}

// Whether a record was found.
pub fn found_or_not<R: Numbered>(a: Result<bool, R>) -> Reply
    ensures { result ≡ yes_or_no (says_by R.number (λ b. b) a) }
{
    match a {
        Err(refusal) => told(refusal),
        Ok(true) => Reply { code: 0, found: 1 },
        Ok(false) => Reply { code: 0, found: 0 },
    }
}

// A page count or nothing.
pub fn put_maybe_count<R: Numbered>(a: Result<Option<PageCount>, R>, out: &mut u32) -> Reply
    ensures { (result, out.new) ≡ value_or (λ m. m) out.old (says_by R.number counted a) }
{
    match a {
        Err(refusal) => told(refusal),
        Ok(Some(n)) => {
            *out = n.0;
            Reply { code: 0, found: 1 }
        }
        Ok(None) => Reply { code: 0, found: 0 },
    }
}

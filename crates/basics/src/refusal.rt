// What a refused call answers: document 01's refusals, each with its number.
ghost use Rattle.std.specs.Prelude.{◌≡◌};
ghost use Rattle.basics.specs.Refusals.{number_of};

use std::fmt;

// A refusal.
#[derive(Clone, Copy, Debug, PartialEq, Eq)]
pub enum Refusal {
    Zero,
    Reversed,
    Form,
    NoVolume,
    InUse,
    OtherRemote,
    NotLatest,
    Diverged,
    Pending,
    NonePending,
    NotAboveWatermark,
    NotNext,
    ZeroHash,
    NotThePending,
    OtherHash,
    BaseWithoutHead,
    RemoteOlder,
    NoLsnLeft,
    NoRoom,
    TableForm,
    NoCommit,
    TooWide,
    PastSegment,
    Line,
}

impl Refusal {
    // Document 01's number.
    pub fn number(self) -> u32
        ensures { result ≡ number_of self }
    {
        match self {
            Refusal::Zero => 1,
            Refusal::Reversed => 2,
            Refusal::Form => 3,
            Refusal::NoVolume => 4,
            Refusal::InUse => 5,
            Refusal::OtherRemote => 6,
            Refusal::NotLatest => 7,
            Refusal::Diverged => 8,
            Refusal::Pending => 9,
            Refusal::NonePending => 10,
            Refusal::NotAboveWatermark => 11,
            Refusal::NotNext => 12,
            Refusal::ZeroHash => 13,
            Refusal::NotThePending => 14,
            Refusal::OtherHash => 15,
            Refusal::BaseWithoutHead => 16,
            Refusal::RemoteOlder => 17,
            Refusal::NoLsnLeft => 18,
            Refusal::NoRoom => 19,
            Refusal::TableForm => 20,
            Refusal::NoCommit => 21,
            Refusal::TooWide => 22,
            Refusal::PastSegment => 23,
            Refusal::Line => 24,
        }
    }
}

impl fmt::Display for Refusal {
    fn fmt<W: fmt::Write>(&self, f: &mut fmt::Formatter<W>) -> fmt::Result {
        let words = match self {
            Refusal::Zero =>
                "LSN 0, page 0 outside a set or frame, or tag name length outside 1 to 32",
            Refusal::Reversed => "range start above its end",
            Refusal::Form =>
                "set, frames, checkpoint list or path over its limit or not in the stated form",
            Refusal::NoVolume => "no volume of that identifier",
            Refusal::InUse => "identifier in use",
            Refusal::OtherRemote => "other remote",
            Refusal::NotLatest => "snapshot not latest",
            Refusal::Diverged => "diverged",
            Refusal::Pending => "pending commit present",
            Refusal::NonePending => "none pending",
            Refusal::NotAboveWatermark => "pending local LSN not above the watermark",
            Refusal::NotNext => "remote's latest is not the LSN before the pending one",
            Refusal::ZeroHash => "pending hash ZERO",
            Refusal::NotThePending => "commit's LSN or hash is not the pending one's",
            Refusal::OtherHash => "stored commit there has another or no hash",
            Refusal::BaseWithoutHead => "base without head",
            Refusal::RemoteOlder => "remote older than the sync point",
            Refusal::NoLsnLeft => "no LSN left",
            Refusal::NoRoom =>
                "records held plus the call's new keys exceed capacity, or a lent result list is too short",
            Refusal::TableForm =>
                "a table's count, key order or the form of a field breaks document 01",
            Refusal::NoCommit => "index entry without commit",
            Refusal::TooWide => "built range or joined set needs over 32 windows",
            Refusal::PastSegment => "frame reaches past the lent segment",
            Refusal::Line => "call list line malformed",
        };
        f.write_str(words)
    }
}

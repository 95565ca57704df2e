// What stands under a slot, kept record by record: of all the records so far at most two are held.
#![tactic(auto)]

pub mod text;

ghost use Rattle.std.specs.Prelude.{◌≡◌};
ghost use Rattle.slot.specs.Slot.{seen_of};
ghost use Rattle.standing.specs.Standing.{nothing, standing_now, next};

use printer::records::Record;
use slot::{Seen, SlotColumns};

// The last letter asked for on the lines before this one of the present page, and on this line.
#[derive(Clone, Copy, Debug)]
pub struct Standing {
    pub kept: Option<[u8; Record::SIZE]>,
    pub line: Option<[u8; Record::SIZE]>,
}

impl Standing {
    // Before any record.
    pub fn new() -> Standing
        ensures { result ≡ nothing }
    {
        Standing {
            kept: None,
            line: None,
        }
    }

    // The record that stands there now.
    pub fn now(self) -> Option<[u8; Record::SIZE]>
        ensures { result ≡ standing_now self }
    {
        self.line.or(self.kept)
    }

    // After one record more, seen as `s`.
    fn seen(self, s: Seen, bytes: [u8; Record::SIZE]) -> Standing
        ensures { result ≡ next s bytes self }
    {
        match s {
            Seen::Letter => Standing {
                line: Some(bytes),
                ..self
            },
            Seen::Line => Standing {
                kept: self.now(),
                line: None,
            },
            Seen::Page => Standing::new(),
            Seen::Clear => Standing { line: None, ..self },
            Seen::Other => self,
        }
    }

    // After one record more.
    pub fn after(self, bytes: [u8; Record::SIZE], columns: SlotColumns) -> Standing
        ensures { result ≡ next (seen_of columns.from columns.to bytes) bytes self }
    {
        self.seen(slot::seen_of(&bytes, columns), bytes)
    }
}

// The machine by value: its tables go in with an event, and the new tables come back with the answer.
#![tactic(auto)]

ghost use Rattle.std.specs.Prelude.{true, false, ◌≡◌};
ghost use Rattle.counters.specs.Sizes.{base};
ghost use Rattle.rules.specs.Steps.{start_step, call_step, release_step, end_step};
ghost use Rattle.machine.specs.Views.{view, told, told_with};

use answers::Answer;
use counters::{ObjectNo, SlotNo};

// The pump's memory.
#[derive(Clone, Copy)]
pub struct Tables {
    pub words: [u32; 864],
    pub bytes: [u8; 768],
    pub marks: [bool; 1168],
}

#[derive(Clone, Copy)]
pub struct Stepped {
    pub tables: Tables,
    pub answer: Answer,
}

impl Tables {
    pub fn start(mut self, slot: SlotNo, list: &[u8]) -> Stepped
        ensures { told result ≡ start_step base (view self) slot.0 list.now }
    {
        let answer = pump::start(
            &mut self.words,
            &mut self.bytes,
            &mut self.marks,
            slot,
            list,
        );
        Stepped {
            tables: self,
            answer,
        }
    }

    pub fn call(mut self, slot: SlotNo, number: ObjectNo, kind: u8, argument: u32) -> Stepped
        ensures { told result ≡ call_step base (view self) slot.0 number.0 kind argument }
    {
        let answer = pump::call(
            &mut self.words,
            &mut self.bytes,
            &mut self.marks,
            slot,
            number,
            kind,
            argument,
        );
        Stepped {
            tables: self,
            answer,
        }
    }

    pub fn release(mut self, slot: SlotNo, number: ObjectNo) -> Stepped
        ensures { told result ≡ release_step base (view self) slot.0 number.0 }
    {
        let answer = pump::release(
            &mut self.words,
            &mut self.bytes,
            &mut self.marks,
            slot,
            number,
        );
        Stepped {
            tables: self,
            answer,
        }
    }

    pub fn commit(self, slot: SlotNo, tick: u32, buf: &mut [u8]) -> Stepped
        ensures { told_with result buf.new ≡ end_step base false (view self) slot.0 tick buf.old }
    {
        self.end(slot, tick, false, buf)
    }

    pub fn rollback(self, slot: SlotNo, tick: u32, buf: &mut [u8]) -> Stepped
        ensures { told_with result buf.new ≡ end_step base true (view self) slot.0 tick buf.old }
    {
        self.end(slot, tick, true, buf)
    }

    fn end(mut self, slot: SlotNo, tick: u32, rollback: bool, buf: &mut [u8]) -> Stepped
        ensures { told_with result buf.new ≡ end_step base rollback (view self) slot.0 tick buf.old }
    {
        let answer = pump::end(
            &mut self.words,
            &mut self.bytes,
            &mut self.marks,
            slot,
            tick,
            rollback,
            buf,
        );
        Stepped {
            tables: self,
            answer,
        }
    }
}

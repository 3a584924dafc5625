// The controller of an example, and what a step does to it.
use crate::row::Action;
use controller::{
    Control, Counter, Entry, Frequency, Function, Kind, Record, after_reset, is_refusal, reset,
    short_time, transfer_in,
};

// A controller with its memory.
#[derive(Drop)]
pub struct Bench {
    pub rec: Record,
    pub memory: [u8; 144],
}

// A step that cannot be played: a transfer was refused, or the step says none of what there is.
#[derive(Clone, Copy)]
pub struct Refused;

impl Bench {
    // The record before power on. Reset takes any; this one differs from what reset leaves wherever the manuals look. The pattern
    // cells are 00h, as in the session program.
    pub fn new() -> Bench {
        Bench {
            rec: Record {
                wide: false,
                function: Function { n: true, f: true },
                control: Control {
                    d: true,
                    c: true,
                    b: true,
                },
                entry: Entry { id: false, s: true },
                shift: 79,
                counter: Counter::Pattern(63),
                busy: 0,
                ..after_reset(Frequency::OLDER)
            },
            memory: [0; 144],
        }
    }

    fn send(&mut self, kind: Kind, byte: u8, wait: u32) -> Result<(), Refused> {
        let told = transfer_in(&mut self.rec, &mut self.memory, kind as u8, byte, wait);
        if is_refusal(told.answer) {
            Err(Refused)
        } else {
            Ok(())
        }
    }

    // Eighty data writes, 21h to 70h: another shape in each display cell, so that each can be told from the others.
    fn fill(&mut self) -> Result<(), Refused> {
        for code in 0x21..=0x70 {
            self.send(Kind::DataWrite, code, short_time(Frequency::OLDER))?;
        }
        Ok(())
    }

    // Does what a step says. A second half waits 1, as in document 01's plan.
    pub fn play(&mut self, action: Option<Action>) -> Result<(), Refused> {
        match action {
            Some(Action::PowerOn) => {
                self.rec = reset(self.rec, &mut self.memory).rec;
                Ok(())
            }
            Some(
                Action::Send {
                    kind,
                    byte,
                    second,
                    wait,
                },
            ) => {
                self.send(kind, byte, wait)?;
                match second {
                    Some(half) => self.send(kind, half, 1),
                    None => Ok(()),
                }
            }
            Some(Action::Fill) => self.fill(),
            Some(Action::Nothing) => Ok(()),
            None => Err(Refused),
        }
    }
}

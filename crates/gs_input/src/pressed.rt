//! The keys that are down.

ghost use Rattle.std.specs.Prelude.{◌≡◌, OnErr, OnOk};
ghost use Rattle.std.specs.FinSet as set;
ghost use Rattle.gs_input.specs.Event.{HasButton};
ghost use Rattle.gs_input.specs.Pressed.{codes_after};

use crate::event::Event;
use gs_bytes::OutOfMemory;
use std::alloc::Global;
use std::collections::BTreeSet;
use std::marker::Model;

/// The keys that are down: those whose last event was a key down.
#[derive(Debug, Drop)]
pub struct Pressed {
    codes: BTreeSet<i16>,
}

impl Model for Pressed {
    ghost use Rattle.std.specs.FinSet as set;
    ghost use Rattle.std.specs.Coded.{coded_ℤ};
    ghost use Rattle.gs_input.specs.Pressed.{Codes};

    ghost Value = { Codes };

    ghost coded = { set.code coded_ℤ };

    ghost view = { λ p. set.from_list p.codes.keys };
}

impl Pressed {
    /// No key is down. Takes no memory.
    pub fn new(alloc: Global) -> Pressed
        ensures { result ≡ set.empty }
    {
        Pressed {
            codes: BTreeSet::new(alloc),
        }
    }

    /// Goes on by one event.
    pub fn apply(&mut self, event: &Event) -> Result<(), OutOfMemory>
        requires { HasButton event.now }
        ensures ok { OnOk result (self.new ≡ codes_after event.now self.old) }
        ensures err { OnErr result (self.new ≡ self.old) }
    {
        match *event {
            Event::KeyDown { code, .. } => self.put_down(code),
            Event::KeyUp { code, .. } => {
                self.let_go(code);
                Ok(())
            }
            _ => Ok(()),
        }
    }

    fn put_down(&mut self, code: i16) -> Result<(), OutOfMemory>
        ensures ok { OnOk result (self.new ≡ set.insert self.old code) }
        ensures err { OnErr result (self.new ≡ self.old) }
    {
        self.codes.insert(code)?;
        Ok(())
    }

    fn let_go(&mut self, code: i16)
        ensures { self.new ≡ set.remove self.old code }
    {
        self.codes.remove(&code);
    }

    /// Whether the last key event of the code was a key down.
    pub fn is_down(&self, code: i16) -> bool
        ensures { result ≡ set.contains self.now code }
    {
        self.codes.contains(&code)
    }
}

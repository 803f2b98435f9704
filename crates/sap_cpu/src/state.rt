//! The state of one user.

ghost use Rattle.std.specs.Prelude.{◌≡◌, ◌<◌};
ghost use Rattle.sap_machine.specs.Table.{begun, goes_on, jump, load_number, put_cell, step, steps};
ghost use Rattle.sap_cpu.specs.Views.{user_state, word_at};

use crate::words::Words;
use std::marker::Model;

/// A program counter below 16, an accumulator, and the memories of cells and of words.
#[derive(Drop)]
pub(crate) struct State {
    pc: u8,
    acc: u8,
    cells: [u8; 16],
    words: [u16; 16],
}

impl Model for State {
    ghost use Rattle.std.specs.Prelude.{◌<◌};
    ghost use Rattle.sap_cpu.specs.Views.{Seen};

    ghost Value = { Seen };

    ghost view = { λ s. record { pc = s.pc; acc = s.acc; cells = s.cells; words = s.words } };

    ghost invariant = { λ s. s.pc < 16 };
}

impl State {
    /// All is 0 but the words.
    pub(crate) fn new(words: &Words) -> State
        ensures { user_state result ≡ begun (word_at words.now) }
    {
        State {
            pc: 0,
            acc: 0,
            cells: [0; 16],
            words: *words.as_array(),
        }
    }

    pub(crate) fn pc(&self) -> u8
        ensures value { result ≡ self.now.pc }
    {
        self.pc
    }

    pub(crate) fn acc(&self) -> u8
        ensures { result ≡ self.now.acc }
    {
        self.acc
    }

    pub(crate) fn cell(&self, k: u8) -> u8
        requires { k < 16 }
        ensures { result ≡ (user_state self.now).cell k }
    {
        self.cells[usize::from(k)]
    }

    /// The word at the program counter.
    fn word(&self) -> u16
        ensures { result ≡ (user_state self.now).word self.now.pc }
    {
        self.words[usize::from(self.pc)]
    }

    fn go_on(&mut self)
        ensures { user_state self.new ≡ goes_on (user_state self.old) }
    {
        self.pc = (self.pc + 1) % 16;
    }

    fn load(&mut self, number: u8)
        ensures { user_state self.new ≡ load_number number (user_state self.old) }
    {
        self.pc = (self.pc + 1) % 16;
        self.acc = number;
    }

    fn store(&mut self, place: u8)
        requires { place < 16 }
        ensures { user_state self.new ≡ put_cell place (user_state self.old) }
    {
        self.pc = (self.pc + 1) % 16;
        self.cells[usize::from(place)] = self.acc;
    }

    fn jump(&mut self, place: u8)
        requires { place < 16 }
        ensures { user_state self.new ≡ jump place (user_state self.old) }
    {
        self.pc = place;
    }

    /// The instruction at the program counter.
    fn step(&mut self)
        ensures { user_state self.new ≡ step (user_state self.old) }
    {
        let word = self.word();
        let number = (word % 256) as u8;
        let place = number % 16;
        match word / 256 {
            1 => self.load(number),
            2 => self.load(self.cell(place)),
            3 => self.store(place),
            4 => self.load(self.acc().wrapping_add(self.cell(place))),
            5 => self.load(self.acc().wrapping_sub(self.cell(place))),
            6 => self.jump(place),
            7 => {
                if self.acc() == 0 {
                    self.jump(place)
                } else {
                    self.go_on()
                }
            }
            8 => {}
            _ => self.go_on(),
        }
    }

    /// Three instructions.
    pub(crate) fn slice(&mut self)
        ensures { user_state self.new ≡ steps 3 (user_state self.old) }
    {
        self.step();
        self.step();
        self.step();
    }
}

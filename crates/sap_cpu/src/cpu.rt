//! Two users by the instruction table.

ghost use Rattle.std.specs.Prelude.{◌≡◌, ℕ, ◌+◌, ◌<◌};
ghost use Rattle.sap_cpu.specs.Views.{IsAfter, state_of, user_state, word_at};

use crate::state::State;
use crate::words::Words;
use sap_machine::user::User;
use std::marker::Model;

/// Two users, and whose the next slice is.
#[derive(Drop)]
pub struct Cpu {
    a: State,
    b: State,
    holder: User,
}

impl Model for Cpu {
    ghost use Rattle.sap_cpu.specs.Views.{CpuSeen};

    ghost Value = { CpuSeen };

    ghost view = { λ c. record { a = c.a; b = c.b; holder = c.holder } };
}

impl Cpu {
    /// Before the first slice.
    pub fn new(a: &Words, b: &Words) -> Cpu
        ensures { IsAfter (word_at a.now) (word_at b.now) 0 result }
    {
        Cpu {
            a: State::new(a),
            b: State::new(b),
            holder: User::A,
        }
    }

    /// One slice.
    pub fn slice(&mut self)
        ensures { (a b : ℕ → ℕ) (n : ℕ) → IsAfter a b n self.old → IsAfter a b (n + 1) self.new }
    {
        match self.holder {
            User::A => {
                self.a.slice();
                self.holder = User::B;
            }
            User::B => {
                self.b.slice();
                self.holder = User::A;
            }
        }
    }

    fn state(&self, user: User) -> &State
        ensures { user_state result.now ≡ state_of self.now user }
    {
        match user {
            User::A => &self.a,
            User::B => &self.b,
        }
    }

    pub fn pc(&self, user: User) -> u64
        ensures { result ≡ (state_of self.now user).pc }
    {
        u64::from(self.state(user).pc())
    }

    pub fn acc(&self, user: User) -> u64
        ensures { result ≡ (state_of self.now user).acc }
    {
        u64::from(self.state(user).acc())
    }

    pub fn cell(&self, user: User, k: u32) -> u64
        requires { k < 16 }
        ensures { result ≡ (state_of self.now user).cell k }
    {
        u64::from(self.state(user).cell(k as u8))
    }
}

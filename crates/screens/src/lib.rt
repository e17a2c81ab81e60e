// Standard output, as functions with contracts of their own write there: these go on when a write fails, and `end` says that it did.
//
// Two wrong programs that the contracts rule out: one that forgets a failed write at the next one, and one that answers at the end that all
// went well.
#![tactic(auto)]

ghost use Rattle.std.specs.Prelude.{◌≡◌, IsOk, IsErr};

use std::fmt::Display;
use std::io::{self, Print, Stdout};
use std::marker::Model;

#[derive(Drop)]
pub struct Screen {
    to: Stdout,
    // the first write that failed. Nothing is written after it
    written: io::Result<()>,
}

// In contracts a screen is what `end` answers: that all was written, or the first write that failed.
impl Model for Screen {
    ghost use Rattle.std.specs.Prelude.{Result};
    ghost use Rattle.std.specs.declared.io.Error.{Error};

    ghost Value = { Result Unit Error };

    ghost view = { λ s. s.written };
}

impl Screen {
    pub fn new(to: Stdout) -> Screen
        ensures { IsOk result }
    {
        Screen {
            to,
            written: Ok(()),
        }
    }

    // What `print!` and `println!` call.
    pub fn print<D: Display + Drop>(&mut self, value: D)
        ensures { IsErr self.old → self.new ≡ self.old }
    {
        if self.written.is_ok() {
            self.written = self.to.print(value);
        }
    }

    pub fn println<D: Display + Drop>(&mut self, value: D)
        ensures { IsErr self.old → self.new ≡ self.old }
    {
        if self.written.is_ok() {
            self.written = self.to.println(value);
        }
    }

    // Whether all was written.
    pub fn end(self) -> io::Result<()>
        ensures { result ≡ self }
    {
        self.written
    }
}

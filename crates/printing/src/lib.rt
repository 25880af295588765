// Printing that goes on where a text cannot be written.
#![tactic(auto)]

ghost use Rattle.std.specs.Prelude.{IsOk};

use std::fmt::Display;
use std::io::Result;

// Prints as what it holds does; a text that cannot be written is left out, and is no error: the texts after it are tried all the same.
#[derive(Clone, Copy, Drop)]
pub struct BestEffort<P>(pub P);

impl<P: Print> Print for BestEffort<P> {
    fn print<D: Display + Drop>(&self, value: D) -> Result<()>
        ensures { IsOk result }
    {
        let _ = self.0.print(value);
        Ok(())
    }

    fn println<D: Display + Drop>(&self, value: D) -> Result<()>
        ensures { IsOk result }
    {
        let _ = self.0.println(value);
        Ok(())
    }

    fn write_all(&self, bytes: &[u8]) -> Result<()>
        ensures { IsOk result }
    {
        let _ = self.0.write_all(bytes);
        Ok(())
    }
}

//! What a check has to print.

ghost use Rattle.std.specs.Prelude.{◌≡◌, ◌+◌, ◌-◌, ◌<◌, ◌^◌, ◌++◌, [], ◌∷◌, codes, decimal, IfOk, OnOk, OnErr};
ghost use Rattle.continuity_check.specs.Compared.{open_line, result_line};

use base::{Bytes, Memory};
use partition::{Name, Point};
use std::alloc::Global;
use std::marker::Model;

/// The lines of the points that are open, and how many there are.
#[derive(Debug, Drop)]
pub struct Sheet {
    lines: Bytes,
    opens: u64,
}

impl Model for Sheet {
    ghost use Rattle.continuity_check.specs.Trials.{SheetView};

    ghost Value = { SheetView };

    ghost view = { λ s. record { lines = s.lines; opens = s.opens } };
}

impl Sheet {
    /// A sheet without a line.
    pub fn new(alloc: Global) -> Self
        ensures { result ≡ record { lines = []; opens = 0 } }
    {
        Sheet {
            lines: Bytes::new(alloc),
            opens: 0,
        }
    }

    /// Adds the line of a point that is open.
    pub fn note_open(&mut self, alloc: Global, name: &Name, point: Point) -> Result<(), Memory>
        requires { self.old.opens < 2 ^ 64 - 1 }
        ensures lines { OnOk result (self.new.lines ≡ self.old.lines ++ open_line name.now point) }
        ensures opens { OnOk result (self.new.opens ≡ self.old.opens + 1) }
        ensures err { OnErr result (self.new ≡ self.old) }
    {
        let line = format!(in alloc; "open {} {}\n", name.text(), point.0)?;
        self.lines.append(line.as_bytes())?;
        self.opens += 1;
        Ok(())
    }

    /// The whole text: the lines, then `PASS`, or `FAIL` and the number of open points.
    pub fn into_text(self, alloc: Global) -> Result<Bytes, Memory>
        ensures { IfOk result (λ text. text ≡ self.lines ++ result_line self.opens) }
    {
        let Sheet { mut lines, opens } = self;
        if opens == 0 {
            lines.append(b"PASS\n")?;
        } else {
            let line = format!(in alloc; "FAIL {opens}\n")?;
            lines.append(line.as_bytes())?;
        }
        Ok(lines)
    }
}

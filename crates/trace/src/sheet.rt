// An output buffer that lines are written into, one behind the other.
ghost use Rattle.std.specs.Prelude.{◌≡◌, ◌+◌, ◌≤◌, length, map, nat_lt};
ghost use Rattle.std.specs.List.{flat_map};
ghost use Rattle.trace.specs.Sheets.{laid, sheet, line_onto};
ghost use Rattle.trace.specs.Texts.{parts_line, edge_text, denied_text, reset_text, refused_text};
ghost use Rattle.trace.specs.Written.{written, IsSame};

use crate::text::level_bytes;
use channel::phase::Phase;

// A buffer, the place behind what is written in it, and the tick that the lines begin with.
#[derive(Drop)]
pub struct Sheet<'o> {
    tick: &'o [u8],
    out: &'o mut [u8],
    at: usize,
}

// Whether the parts and one byte more have room. It counts down, since their whole length may not fit.
fn fits(room: usize, parts: &[&[u8]]) -> bool
    ensures { result ≡ nat_lt (length (flat_map (λ p. p.now) parts.now)) room }
{
    let mut left = room;
    for part in parts {
        let Some(rest) = left.checked_sub(part.len()) else {
            return false;
        };
        left = rest;
    }
    left > 0
}

impl<'o> Sheet<'o> {
    // Lines are written from this place on.
    pub fn new(tick: &'o [u8], out: &'o mut [u8], at: usize) -> Sheet<'o>
        ensures tick { result.tick.now ≡ tick.now }
        ensures same_reference { result.out.ghost_name ≡ out.entry.ghost_name }
        ensures start { written result ≡ sheet out.old at }
    {
        Sheet { tick, out, at }
    }

    // The place behind what is written.
    pub fn place(&self) -> usize
        ensures { result ≡ self.now.at }
    {
        self.at
    }

    // Lays bytes behind what is written.
    fn lay(&mut self, bytes: &[u8])
        requires { self.old.at + length bytes.now ≤ length self.old.out.now }
        ensures bytes { self.new.out.now ≡ laid self.old.out.now self.old.at bytes.now }
        ensures ends { self.new.at ≡ self.old.at + length bytes.now }
        ensures same { IsSame self.old self.new }
    {
        let end = self.at + bytes.len();
        self.out[self.at..end].copy_from_slice(bytes);
        self.at = end;
    }

    // Writes one line, of these parts and a byte 10. Where it has no room, nothing is written.
    pub fn put_line(&mut self, parts: &[&[u8]])
        ensures line { written self.new ≡ line_onto (written self.old) (parts_line (map (λ p. p.now) parts.now)) }
        ensures same { IsSame self.old self.new }
    {
        if fits(self.out.len().saturating_sub(self.at), parts) {
            for part in parts {
                self.lay(part);
            }
            self.lay(b"\n");
        }
    }

    // `TICK NAME LEVELS`: a channel has come to a phase.
    pub fn put_edge(&mut self, name: &[u8], phase: Phase)
        ensures line { written self.new ≡ line_onto (written self.old) (edge_text self.old.tick.now name.now phase) }
        ensures same { IsSame self.old self.new }
    {
        self.put_line(&[self.tick, b" ", name, b" ", level_bytes(phase)]);
    }

    // `TICK NAME denied LEAF`: the top has come to Denied, and this leaf denied.
    pub fn put_denied(&mut self, name: &[u8], leaf: &[u8])
        ensures line { written self.new ≡ line_onto (written self.old) (denied_text self.old.tick.now name.now leaf.now) }
        ensures same { IsSame self.old self.new }
    {
        self.put_line(&[self.tick, b" ", name, b" denied ", leaf]);
    }

    // `TICK reset`.
    pub fn put_reset(&mut self)
        ensures line { written self.new ≡ line_onto (written self.old) (reset_text self.old.tick.now) }
        ensures same { IsSame self.old self.new }
    {
        self.put_line(&[self.tick, b" reset"]);
    }

    // `TICK ! NUMBER`.
    pub fn put_refused(&mut self, number: &[u8])
        ensures line { written self.new ≡ line_onto (written self.old) (refused_text self.old.tick.now number.now) }
        ensures same { IsSame self.old self.new }
    {
        self.put_line(&[self.tick, b" ! ", number]);
    }
}

#[cfg(test)]
mod tests {
    use super::*;
    use std::test::Fail;

    #[test]
    fn writes_lines_behind_each_other(rt: HostRuntime) -> Result<(), Fail> {
        let mut out = [b'.'; 30];
        let mut sheet = Sheet::new(b"17", &mut out, 1);
        sheet.put_reset();
        sheet.put_edge(b"cpu", Phase::Denied);
        sheet.put_denied(b"a line that is too long", b"cpu");
        assert_eq!(rt; sheet.place(), 21);
        assert_eq!(rt;
            out.as_slice(),
            b".17 reset\n17 cpu 011\n.........".as_slice()
        );
        Ok(())
    }
}

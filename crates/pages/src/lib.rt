// Pages, small texts in bytes, and the verdicts on them: what has no room is cut, and an example that is cut does not come out as stated.
#![tactic(auto)]

ghost use Rattle.std.specs.Prelude.{◌≡◌, ◌+◌, ◌≤◌, ◌↔◌, IsSome, length, min};

use std::io::Result;

// A small text in bytes.
// An array and how much of it is used: nothing is allocated.
#[derive(Clone, Copy)]
pub struct Page {
    bytes: [u8; 128],
    len: usize,
    ghost within: { len ≤ 128 },
}

// A unit as a byte; a unit above 255 is a question mark.
fn narrow(unit: u16) -> u8 {
    u8::try_from(unit).unwrap_or(b'?')
}

impl Page {
    // An empty one.
    pub fn new() -> Page
        ensures { result.len ≡ 0 }
    {
        Page {
            bytes: [0; 128],
            len: 0,
        }
    }

    // A byte behind those that there are.
    pub fn put(&mut self, byte: u8)
        ensures { self.new.len ≡ min (self.old.len + 1) 128 }
    {
        if self.len < self.bytes.len() {
            self.bytes[self.len] = byte;
            self.len += 1;
        }
    }

    // Units behind the bytes that there are.
    pub fn put_units(&mut self, units: &[u16])
        ensures { self.old.len ≤ self.new.len }
    {
        for &unit in units {
            self.put(narrow(unit));
        }
    }

    // Its bytes.
    pub fn bytes(&self) -> &[u8]
        ensures { length result.now ≡ self.now.len }
    {
        &self.bytes[..self.len]
    }
}

// The page of so many units in front of an output, or none where the output has fewer.
// The count beside the output: it is what a builder answered, and the output may be shorter.
pub fn front(out: &[u16], units: usize) -> Option<Page>
    ensures { IsSome result ↔ (units ≤ length out.now) }
{
    let mut page = Page::new();
    page.put_units(out.get(..units)?);
    Some(page)
}

// A verdict on an example, behind its name.
pub fn verdict(rt: &impl Print, verb: &[u8], name: &[u8], holds: bool) -> Result<()> {
    rt.write_all(verb)?;
    rt.write_all(name)?;
    let outcome = if holds { "equal" } else { "DIFFERS" };
    println!(rt; ": {outcome}")
}

// The verdict where a page should hold these bytes.
pub fn compare(
    rt: &impl Print,
    verb: &[u8],
    name: &[u8],
    page: &[u8],
    stated: &[u8],
) -> Result<()> {
    verdict(rt, verb, name, page == stated)
}

// Bytes and numbers put into a slice, one behind the other, as many as there is room for: so no call asks for room.
ghost use Rattle.std.specs.Prelude.{◌≤◌, length};
ghost use Rattle.printing.specs.Text.{shown};

use itoa::Buffer;

// A slice, and the place in it where the next byte is put. `Drop` alone is derived, as a `&mut` slice can't be copied or compared.
#[derive(Drop)]
pub(crate) struct Out<'a> {
    pub bytes: &'a mut [u8],
    pub at: usize,
    ghost within: { at ≤ length bytes.now },
}

impl<'a> Out<'a> {
    ghost use Rattle.printing.specs.Lines.{Puts, field, ending};

    // Puts bytes, as many as there is room for.
    pub(crate) fn text(&mut self, text: &[u8])
        ensures { Puts self.old text.now self.new }
    {
        let n = text.len().min(self.bytes.len() - self.at);
        let end = self.at + n;
        self.bytes[self.at..end].copy_from_slice(&text[..n]);
        self.at = end;
    }

    // Puts the digits of a number. Not by `write!`, whose contract leaves open that it fails.
    #[tactic(auto, using(crate::proofs::Digits::shown_is))]
    fn number(&mut self, n: u64)
        ensures { Puts self.old (shown n) self.new }
    {
        let mut digits = Buffer::new();
        self.text(digits.format(n).as_bytes());
    }

    // Puts a number and a comma.
    pub(crate) fn field(&mut self, n: u64)
        ensures { Puts self.old (field n) self.new }
    {
        self.number(n);
        self.text(b",");
    }

    // Puts a number and CR LF.
    pub(crate) fn ending(&mut self, n: u64)
        ensures { Puts self.old (ending n) self.new }
    {
        self.number(n);
        self.text(b"\r\n");
    }
}

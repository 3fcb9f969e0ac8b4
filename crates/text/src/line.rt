// Text in fixed memory, put together piece by piece, and numbers as text.
ghost use Rattle.std.specs.Prelude.{◌≡◌, ◌+◌, ◌≤◌, ◌↔◌, [], ◌++◌, length, IsOk, OnErr, Some};
ghost use Rattle.text.specs.Line.{with_text, decimal_of, thousandths_of, hundredths_of};

use arrayvec::ArrayVec;
use std::fmt;
use std::marker::Model;

// Text of at most N bytes. It need not be UTF-8, since a path need not.
#[derive(Drop)]
pub struct Line<const N: usize> {
    bytes: ArrayVec<u8, N>,
}

impl<const N: usize> Model for Line<N> {
    ghost use Rattle.std.specs.Prelude.{ℕ, List};

    ghost Value = { List ℕ };

    ghost view = { λ line. line.bytes.items };
}

impl<const N: usize> Line<N> {
    // An empty line.
    pub fn new() -> Self
        ensures { result ≡ [] }
    {
        Line {
            bytes: ArrayVec::new(),
        }
    }

    // Puts a text behind what is there; where it does not fit, changes nothing.
    pub fn put(&mut self, text: &[u8])
        ensures { self.new ≡ with_text N self.old text.now }
    {
        let _ = self.bytes.try_extend_from_slice(text);
    }

    // Puts the decimal digits of a number, as `put` does.
    #[tactic(auto, using(crate::proofs::DecimalText::decimal_written))]
    pub fn put_number(&mut self, n: u64)
        ensures { self.new ≡ with_text N self.old (decimal_of n) }
    {
        self.put(itoa::Buffer::new().format(n).as_bytes());
    }

    // What is put.
    pub fn as_bytes(&self) -> &[u8]
        ensures value { result.now ≡ self.now }
        ensures fits { length result.now ≤ N }
    {
        self.bytes.as_slice()
    }

    // Makes the line empty.
    pub fn clear(&mut self)
        ensures { self.new ≡ [] }
    {
        self.bytes.clear();
    }
}

impl<const N: usize> fmt::Write for Line<N> {
    ghost write_str_gives = { λ line text after. after ≡ line ++ text };

    fn write_str(&mut self, s: &str) -> fmt::Result
        ensures ok { IsOk result → self.new ≡ self.old ++ s.now }
        ensures fits { IsOk result ↔ (length self.old + length s.now ≤ N) }
        ensures err { OnErr result (self.new ≡ self.old) }
    {
        self.bytes
            .try_extend_from_slice(s.as_bytes())
            .map_err(|_| fmt::Error)
    }
}

impl<const N: usize> fmt::Display for Line<N> {
    ghost output = { λ line. Some line };

    // Fails where the bytes are no UTF-8.
    fn fmt<W: fmt::Write>(&self, f: &mut fmt::Formatter<W>) -> fmt::Result {
        match str::from_utf8(self.as_bytes()) {
            Ok(text) => f.write_str(text),
            Err(_) => Err(fmt::Error),
        }
    }
}

// A number of thousandths, which is written with three places after the point: 3.750 for 3750.
#[derive(Clone, Copy, Debug, PartialEq, Eq)]
pub struct Thousandths(pub u64);

impl Thousandths {
    // The number as text. The places are put one by one, since a `write!` with `{:03}` can fail and this cannot.
    #[tactic(auto, using(crate::proofs::PiecesText::thousandths_put))]
    pub fn text(self) -> Line<24>
        ensures { result ≡ thousandths_of self.0 }
    {
        let n = self.0;
        let mut line = Line::new();
        line.put_number(n / 1000);
        line.put(b".");
        line.put_number(n / 100 % 10);
        line.put_number(n / 10 % 10);
        line.put_number(n % 10);
        line
    }
}

impl fmt::Display for Thousandths {
    ghost output = { λ n. Some (thousandths_of n.0) };

    fn fmt<W: fmt::Write>(&self, f: &mut fmt::Formatter<W>) -> fmt::Result {
        self.text().fmt(f)
    }
}

// A number of hundredths, which is written with two places after the point: 47.11 for 4711.
#[derive(Clone, Copy, Debug, PartialEq, Eq)]
pub struct Hundredths(pub u64);

impl Hundredths {
    // The number as text. The places are put one by one, since a `write!` with `{:02}` can fail and this cannot.
    #[tactic(auto, using(crate::proofs::PiecesText::hundredths_put))]
    pub fn text(self) -> Line<24>
        ensures { result ≡ hundredths_of self.0 }
    {
        let n = self.0;
        let mut line = Line::new();
        line.put_number(n / 100);
        line.put(b".");
        line.put_number(n / 10 % 10);
        line.put_number(n % 10);
        line
    }
}

impl fmt::Display for Hundredths {
    ghost output = { λ n. Some (hundredths_of n.0) };

    fn fmt<W: fmt::Write>(&self, f: &mut fmt::Formatter<W>) -> fmt::Result {
        self.text().fmt(f)
    }
}

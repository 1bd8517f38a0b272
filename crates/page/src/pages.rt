//! A lent page, into which bytes and numbers are put one after another.
ghost use Rattle.std.specs.Prelude.{◌^◌, ◌<◌, length, decimal};

use itoa::Buffer;

/// A lent page, and the offset at which bytes are put next. Bytes that the page is too short for are counted, and not put.
#[derive(Drop)]
pub struct Page<'a> {
    pub bytes: &'a mut [u8],
    /// The offset, at most the largest number.
    pub at: usize,
    ghost long: { length bytes.now < 2 ^ 64 },
    ghost counted: { at < 2 ^ 64 },
}

impl Page<'_> {
    ghost use Rattle.page.specs.Adds.{Adds};

    /// Puts bytes.
    pub fn put(&mut self, bytes: &[u8])
        ensures { Adds self.old bytes.now self.new }
    {
        let end = self.at.saturating_add(bytes.len());
        if end <= self.bytes.len() {
            self.bytes[self.at..end].copy_from_slice(bytes);
        }
        self.at = end;
    }

    /// Puts a number in decimal, without leading zeros.
    pub fn put_number(&mut self, number: u64)
        ensures { Adds self.old (decimal number) self.new }
    {
        self.put(Buffer::new().format(number).as_bytes());
    }
}

//! Putting records into lent bytes.
ghost use Rattle.std.specs.Prelude.{◌≡◌, ◌+◌, ◌≤◌, ◌++◌, [], ◌∷◌, map, length};
ghost use Rattle.scheme_file.specs.Bytes.{le};
ghost use Rattle.scheme_file.specs.Contents.{Lies, bytes_at, entries, entry_in, item_in};
ghost use Rattle.scheme_file.specs.Format.{bytes_of, encode, item_record, mark, set_record, work_record};
ghost use Rattle.scheme_file.specs.Kinds.{code_of};
ghost use Rattle.scheme_file.specs.Passes.{ItemsFit, Put, Room, WorkFits, WorksFit};

use crate::kinds::Kind;
use crate::numbers::Number;
use crate::rows::{ItemRow, Name, WorkRow};
use scheme::Work;
use sets::Set;

/// Lent bytes that are filled from the first on, and the text in which the names to be put lie.
// No page that counts what does not fit: how many bytes a file has is known before the first is put, and each record asks room for its own.
#[derive(Drop)]
pub struct Output<'a> {
    bytes: &'a mut [u8],
    /// How many bytes have been put.
    at: usize,
    text: &'a [u8],
}

impl<'a> Output<'a> {
    /// Lent bytes into which nothing has been put.
    pub fn new(bytes: &'a mut [u8], text: &'a [u8]) -> Output<'a>
        ensures lent { result.bytes.ghost_name ≡ bytes.entry.ghost_name }
        ensures fresh { (result.bytes.now ≡ bytes.old) × (result.at ≡ 0) × (result.text.now ≡ text.now) }
    {
        Output { bytes, at: 0, text }
    }

    /// Puts bytes.
    fn put(&mut self, bytes: &[u8])
        requires { Room self.old (length bytes.now) }
        ensures { Put self.old bytes.now self.new }
    {
        let end = self.at + bytes.len();
        self.bytes[self.at..end].copy_from_slice(bytes);
        self.at = end;
    }

    /// Puts a number.
    fn number<const N: usize, T: Number<N>>(&mut self, x: T)
        requires { Room self.old N }
        ensures { Put self.old (le N (T.amount x)) self.new }
    {
        self.put(&x.to_bytes());
    }

    /// Puts a record's length and kind, for a body of `len` bytes.
    fn frame(&mut self, kind: Kind, len: usize)
        requires { Room self.old 4 × (len ≤ 60) }
        ensures { Put self.old (le 2 (2 + len) ++ le 2 (code_of kind)) self.new }
    {
        self.number((2 + len) as u16);
        self.number(u16::from(kind));
    }

    /// Puts a name of the text.
    fn name(&mut self, name: Name)
        requires { Room self.old name.len }
        ensures { Put self.old (bytes_at self.old.text.now name) self.new }
    {
        self.put(name.in_text(self.text));
    }

    /// Puts a record that has no body.
    pub fn mark(&mut self, kind: Kind)
        requires { Room self.old 4 }
        ensures { Put self.old (encode (mark kind)) self.new }
    {
        self.frame(kind, 0);
    }

    /// Puts a record of a set.
    pub fn set(&mut self, kind: Kind, set: Set)
        requires { Room self.old 12 }
        ensures { Put self.old (encode (set_record kind set)) self.new }
    {
        self.frame(kind, 8);
        self.number(set.bits());
    }

    /// Puts an item's record.
    fn item(&mut self, row: ItemRow)
        requires { Lies self.old.text.now row.name × (row.name.len ≤ 40) × Room self.old (5 + row.name.len) }
        ensures { Put self.old (encode (item_record (item_in self.old.text.now row))) self.new }
    {
        self.frame(Kind::Item, 1 + row.name.len);
        self.put(&[row.number]);
        self.name(row.name);
    }

    /// Puts a work's record.
    fn work(&mut self, work: Work, row: WorkRow)
        requires { WorkFits self.old.text.now row × (row.name.len ≤ 40) × Room self.old (24 + row.name.len) }
        ensures { Put self.old (encode (work_record (entry_in self.old.text.now work row))) self.new }
    {
        self.frame(Kind::Work, 20 + row.name.len);
        self.number(work.needs.bits());
        self.number(work.gives.bits());
        self.number(row.pounds as u16);
        self.number(row.hours as u16);
        self.name(row.name);
    }

    /// Puts the records of the items.
    pub fn items(&mut self, items: &[ItemRow])
        requires { ItemsFit items.now self.old.text.now × Room self.old (length (bytes_of (map item_record (map (item_in self.old.text.now) items.now)))) }
        ensures { Put self.old (bytes_of (map item_record (map (item_in self.old.text.now) items.now))) self.new }
    {
        for row in items {
            self.item(*row);
        }
    }

    /// Puts the records of the works.
    pub fn works(&mut self, works: &[Work], rows: &[WorkRow])
        requires { WorksFit works.now rows.now self.old.text.now × Room self.old (length (bytes_of (map work_record (entries self.old.text.now works.now rows.now)))) }
        ensures { Put self.old (bytes_of (map work_record (entries self.old.text.now works.now rows.now))) self.new }
    {
        for (work, row) in works.iter().zip(rows) {
            self.work(*work, *row);
        }
    }
}

//! The checking pass: every rule is tested, and nothing is written.
ghost use Rattle.std.specs.Prelude.{◌≡◌, ◌<◌, ◌≤◌, length, drop, Some, MatchResult, ◌≢◌};
ghost use Rattle.scheme_file.specs.declared.causes.Cause.TheVariants.{NameByte};
ghost use Rattle.scheme_file.specs.declared.kinds.Kind.TheVariants.{Item, Work};
ghost use Rattle.scheme_file.specs.declared.stages.Stage.TheVariants.{Closed};
ghost use Rattle.scheme_file.specs.Faults.{Amiss};
ghost use Rattle.scheme_file.specs.Kinds.{named};
ghost use Rattle.scheme_file.specs.Passes.{Sane, Stepped, Upto, Whole};
ghost use Rattle.scheme_file.specs.Rules.{Broken, ByRules, Text, after, body_in, code, field_rules, frame_rules, record_rules, rules};

use crate::causes::{Cause, Fault};
use crate::kinds::Kind;
use crate::numbers::{Number, number_at};
use crate::places::Place;
use crate::stages::Stage;
use scheme::{check_entry, check_item};
use sets::Set;

/// The kind and the body of the record that the bytes begin with.
fn frame(rest: &[u8]) -> Result<(Kind, &[u8]), Cause>
    ensures { ByRules (frame_rules rest.now) result (λ x. (named (code rest.now) ≡ Some x.0) × (x.1.now ≡ body_in rest.now)) }
{
    let [l0, l1, after @ ..] = rest else {
        return Err(Cause::CutShort);
    };
    let size = u16::from_bytes(&[*l0, *l1]) as usize;
    let record = after.get(..size).ok_or(Cause::CutShort)?;
    let [k0, k1, body @ ..] = record else {
        return Err(Cause::UnknownKind);
    };
    let kind = Kind::try_from(u16::from_bytes(&[*k0, *k1]))?;
    Ok((kind, body))
}

/// Refuses a name with a byte that is not from 32 to 126.
pub fn readable(name: &[u8]) -> Result<(), Cause>
    ensures { MatchResult result (λ _. Text name.now) (λ c. (c ≡ NameByte) × (Text name.now → ⊥)) }
{
    if name.iter().all(|b| (32..=126).contains(b)) {
        Ok(())
    } else {
        Err(Cause::NameByte)
    }
}

/// The records of a file, up to the first that is not tested yet.
#[derive(Clone, Copy)]
struct Records<'a> {
    bytes: &'a [u8],
    /// Where the tested records end.
    place: Place,
    /// The offset of the next record, and its number.
    at: usize,
    index: usize,
    ghost sane: { Sane place },
}

impl<'a> Records<'a> {
    /// The records of bytes, none of which is tested yet.
    fn new(bytes: &'a [u8]) -> Records<'a>
        ensures { (result.bytes.now ≡ bytes.now) × Upto bytes.now result.place result.at result.index }
    {
        Records {
            bytes,
            place: Place::default(),
            at: 0,
            index: 0,
        }
    }

    /// The place after an item.
    fn item(&self, body: &[u8]) -> Result<Place, Cause>
        requires { 2 ≤ length body.now }
        ensures { ByRules (field_rules self.now.place Item body.now) result (λ p. p ≡ after self.now.place Item body.now) }
    {
        let number = body[0] as usize;
        if number < self.place.least {
            return Err(Cause::OutOfOrder);
        }
        readable(&body[1..])?;
        check_item(number)?;
        Ok(Place {
            stage: Stage::Items,
            least: number + 1,
            items: self.place.items + 1,
            ..self.place
        })
    }

    /// The place after a work.
    fn work(&self, body: &[u8]) -> Result<Place, Cause>
        requires { 21 ≤ length body.now }
        ensures { ByRules (field_rules self.now.place Work body.now) result (λ p. p ≡ after self.now.place Work body.now) }
    {
        readable(&body[20..])?;
        check_entry(Set::from_bits(number_at(body, 8)), self.place.works)?;
        Ok(Place {
            stage: Stage::Works,
            works: self.place.works + 1,
            ..self.place
        })
    }

    /// The place after a record of that kind and body.
    fn admit(&self, kind: Kind, body: &[u8]) -> Result<Place, Cause>
        ensures { ByRules (record_rules self.now.place kind body.now) result (λ p. p ≡ after self.now.place kind body.now) }
    {
        if !kind.allows(2 + body.len()) {
            return Err(Cause::WrongLength);
        }
        let stage = self.place.stage.after(kind).ok_or(Cause::OutOfOrder)?;
        match kind {
            Kind::Item => self.item(body),
            Kind::Work => self.work(body),
            Kind::Head | Kind::Standing | Kind::Wanted | Kind::End => Ok(Place {
                stage,
                ..self.place
            }),
        }
    }

    /// The place after the record that the bytes begin with, and the record's size.
    fn step(&self, rest: &[u8]) -> Result<(Place, usize), Cause>
        ensures { MatchResult result (λ x. Stepped self.now.place rest.now x.0 x.1) (λ c. Broken (rules self.now.place rest.now) c) }
    {
        let (kind, body) = frame(rest)?;
        let next = self.admit(kind, body)?;
        Ok((next, 4 + body.len()))
    }

    /// The fault of the next record.
    fn fault(&self, cause: Cause) -> Fault
        ensures index { result.index ≡ self.now.index }
        ensures offset { result.offset ≡ self.now.at }
        ensures cause { result.cause ≡ cause }
    {
        Fault {
            index: self.index,
            offset: self.at,
            cause,
        }
    }

    /// Tests the next record.
    fn advance(&mut self) -> Result<(), Fault>
        requires { Upto self.old.bytes.now self.old.place self.old.at self.old.index × (self.old.place.stage ≢ Closed) }
        ensures { (self.new.bytes.now ≡ self.old.bytes.now) × MatchResult result (λ _. Upto self.old.bytes.now self.new.place self.new.at self.new.index × (self.old.at < self.new.at)) (λ f. Amiss self.old.bytes.now f) }
    {
        // With `map_err` the proof did not close.
        match self.step(&self.bytes[self.at..]) {
            Ok((place, size)) => {
                *self = Records {
                    bytes: self.bytes,
                    place,
                    at: self.at + size,
                    index: self.index + 1,
                };
                Ok(())
            }
            Err(cause) => Err(self.fault(cause)),
        }
    }
}

/// Where the checking pass ends.
#[derive(Drop)]
pub struct Checked {
    pub place: Place,
    /// How many records there are.
    pub records: usize,
}

/// Tests every rule of the bytes alone.
pub fn check(bytes: &[u8]) -> Result<Checked, Fault>
    ensures { MatchResult result (λ e. Whole bytes.now e.place e.records) (λ f. Amiss bytes.now f) }
{
    let mut records = Records::new(bytes);
    while records.place.stage != Stage::Closed {
        records.advance()?;
    }
    if records.at < bytes.len() {
        return Err(records.fault(Cause::OutOfOrder));
    }
    Ok(Checked {
        place: records.place,
        records: records.index,
    })
}

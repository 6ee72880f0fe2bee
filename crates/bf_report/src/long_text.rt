//! Texts in which a long word that comes again is held once.
ghost use Rattle.std.specs.Prelude.{◌≡◌, ◌≤◌, ◌<◌, ◌+◌, ◌-◌, ◌^◌, ◌++◌, ◌∷◌, ◌↔◌, [], All, IfErr, List, OnErr, OnOk, Some, length, option_copied, slice_get, string_bytes, take, ℕ};
ghost use Rattle.bf_device.specs.Device.{HasCounted, HasGoneOn, HasHalted, HasHaltedBehind, sent};
ghost use Rattle.bf_report.specs.LongTexts.{IsShownIn};
ghost use Rattle.bf_report.specs.inner.LongTexts.{HasGrownBy, HasSentPart};
ghost use Rattle.bf_value.specs.Json.{json_of};
ghost use Rattle.bf_report.specs.Report.{pulled_word};

use bf_device::{Cause, Write, WriteFault, halted_after, send_more};
use bf_value::{OutOfMemory, Xval, text_of};
use std::alloc::Global;
use std::marker::Model;

/// The fewest bytes of a word that is held once. A shorter one isn't worth the two further writes by which the text then
/// goes out.
const LONG: usize = 1_024;

/// The held bytes `from..to` come again before the held byte `at`.
#[derive(Clone, Copy)]
struct Again {
    at: usize,
    from: usize,
    to: usize,
}

/// A value whose word is the held bytes `from..to`.
#[derive(Clone, Copy)]
struct Shown<'a> {
    value: &'a Xval,
    from: usize,
    to: usize,
}

/// A text that holds a long value once where instances pull it one after another, as a list that all instances of a task
/// pull. Contracts see the whole text.
#[derive(Drop)]
pub(crate) struct LongText<'a> {
    held: String,
    again: Vec<Again>,
    /// Under the number of each pull, the long value that came last, or any other where none came.
    shown: Vec<Shown<'a>>,
    /// How many bytes the whole text has.
    bytes: usize,
}

impl<'a> Model for LongText<'a> {
    ghost use Rattle.std.specs.Prelude.{List, ℕ, string_bytes};
    ghost use Rattle.bf_report.specs.LongTexts.{IsLongText, text_from};

    ghost Value = { List ℕ };

    ghost view = { λ t. text_from (string_bytes t.held) 0 t.again.items };

    ghost invariant = { λ t. IsLongText (string_bytes t.held) t.again.items t.shown.items t.bytes };
}

/// Adds a text to what is held, and counts its bytes; `Err` changes nothing.
fn hold(held: &mut String, bytes: &mut usize, text: &str) -> Result<(), OutOfMemory>
    ensures held { OnOk result (string_bytes held.new ≡ string_bytes held.old ++ text.now) }
    ensures counted { OnOk result (HasGrownBy (length text.now) bytes.old bytes.new) }
    ensures same { OnErr result ((string_bytes held.new ≡ string_bytes held.old)
        × (bytes.new ≡ bytes.old)) }
{
    let count = bytes.checked_add(text.len()).ok_or(OutOfMemory)?;
    held.push_str(text)?;
    *bytes = count;
    Ok(())
}

/// Adds what comes again, and counts its bytes; `Err` changes nothing.
fn repeat(again: &mut Vec<Again>, bytes: &mut usize, next: Again) -> Result<(), OutOfMemory>
    requires { next.from ≤ next.to }
    ensures added { OnOk result (again.new.items ≡ again.old.items ++ next ∷ []) }
    ensures counted { OnOk result (HasGrownBy (next.to - next.from) bytes.old bytes.new) }
    ensures same { OnErr result ((again.new.items ≡ again.old.items)
        × (bytes.new ≡ bytes.old)) }
{
    let count = bytes.checked_add(next.to - next.from).ok_or(OutOfMemory)?;
    again.push(next)?;
    *bytes = count;
    Ok(())
}

/// Where the value is held, if it is the last long one under this number.
fn find_shown<'a>(shown: &[Shown<'a>], number: usize, value: &Xval) -> Option<Shown<'a>>
    ensures { (s : Shown) → (result ≡ Some s)
        ↔ ((slice_get shown.now number ≡ Some s) × (s.value.now ≡ value.now)) }
{
    let last = *shown.get(number)?;
    last.value.is_same(value).then_some(last)
}

/// Notes where a value is held, as the last long one under this number.
fn note_shown<'a>(
    shown: &mut Vec<Shown<'a>>,
    number: usize,
    last: Shown<'a>,
) -> Result<(), OutOfMemory>
    ensures noted { OnOk result (slice_get shown.new.items number ≡ Some last.entry) }
    ensures held { (held : List ℕ) → All (IsShownIn held) shown.old.items
        → IsShownIn held last.entry → All (IsShownIn held) shown.new.items }
{
    while shown.len() <= number {
        shown.push(last)?;
    }
    shown[number] = last;
    Ok(())
}

impl<'a> LongText<'a> {
    /// An empty text.
    pub(crate) fn new(alloc: Global) -> LongText<'a>
        ensures { result ≡ [] }
    {
        LongText {
            held: String::new(alloc),
            again: Vec::new(alloc),
            shown: Vec::new(alloc),
            bytes: 0,
        }
    }

    /// Adds a text.
    pub(crate) fn push_str(&mut self, text: &str) -> Result<(), OutOfMemory>
        ensures { OnOk result (self.new ≡ self.old ++ text.now) }
    {
        hold(&mut self.held, &mut self.bytes, text)
    }

    /// Adds a pulled value as compact JSON, or `-` for None. `number` is that of the pull among those of its instance,
    /// from 0. A long value that was the last under this number isn't held again.
    pub(crate) fn push_pulled(
        &mut self,
        alloc: Global,
        number: usize,
        value: Option<&'a Xval>,
    ) -> Result<(), OutOfMemory>
        ensures { OnOk result (self.new ≡ self.old ++ pulled_word (option_copied value.entry)) }
    {
        match value {
            Some(value) => self.push_json(alloc, number, value),
            None => self.push_str("-"),
        }
    }

    /// Adds a pulled value as compact JSON.
    fn push_json(
        &mut self,
        alloc: Global,
        number: usize,
        value: &'a Xval,
    ) -> Result<(), OutOfMemory>
        ensures { OnOk result (self.new ≡ self.old ++ json_of value.now) }
    {
        let at = self.held.len();
        if let Some(shown) = find_shown(self.shown.as_slice(), number, value) {
            let Shown { from, to, .. } = shown;
            return repeat(&mut self.again, &mut self.bytes, Again { at, from, to });
        }
        let word = text_of(alloc, value)?;
        hold(&mut self.held, &mut self.bytes, word.as_str())?;
        if word.len() < LONG {
            return Ok(());
        }
        let last = Shown {
            value,
            from: at,
            to: self.held.len(),
        };
        note_shown(&mut self.shown, number, last)
    }

    /// Writes the whole text. Err tells how many bytes went out; what it says of the device is what `bf_device::send`
    /// says.
    pub(crate) fn send<W: Write>(&self, out: &mut W) -> Result<(), WriteFault>
        ensures ok { OnOk result (W.written out.new ≡ sent (W.written out.old) self.now) }
        ensures part { IfErr result (λ fault. (fault.sent ≤ length self.now)
            × (W.written out.new ≡ sent (W.written out.old) (take fault.sent self.now))) }
        ensures only_io { IfErr result (λ fault. fault.cause ≡ Cause.Io) }
        ensures halted { IfErr result (λ _. HasHalted (W.failures out.old) (W.failures out.new)
            (W.interruptions out.old) (W.interruptions out.new)) }
        ensures went_on { OnOk result (HasGoneOn (W.failures out.old) (W.failures out.new)
            (W.interruptions out.old) (W.interruptions out.new)) }
    {
        let held = self.held.as_bytes();
        let mut so_far = SoFar {
            sent: 0,
            interruptions: 0,
        };
        let mut place = 0;
        for again in self.again.as_slice() {
            so_far.send_stretch(out, &held[place..again.at])?;
            so_far.send_stretch(out, &held[again.from..again.to])?;
            place = again.at;
        }
        so_far.send_stretch(out, &held[place..])
    }
}

/// How many bytes of a text went out, and how many writes were interrupted.
#[derive(Drop)]
struct SoFar {
    sent: usize,
    interruptions: u32,
}

impl SoFar {
    /// Writes the next bytes of the text.
    fn send_stretch<W: Write>(&mut self, out: &mut W, bytes: &[u8]) -> Result<(), WriteFault>
        requires few { self.old.interruptions ≤ 1_000 }
        requires fits { self.old.sent + length bytes.now < 2 ^ 64 }
        ensures ok { OnOk result (W.written out.new ≡ sent (W.written out.old) bytes.now) }
        ensures rises { OnOk result (self.new.sent ≡ self.old.sent + length bytes.now) }
        ensures counted { OnOk result (HasCounted self.old.interruptions self.new.interruptions
            (W.failures out.old) (W.failures out.new)
            (W.interruptions out.old) (W.interruptions out.new)) }
        ensures part { IfErr result (λ fault. HasSentPart self.old.sent fault.sent bytes.now
            (W.written out.old) (W.written out.new)) }
        ensures only_io { IfErr result (λ fault. fault.cause ≡ Cause.Io) }
        ensures halted { IfErr result (λ _. HasHaltedBehind self.old.interruptions
            (W.failures out.old) (W.failures out.new)
            (W.interruptions out.old) (W.interruptions out.new)) }
    {
        match send_more(out, bytes, &mut self.interruptions) {
            Ok(()) => {
                self.sent += bytes.len();
                Ok(())
            }
            Err(count) => Err(halted_after((self.sent + count) as u64)),
        }
    }
}

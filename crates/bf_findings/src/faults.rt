//! What is wrong at the places of a document.
ghost use Rattle.std.specs.Prelude.{◌≡◌, ◌++◌, List, map, option_map, IfSome, IfNone, IfOk, OnOk};
ghost use Rattle.serde_json.specs.View.{view};
ghost use Rattle.bf_findings.specs.declared.place.DocumentPlace.{DocumentPlace};
ghost use Rattle.bf_findings.specs.Faults.{sought_text_in, text_in, told_value_in, AreFaults, IsFault, IsHint, IsSuggestion, IsSuggestionFor, IsWrongAt};
ghost use Rattle.bf_findings.specs.Faults as spec;
ghost use Rattle.bf_findings.specs.Listed.{places_in, tasks};

use crate::document::value_at;
use crate::finding::Fault;
use crate::fitting::tasks_in;
use crate::form::{Form, form_of};
use crate::hint::Hint;
use crate::judging::Document;
use crate::names::{meant_name, names_for};
use crate::nearest::suggested_name;
use crate::place::DocumentPlace;
use crate::places::{places_before_tasks, places_of_task};
use crate::shown::shown_at;
use bf_cron::bad_field;
use bf_value::{OutOfMemory, Text};
use serde_json::Value;
use std::alloc::Global;

/// The most faults that are told of a file. Each may have a suggestion, which is sought among all names of the file, so
/// that there has to be a bound. One more is sought, to tell whether there are more.
pub(crate) const MOST_FAULTS: usize = 100;

/// The most bytes of a text for which a name is suggested: those of the longest id.
const LONGEST_NAME: usize = 250;

/// Gives the value at a place as a finding shows it; `missing` for None.
fn told_value_at(
    alloc: Global,
    place: &DocumentPlace,
    value: Option<&Value>,
) -> Result<Text, OutOfMemory>
    ensures { IfOk result (λ t.
        t ≡ told_value_in place.now (option_map (λ v. view v.now) value.entry)) }
{
    match value {
        Some(value) => shown_at(alloc, place, value),
        None => Text::copy_of(alloc, "missing"),
    }
}

/// Gives the text for which a known name may be suggested: the unknown key at that place, or else the value. None where
/// the value is no text, or the text is longer than an id may be.
fn sought_text_at<'a>(place: &'a DocumentPlace, value: Option<&'a Value>) -> Option<&'a str>
    ensures { option_map (λ s. s.now) result
        ≡ sought_text_in place.entry.now (option_map (λ v. view v.now) value.entry) }
{
    let text = match place {
        DocumentPlace::OtherKey(key) | DocumentPlace::OtherTaskKey(_, key) => key.as_str(),
        _ => value?.as_str()?,
    };
    if text.len() <= LONGEST_NAME {
        Some(text)
    } else {
        None
    }
}

/// Suggests a known name for a text that stands where `form` may: the one that means what Airflow or cron calls so, or
/// else the nearest. None where no name is near.
fn suggestion(
    alloc: Global,
    document: &Value,
    form: Form,
    text: &str,
) -> Result<Option<Text>, OutOfMemory>
    ensures { IfOk result (IsSuggestion (view document.now) form text.now) }
{
    let lowered = text.to_ascii_lowercase(alloc)?;
    if let Some(name) = meant_name(form, lowered.as_str()) {
        return Ok(Some(Text::copy_of(alloc, name)?));
    }
    let names = names_for(alloc, document, form)?;
    match suggested_name(alloc, text, names.as_slice())? {
        Some(name) => Ok(Some(Text::copy_of(alloc, name)?)),
        None => Ok(None),
    }
}

/// Suggests a known name for a text that stands where `form` may, as `suggestion` does; None for no text, or where no
/// name is near.
fn suggestion_for(
    alloc: Global,
    document: &Value,
    form: Form,
    text: Option<&str>,
) -> Result<Option<Text>, OutOfMemory>
    ensures { IfOk result (IsSuggestionFor (view document.now) form
        (option_map (λ s. s.now) text.entry)) }
{
    match text {
        Some(text) => suggestion(alloc, document, form, text),
        None => Ok(None),
    }
}

/// Gives the text that stands at a place; None where none does.
fn text_at<'a>(value: Option<&'a Value>) -> Option<&'a str>
    ensures { option_map (λ s. s.now) result
        ≡ text_in (option_map (λ v. view v.now) value.entry) }
{
    value?.as_str()
}

/// Answers whether a text stands for the zone of a zone file where a zone may.
fn is_file_zone(form: Form, text: Option<&str>) -> bool
    ensures { result ≡ spec.is_file_zone form (option_map (λ s. s.now) text.entry) }
{
    match (form, text) {
        (Form::Zone, Some(text)) => text == "file",
        _ => false,
    }
}

/// Gives the hint for a zone `file` that may not stand where it does.
fn zone_hint(zone_file: Option<&[u8]>) -> Option<Hint>
    ensures { result ≡ spec.zone_hint (option_map (λ s. s.now) zone_file.entry) }
{
    match zone_file {
        Some(_) => None,
        None => Some(Hint::NoZoneFile),
    }
}

/// Gives the hint where no name is suggested: the field of a schedule that can't be read.
fn other_hint(alloc: Global, form: Form, text: Option<&str>) -> Result<Option<Hint>, OutOfMemory>
    ensures { IfOk result (λ hint. hint
        ≡ spec.other_hint form (option_map (λ s. s.now) text.entry)) }
{
    match (form, text) {
        (Form::Schedule, Some(text)) => Ok(bad_field(alloc, text)?.map(Hint::BadField)),
        _ => Ok(None),
    }
}

/// Gives the hint for a text: the suggested name, or else `other_hint`.
fn hint_with(
    alloc: Global,
    form: Form,
    text: Option<&str>,
    suggestion: Option<Text>,
) -> Result<Option<Hint>, OutOfMemory>
    ensures { IfOk result (λ hint. hint
        ≡ spec.hint_with form (option_map (λ s. s.now) text.entry) suggestion) }
{
    match suggestion {
        Some(name) => Ok(Some(Hint::Meant(name))),
        None => other_hint(alloc, form, text),
    }
}

impl Document<'_> {
    /// Gives what is told of a value in place of what may stand there. `sought` is the text for which a name may be
    /// suggested.
    fn hint(
        self,
        alloc: Global,
        form: Form,
        sought: Option<&str>,
        text: Option<&str>,
    ) -> Result<Option<Hint>, OutOfMemory>
        ensures { IfOk result (IsHint (option_map (λ s. s.now) self.entry.zone_file)
            (view self.entry.value.now) form (option_map (λ s. s.now) sought.entry)
            (option_map (λ s. s.now) text.entry)) }
    {
        let suggestion = suggestion_for(alloc, self.value, form, sought)?;
        if is_file_zone(form, text) {
            return Ok(zone_hint(self.zone_file));
        }
        hint_with(alloc, form, text, suggestion)
    }

    /// Finds what is wrong at a place, with what may stand there and a hint; None where nothing is wrong.
    fn fault_at(self, alloc: Global, place: DocumentPlace) -> Result<Option<Fault>, OutOfMemory>
        ensures some { IfOk result (λ found. IfSome found
            (IsFault (option_map (λ s. s.now) self.entry.zone_file) (view self.entry.value.now))) }
        ensures place { IfOk result (λ found. IfSome found (λ fault. fault.place ≡ place)) }
        ensures none { IfOk result (λ found. IfNone found
            (¬ (IsWrongAt (option_map (λ s. s.now) self.entry.zone_file) (view self.entry.value.now)
            place))) }
    {
        let form = form_of(self.value, &place);
        let value = value_at(self.value, &place);
        if !self.is_wrong(alloc, &place, form, value)? {
            return Ok(None);
        }
        let stands = told_value_at(alloc, &place, value)?;
        let hint = self.hint(alloc, form, sought_text_at(&place, value), text_at(value))?;
        Ok(Some(Fault {
            place,
            form,
            stands,
            hint,
        }))
    }

    /// Adds what is wrong at these places, in order, unless it is one fault more than are told.
    fn add_faults(
        self,
        alloc: Global,
        found: &mut Vec<Fault>,
        places: Vec<DocumentPlace>,
    ) -> Result<(), OutOfMemory>
        ensures { OnOk result ((before : List DocumentPlace)
            → AreFaults (option_map (λ s. s.now) self.entry.zone_file) (view self.entry.value.now)
            before found.old.items
            → AreFaults (option_map (λ s. s.now) self.entry.zone_file) (view self.entry.value.now)
            (before ++ places.items) found.new.items) }
    {
        for place in places {
            if found.len() > MOST_FAULTS {
                return Ok(());
            }
            if let Some(fault) = self.fault_at(alloc, place)? {
                found.push(fault)?;
            }
        }
        Ok(())
    }

    /// Adds what is wrong in these tasks, which are those of the document, unless it is one fault more than are told.
    fn add_task_faults(
        self,
        alloc: Global,
        found: &mut Vec<Fault>,
        items: &[Value],
    ) -> Result<(), OutOfMemory>
        ensures { OnOk result ((before : List DocumentPlace)
            → AreFaults (option_map (λ s. s.now) self.entry.zone_file) (view self.entry.value.now)
            before found.old.items
            → AreFaults (option_map (λ s. s.now) self.entry.zone_file) (view self.entry.value.now)
            (before ++ tasks 0 (map view items.now)) found.new.items) }
    {
        for (n, task) in items.iter().enumerate() {
            if found.len() > MOST_FAULTS {
                return Ok(());
            }
            self.add_faults(alloc, found, places_of_task(alloc, n, task)?)?;
        }
        Ok(())
    }

    /// Finds what is wrong at each place of the document, from the top down, up to one fault more than are told.
    pub(crate) fn faults(self, alloc: Global) -> Result<Vec<Fault>, OutOfMemory>
        ensures { IfOk result (λ v. AreFaults (option_map (λ s. s.now) self.entry.zone_file)
            (view self.entry.value.now) (places_in (view self.entry.value.now)) v.items) }
    {
        let mut found = Vec::new(alloc);
        self.add_faults(alloc, &mut found, places_before_tasks(alloc, self.value)?)?;
        self.add_task_faults(alloc, &mut found, tasks_in(self.value))?;
        Ok(found)
    }
}

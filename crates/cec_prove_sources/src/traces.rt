// The trace of events.

ghost use Rattle.std.specs.Prelude.{◌≡◌, ◌++◌, map, IfOk, OnOk};
ghost use Rattle.net_never.specs.Reached.{events_of};
ghost use Rattle.cec_prove_sources.specs.TraceTexts.{after_instant, before_instant, instant_text, present_text};
ghost use Rattle.cec_prove_sources.specs.TraceTexts.{present_word, trace_text};

use crate::questions::Layout;
use base_types::{NoMemory, Text};
use std::alloc::Global;

// The name of a given signal and a space, where it is present.
fn push_name(text: &mut Vec<u8>, name: &Text, event: &[bool], place: usize) -> Result<(), NoMemory>
    ensures { OnOk result (text.new.items ≡ text.old.items ++ present_word event.now place name.now) }
{
    if place < event.len() && event[place] {
        text.extend_from_slice(name.bytes())?;
        text.push(b' ')?;
    }
    Ok(())
}

// The names of the given signals that are present.
fn push_names(text: &mut Vec<u8>, names: &[Text], event: &[bool]) -> Result<(), NoMemory>
    ensures { OnOk result (text.new.items ≡ text.old.items ++ present_text event.now 0 names.now) }
{
    for (k, name) in names.iter().enumerate() {
        push_name(text, name, event, k)?;
    }
    Ok(())
}

// What comes before the names of an instant.
fn before_instant(layout: Layout) -> &'static [u8]
    ensures { result.now ≡ before_instant layout }
{
    match layout {
        Layout::LinePerInstant => b"",
        Layout::OneLine => b" ",
    }
}

// What comes after the names of an instant.
fn after_instant(layout: Layout) -> &'static [u8]
    ensures { result.now ≡ after_instant layout }
{
    match layout {
        Layout::LinePerInstant => b";\n",
        Layout::OneLine => b";",
    }
}

// One instant.
fn push_instant(
    text: &mut Vec<u8>,
    layout: Layout,
    names: &[Text],
    event: &[bool],
) -> Result<(), NoMemory>
    ensures { OnOk result (text.new.items ≡ text.old.items ++ instant_text layout names.now event.now) }
{
    text.extend_from_slice(before_instant(layout))?;
    push_names(text, names, event)?;
    text.extend_from_slice(after_instant(layout))?;
    Ok(())
}

/// The trace of events: for each the names of the given signals that are present, and `;`.
pub(crate) fn trace_text(
    alloc: Global,
    layout: Layout,
    names: &[Text],
    events: &[Vec<bool>],
) -> Result<Vec<u8>, NoMemory>
    ensures { IfOk result (λ text. text.items ≡ trace_text layout names.now (events_of events.now)) }
{
    let mut text = Vec::new(alloc);
    for event in events {
        push_instant(&mut text, layout, names, event)?;
    }
    Ok(text)
}

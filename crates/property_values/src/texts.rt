//! Message texts, as they are read.

ghost use Rattle.std.specs.Prelude.{◌≡◌, [], IfOk};
ghost use Rattle.std.specs.Option.{option_copied};
ghost use Rattle.property_values.specs.Texts.{array_of_texts, or_empty, text_for, text_if_came, texts_that_came, written_text};

use crate::Content;
use crate::encoding::octets_of;
use bac_values::{EventState, Items, NoMemory, Text, Transition, Value, push};
use event_machine::Alarm;
use std::alloc::Global;

fn empty_text(alloc: Global) -> Result<Text, NoMemory>
    ensures empty { IfOk result (λ text. text ≡ []) }
{
    match Text::new(alloc, "") {
        Ok(text) => Ok(text),
        Err(_) => Err(NoMemory),
    }
}

// A copy of a text, or an empty one where there is none.
fn or_empty(alloc: Global, text: Option<&Text>) -> Result<Text, NoMemory>
    ensures copy { IfOk result (λ copy. copy ≡ or_empty (option_copied text.entry)) }
{
    match text {
        Some(text) => Ok(text.clone()?),
        None => empty_text(alloc),
    }
}

// The text for a kind of transition.
fn text_for(alloc: Global, texts: &[Text], transition: Transition) -> Result<Text, NoMemory>
    ensures text { IfOk result (λ text. text ≡ text_for texts.now transition) }
{
    or_empty(alloc, texts.get(transition.place()))
}

// The octets of that text.
fn octets_for(alloc: Global, texts: &[Text], transition: Transition) -> Result<Items<u8>, NoMemory>
    ensures octets { IfOk result (λ octets. octets ≡ written_text (text_for texts.now transition)) }
{
    octets_of(alloc, &Value::Text(text_for(alloc, texts, transition)?))
}

/// An array of three texts, to-offnormal, to-fault, to-normal. Where there is no text for a transition, it is empty.
pub fn array_of_texts(alloc: Global, texts: &[Text]) -> Result<Content, NoMemory>
    ensures array { IfOk result (λ content. content ≡ array_of_texts texts.now) }
{
    let mut elements = Vec::new(alloc);
    push(
        &mut elements,
        octets_for(alloc, texts, Transition::ToOffnormal)?,
    )?;
    push(
        &mut elements,
        octets_for(alloc, texts, Transition::ToFault)?,
    )?;
    push(
        &mut elements,
        octets_for(alloc, texts, Transition::ToNormal)?,
    )?;
    Ok(Content::Elements {
        elements: Items::of(elements),
    })
}

// The text for a transition that came, and an empty one for one that never came.
fn text_if_came(
    alloc: Global,
    last_state: Option<EventState>,
    texts: &[Text],
    transition: Transition,
) -> Result<Text, NoMemory>
    ensures text { IfOk result (λ text. text ≡ text_if_came last_state (text_for texts.now transition)) }
{
    match last_state {
        Some(_) => text_for(alloc, texts, transition),
        None => empty_text(alloc),
    }
}

/// The array of the texts of those transitions that came by an alarm, with an empty one for each that never came.
pub fn texts_that_came(alloc: Global, alarm: &Alarm, texts: &[Text]) -> Result<Content, NoMemory>
    ensures array { IfOk result (λ content. content ≡ array_of_texts (texts_that_came alarm.now.last_states texts.now)) }
{
    let [offnormal, fault, normal] = alarm.last_states();
    let came = [
        text_if_came(alloc, offnormal, texts, Transition::ToOffnormal)?,
        text_if_came(alloc, fault, texts, Transition::ToFault)?,
        text_if_came(alloc, normal, texts, Transition::ToNormal)?,
    ];
    array_of_texts(alloc, &came)
}

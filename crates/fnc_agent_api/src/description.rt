// The description of an agent, which is a JSON object.

ghost use Rattle.std.specs.Prelude.{◌≡◌, ◌≤◌, Some, Ok, Err, IfOk, IfErr, option_map, option_and_then, is_some, codes};
ghost use Rattle.std.specs.Prelude.{length, IsTrue};
ghost use Rattle.std.specs.List.{list_all, list_any};
ghost use Rattle.serde_json.specs.View.{view, items_view};
ghost use Rattle.serde_json.specs.Find.{as_array, as_str, get};
ghost use Rattle.fnc_journal.specs.EntryBounds.{is_described};
ghost use Rattle.fnc_agent_api.specs.Descriptions as described;

use fnc_journal::limits::MOST_PARAMETERS;
use fnc_journal::{Actions, Description, NoMemory, Parameter, Parameters, Text, is_option_name};
use serde_json::Value;
use std::alloc::Global;
use thiserror::Error;

/// A field of a description.
#[derive(Clone, Copy, Debug, PartialEq, Eq)]
pub enum Field {
    Actions,
    Parameters,
    TargetParameter,
}

/// Why bytes are no description of an agent.
#[derive(Clone, Copy, Debug, PartialEq, Eq, Error)]
pub enum DescribeFault {
    #[error("the description is not JSON")]
    NotJson,
    #[error("the description is not an object")]
    NotObject,
    #[error("the field {field:?} is not of its form")]
    BadField { field: Field },
    #[error("the agent has no action `off`")]
    NoOff,
    #[error("out of memory")]
    NoMemory,
}

impl From<NoMemory> for DescribeFault {
    ghost use Rattle.std.specs.Prelude.{◌≡◌};
    ghost use Rattle.fnc_agent_api.specs.declared.description.DescribeFault.TheVariants as faults;

    ghost from_gives = { λ _ e. e ≡ faults.NoMemory };

    fn from(_want: NoMemory) -> DescribeFault {
        DescribeFault::NoMemory
    }
}

/// Reads the description of an agent. `actions` is an array of texts, of which `on`, `off`, `reboot`, `list` and
/// `status` count and `off` must be one. `parameters` may be there: an array of at most 64 objects, each with a
/// `name` that an option can have and, where the parameter must be given, `required`. So may
/// `target_parameter`, the name of the parameter that takes the node. Of equal keys the last counts.
pub fn read_description(alloc: Global, json: &[u8]) -> Result<Description, DescribeFault>
    ensures value { described.Gives result (described.described json.now) }
    ensures bounded { IfOk result (λ d. IsTrue (is_described d)) }
{
    let value = read_value(alloc, json)?;
    describe(alloc, &value)
}

/// The description of an agent of which nothing was told: it switches on and off and reboots.
pub fn plain_description(alloc: Global) -> Result<Description, NoMemory>
    ensures value { result ≡ Ok described.plain }
    ensures bounded { IfOk result (λ d. IsTrue (is_described d)) }
{
    Ok(Description {
        actions: Actions {
            on: true,
            off: true,
            reboot: true,
            list: false,
            status: false,
        },
        parameters: Parameters::new(alloc),
        target: None,
    })
}

fn read_value(alloc: Global, json: &[u8]) -> Result<Value, DescribeFault>
    ensures ok { IfOk result (λ v. described.json_of json.now ≡ Some (view v)) }
    ensures err { IfErr result (λ e. described.Fails e (described.described json.now)) }
{
    match Value::from_slice(alloc, json) {
        Ok(value) => Ok(value),
        Err(error) if error.is_memory() => Err(DescribeFault::NoMemory),
        Err(_) => Err(DescribeFault::NotJson),
    }
}

fn describe(alloc: Global, value: &Value) -> Result<Description, DescribeFault>
    ensures { described.Gives result (described.description_of (view value.now)) }
{
    if !value.is_object() {
        return Err(DescribeFault::NotObject);
    }
    let actions = read_actions(value.get("actions")).ok_or(DescribeFault::BadField {
        field: Field::Actions,
    })?;
    let parameters = read_parameters(alloc, value.get("parameters"))?;
    let target = read_target(alloc, value.get("target_parameter"))?;
    if !actions.off {
        return Err(DescribeFault::NoOff);
    }
    Ok(Description {
        actions,
        parameters,
        target,
    })
}

fn read_actions(field: Option<&Value>) -> Option<Actions>
    ensures { result ≡ described.actions_of (option_map (λ v. view v.now) field.entry) }
{
    actions_of(items_of(field)?)
}

fn items_of(field: Option<&Value>) -> Option<&[Value]>
    ensures { option_map (λ items. items_view items.now) result
        ≡ option_and_then as_array (option_map (λ v. view v.now) field.entry) }
{
    Some(field?.as_array()?.as_slice())
}

#[tactic(auto, using(crate::proofs::ItemsSeen::all_items_seen))]
fn actions_of(words: &[Value]) -> Option<Actions>
    ensures { result ≡ described.actions_of_items (Some (items_view words.now)) }
{
    if are_texts(words) {
        Some(actions_among(words))
    } else {
        None
    }
}

fn are_texts(words: &[Value]) -> bool
    ensures { result ≡ list_all (λ v. described.is_text (view v)) words.now }
{
    words.iter().all(|w| w.is_string())
}

#[tactic(auto, using(crate::proofs::ItemsSeen::any_item_seen))]
fn actions_among(words: &[Value]) -> Actions
    ensures { result ≡ described.actions_in (items_view words.now) }
{
    Actions {
        on: has_word(words, "on"),
        off: has_word(words, "off"),
        reboot: has_word(words, "reboot"),
        list: has_word(words, "list"),
        status: has_word(words, "status"),
    }
}

fn has_word(words: &[Value], word: &str) -> bool
    ensures { result ≡ list_any (λ v. described.is_word word.now (view v)) words.now }
{
    words.iter().any(|w| is_word(w, word))
}

fn is_word(value: &Value, word: &str) -> bool
    ensures { result ≡ described.is_word word.now (view value.now) }
{
    match value.as_str() {
        Some(text) => text == word,
        None => false,
    }
}

#[tactic(auto, using(crate::proofs::ItemsSeen::item_count_seen))]
fn read_parameters(alloc: Global, field: Option<&Value>) -> Result<Parameters, DescribeFault>
    ensures { described.Gives result (described.field_or Field.Parameters
        (described.parameters_of (option_map (λ v. view v.now) field.entry))) }
{
    let Some(value) = field else {
        return Ok(Parameters::new(alloc));
    };
    match value.as_array() {
        Some(items) if items.len() <= MOST_PARAMETERS => parameters_among(alloc, items),
        _ => Err(DescribeFault::BadField {
            field: Field::Parameters,
        }),
    }
}

fn parameters_among(alloc: Global, items: &[Value]) -> Result<Parameters, DescribeFault>
    ensures { described.Gives result (described.field_or Field.Parameters
        (described.parameters_in (items_view items.now))) }
{
    let mut parameters = Parameters::new(alloc);
    for item in items {
        parameters.push(read_parameter(alloc, item)?)?;
    }
    Ok(parameters)
}

fn read_parameter(alloc: Global, item: &Value) -> Result<Parameter, DescribeFault>
    ensures { described.Gives result (described.field_or Field.Parameters
        (described.parameter_of (view item.now))) }
{
    let name = item.get("name").and_then(Value::as_str);
    match (parameter_name(name), is_required(item.get("required"))) {
        (Some(name), Some(required)) => Ok(Parameter {
            name: Text::new(alloc, name)?,
            required,
        }),
        _ => Err(DescribeFault::BadField {
            field: Field::Parameters,
        }),
    }
}

fn is_required(field: Option<&Value>) -> Option<bool>
    ensures { result ≡ described.required_of (option_map (λ v. view v.now) field.entry) }
{
    match field {
        Some(value) => value.as_bool(),
        None => Some(false),
    }
}

fn parameter_name(text: Option<&str>) -> Option<&str>
    ensures { option_map (λ t. t.now) result
        ≡ described.parameter_name (option_map (λ t. t.now) text.entry) }
{
    match text {
        Some(name) if is_option_name(name) => Some(name),
        _ => None,
    }
}

fn read_target(alloc: Global, field: Option<&Value>) -> Result<Option<Text>, DescribeFault>
    ensures { described.Gives result (described.field_or Field.TargetParameter
        (described.target_of (option_map (λ v. view v.now) field.entry))) }
{
    let Some(value) = field else {
        return Ok(None);
    };
    match parameter_name(value.as_str()) {
        Some(name) => Ok(Some(Text::new(alloc, name)?)),
        None => Err(DescribeFault::BadField {
            field: Field::TargetParameter,
        }),
    }
}

//! What a value has to be.
ghost use Rattle.std.specs.Prelude.{◌≡◌, ◌≤◌, [], IfSome, IfOk, IfErr, ok_or, option_copied};
ghost use Rattle.toml.specs.Data.{as_bool, as_str};
ghost use Rattle.toml.specs.View.{view};
ghost use Rattle.den_config.specs.Places.{standing};
ghost use Rattle.den_config.specs.Refusals.{IsRefusal};
ghost use Rattle.den_config.specs.Values.{natural, at_least, between, value_or, value_at};

use crate::place::Place;
use den_codec::{ConfigPlace, Error, Label};
use std::alloc::Global;
use toml::Value;

fn natural(integer: i64) -> Option<u64>
    ensures { result ≡ natural integer }
{
    if integer < 0 {
        None
    } else {
        Some(integer as u64)
    }
}

/// The value as an integer that is no less than the least.
pub(crate) fn at_least(value: &Value, least: u64) -> Option<u64>
    ensures some { result ≡ at_least least (view value.now) }
    ensures within { IfSome result (λ n. least ≤ n) }
{
    let number = match value.as_integer() {
        Some(integer) => natural(integer)?,
        None => return None,
    };
    if least <= number { Some(number) } else { None }
}

/// The value as an integer from the least to the most.
pub(crate) fn between(value: &Value, least: u64, most: u64) -> Option<u64>
    ensures some { result ≡ between least most (view value.now) }
    ensures above { IfSome result (λ n. least ≤ n) }
    ensures within { IfSome result (λ n. n ≤ most) }
{
    let number = at_least(value, least)?;
    if number <= most { Some(number) } else { None }
}

/// An integer that is no less than the least, or the default where nothing stands.
pub(crate) fn natural_or(at: Place<'_>, least: u64, default: u64) -> Option<u64>
    requires { least ≤ default }
    ensures some { result ≡ value_or default (at_least least) (standing at.entry) }
    ensures within { IfSome result (λ n. least ≤ n) }
{
    match at {
        Place::Missing => Some(default),
        Place::Holds(value) => at_least(value, least),
        Place::Blocked => None,
    }
}

/// An integer from the least that has a word of 32 bits, or the default where nothing stands.
pub(crate) fn word_or(at: Place<'_>, least: u32, default: u32) -> Option<u32>
    requires { least ≤ default }
    ensures some { result ≡ value_or default (between least 4294967295) (standing at.entry) }
    ensures within { IfSome result (λ n. least ≤ n) }
{
    match at {
        Place::Missing => Some(default),
        Place::Holds(value) => match between(value, u64::from(least), u64::from(u32::MAX)) {
            Some(number) => Some(number as u32),
            None => None,
        },
        Place::Blocked => None,
    }
}

/// An integer that has a word of 32 bits.
pub(crate) fn word_at(at: Place<'_>) -> Option<u32>
    ensures { result ≡ value_at (between 0 4294967295) (standing at.entry) }
{
    match at {
        Place::Missing => None,
        Place::Holds(_) => word_or(at, 0, 0),
        Place::Blocked => None,
    }
}

/// The number of a role or a status, no more than the most, or the default where nothing stands.
pub(crate) fn number_or(at: Place<'_>, most: u8, default: u8) -> Option<u8>
    ensures { result ≡ value_or default (between 0 most) (standing at.entry) }
{
    match at {
        Place::Missing => Some(default),
        Place::Holds(value) => match between(value, 0, u64::from(most)) {
            Some(number) => Some(number as u8),
            None => None,
        },
        Place::Blocked => None,
    }
}

/// A boolean, or the default where nothing stands.
pub(crate) fn flag_or(at: Place<'_>, default: bool) -> Option<bool>
    ensures { result ≡ value_or default as_bool (standing at.entry) }
{
    match at {
        Place::Missing => Some(default),
        Place::Holds(value) => value.as_bool(),
        Place::Blocked => None,
    }
}

/// A string, or the empty one where nothing stands.
pub(crate) fn text_or_empty(at: Place<'_>) -> Option<&str>
    ensures { option_copied result ≡ value_or [] as_str (standing at.entry) }
{
    match at {
        Place::Missing => Some(""),
        Place::Holds(value) => value.as_str(),
        Place::Blocked => None,
    }
}

/// A string.
pub(crate) fn text_at(at: Place<'_>) -> Option<&str>
    ensures { option_copied result ≡ value_at as_str (standing at.entry) }
{
    match at {
        Place::Missing => None,
        Place::Holds(value) => value.as_str(),
        Place::Blocked => None,
    }
}

/// A copy of the text, or a refusal at the key where there is none.
pub(crate) fn copied(alloc: Global, text: Option<&str>, key: ConfigPlace) -> Result<Label, Error>
    ensures given { IfOk result (λ l. ok_or (option_copied text.entry) key ≡ Ok l) }
    ensures refused { IfErr result (IsRefusal (ok_or (option_copied text.entry) key)) }
{
    match text {
        Some(text) => Ok(Label::of(alloc, text)?),
        None => Err(Error::Config(key)),
    }
}

//! What a key of the configuration gives.
ghost use Rattle.std.specs.Prelude.{◌≡◌, ◌≤◌, [], IfOk, IfErr};
ghost use Rattle.toml.specs.Data.{as_bool, as_str};
ghost use Rattle.toml.specs.View.{view};
ghost use Rattle.den_config.specs.Refusals.{IsRefusal};
ghost use Rattle.den_config.specs.Rows.{row};
ghost use Rattle.den_config.specs.Values.{at_least, between};

use crate::place::place_of;
use crate::values::{copied, flag_or, natural_or, text_or_empty, word_or};
use den_codec::{ConfigPlace, Error, Label};
use std::alloc::Global;
use toml::Value;

/// The boolean of a key.
#[tactic(auto, unfolding(crate::specs::Rows::row))]
pub(crate) fn flag(root: &Value, key: ConfigPlace, default: bool) -> Result<bool, ConfigPlace>
    ensures { result ≡ row key default as_bool (view root.now) }
{
    flag_or(place_of(root, key), default).ok_or(key)
}

/// The integer of a key, no less than the least.
#[tactic(auto, unfolding(crate::specs::Rows::row))]
pub(crate) fn natural(
    root: &Value,
    key: ConfigPlace,
    least: u64,
    default: u64,
) -> Result<u64, ConfigPlace>
    requires { least ≤ default }
    ensures given { result ≡ row key default (at_least least) (view root.now) }
    ensures within { IfOk result (λ n. least ≤ n) }
{
    natural_or(place_of(root, key), least, default).ok_or(key)
}

/// The integer of a key, from the least to the greatest of 32 bits.
#[tactic(auto, unfolding(crate::specs::Rows::row))]
pub(crate) fn word(
    root: &Value,
    key: ConfigPlace,
    least: u32,
    default: u32,
) -> Result<u32, ConfigPlace>
    requires { least ≤ default }
    ensures given { result ≡ row key default (between least 4294967295) (view root.now) }
    ensures within { IfOk result (λ n. least ≤ n) }
{
    word_or(place_of(root, key), least, default).ok_or(key)
}

/// The string of a key, or the empty one.
#[tactic(auto, unfolding(crate::specs::Rows::row))]
pub(crate) fn label_of(alloc: Global, root: &Value, key: ConfigPlace) -> Result<Label, Error>
    ensures given { IfOk result (λ l. row key [] as_str (view root.now) ≡ Ok l) }
    ensures refused { IfErr result (IsRefusal (row key [] as_str (view root.now))) }
{
    copied(alloc, text_or_empty(place_of(root, key)), key)
}

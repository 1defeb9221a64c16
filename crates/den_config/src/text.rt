//! The configuration of a text.
ghost use Rattle.std.specs.Prelude.{◌≡◌, IfOk, IfErr};
ghost use Rattle.toml.specs.View.{view};
ghost use Rattle.den_config.specs.Refusals.{IsRefusal};
ghost use Rattle.den_config.specs.Rows.{root_of, configuration, values_of};

use crate::sections::configured;
use den_codec::{ConfigPlace, Error, RaftNodeConfig};
use std::alloc::Global;
use toml::Value;

/// The greatest length of a text, in bytes.
pub(crate) const TEXT_LIMIT: usize = 1_048_576;

#[tactic(auto, unfolding(crate::specs::Rows::root_of))]
fn root_of(alloc: Global, text: &str) -> Result<Value, Error>
    ensures given { IfOk result (λ root. root_of text.now ≡ Ok (view root)) }
    ensures refused { IfErr result (IsRefusal (root_of text.now)) }
{
    if text.len() > TEXT_LIMIT {
        return Err(Error::Config(ConfigPlace::Text));
    }
    match toml::table_from_str(alloc, text) {
        Ok(table) => Ok(Value::from(table)),
        Err(error) => {
            if error.is_memory() {
                Err(Error::OutOfMemory)
            } else {
                Err(Error::Config(ConfigPlace::Text))
            }
        }
    }
}

/// The configuration that a text gives, each key that it lacks by its default. A refusal names the first key whose test
/// fails, or `Text` where the text is longer than 1,048,576 bytes or is no TOML.
#[tactic(auto, using(crate::proofs::Steps::and_then_ok, crate::proofs::Steps::and_then_err), unfolding(crate::specs::Rows::configuration))]
pub fn read(alloc: Global, text: &str) -> Result<RaftNodeConfig, Error>
    ensures given { IfOk result (λ c. configuration text.now ≡ Ok (values_of c)) }
    ensures refused { IfErr result (IsRefusal (configuration text.now)) }
{
    let root = root_of(alloc, text)?;
    configured(alloc, &root)
}

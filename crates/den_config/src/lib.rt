//! The configuration of a node, read from a text in TOML. The text is the caller's, or comes from a source.
//!
//! `read` gives the configuration of a text, or the first key whose test fails. Its clauses `given` and `refused` say
//! both by `configuration` in specs/Rows.antt, over the table that `parse_document` of the crate `toml` gives for the
//! text. So a text that has a configuration is refused for want of memory alone.
//!
//! 1. The text has at most 1,048,576 bytes and is TOML, or the refusal names `Text`: `root_of`.
//! 2. The keys are tested in the order of `ConfigPlace`, each by its own test: `cluster_of`, `raft_of`, `config_of`.
//! 3. A key that is missing has its default, also where a table on the way to it is missing. Where something else stands
//!    in a table's place, the first key below it is refused: `place` in specs/Places.antt, `value_or` in
//!    specs/Values.antt.
//! 4. The nodes are an array of tables; their ids differ, and this node's is among them: specs/Nodes.antt.
//! 5. Keys that have no row are passed over. How often a task is tried has no key: `standard_retry`.
//! 6. The bytes of a source are to be UTF-8, or the refusal names `Text` too: `configuration_in` in specs/Sources.antt, over
//!    `configuration`. A source that gives more than 1,048,576 bytes is read no further. One whose read fails is refused as
//!    `ConfigFault`, only where its count of faults rose: `IsSourceRefusal`.
//! 7. `read_solo` refuses a configuration of several voters at `InitialCluster`, behind every key's own test.
//!
//! `ConfigPlace::key` is the key as a text spells it. Each layer has a module: `place` follows a key, `values` tests
//! what stands there, `rows` gives a key's value, `nodes` those of the cluster, `sections` puts the parts together, `text`
//! and `source` begin with a text and with a source.
//!
//!     let config = den_config::read(alloc, "[cluster]\ndb_root_dir = \"data\"\n")?;
//!     let alone = den_config::read_solo(alloc, &mut source)?;
#![tactic(auto)]

mod nodes;
mod place;
mod rows;
mod sections;
mod source;
mod text;
mod values;

pub use source::{read_solo, read_source};
pub use text::read;

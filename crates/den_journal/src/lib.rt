//! A journal: a gate file of one family of files, and in memory the value that a fold over its regions gives. It stands
//! between the gate files and the stores: a store has a journal, and says what its regions mean (`Folded`).
//!
//! `Journal::open` reads the family's slot in use and folds its regions into a value. `Journal::change` appends one region,
//! by which the value changes in the files and then in memory. `Journal::flush` puts all files on the disk. A refusal of the
//! disk ends a journal: it is opened anew, and finds the value from before the refused call or the one after it.
//!
//! Regions are written anew in the family's other slot, which is in use from then on: by `Journal::rewrite` in one call, where a
//! region and another behind it give the changed value, or by `draft_begin`, a `draft_push` for each region and `draft_commit`,
//! where the words are too many for one buffer. From `draft_begin` to `draft_commit` a journal is not ready, so a caller that
//! stops between them leaves it to be opened anew.
//!
//! A draft may give another value, in place of the journal's own. `draft_turn_to` takes it on in memory, and the regions
//! in use give the old one until `draft_commit`. `Journal::give_up` ends a journal's use, and its files stay: it is opened
//! anew.
//!
//! Invariants, and where each stands:
//!
//! 1. The regions of the slot in use, folded, give the value in memory: `RestsAs` in specs/Shown.antt, which is `rests` of
//!    what contracts see of a journal.
//! 2. The slot in use is at rest: nothing of it is pending, and behind its last region stands a closed gate or the file's
//!    end: `at_rest`, `current` of `RestsAs`.
//! 3. A crash at any moment of a call leaves the family's files to give one of the values that the call names, and the
//!    files of the other families as a crash before the call might have left them: `Moves` in specs/Writes.antt. Of the
//!    first a store may say nothing (`told` of `Held` in specs/Shown.antt); a journal always tells.
//! 4. The weight is the bytes that the regions take, or would take when written anew, at most: the greater of the slot's end
//!    and a bound by the value's size (`shown_of`), so a rewrite makes nothing heavier. A full disk is told the room that one
//!    of the family's two slots needs for a payload that the call may put there: `full` of `IsRefused`.
//! 5. Before a draft is committed the regions in use give the value that stands at each moment, the old one: `IsDrafting` and
//!    `Drafts` in specs/Drafts.antt. From the commit's Ok on the draft's words give the journal's: `IsCommitted`.
//! 6. Memory is taken before the region is written. A value that takes memory behind the write, too, says so (`lost`), and a
//!    journal that wants it then has failed: `untouched` of `IsRefused`.
//!
//! A call of a store is stated by one record, over what is seen of the store before and after it (`Shown`) and what the
//! call writes (`Effect`): `Writes` for a call that changes the value, `Syncs` for a flush, `Ends` for the last call,
//! `Opens` for an opening, `StoreStands` for what each needs. `Lies` has what a caller may take of any store: only its own
//! family's files count, and where it tells what they give, a crash of files at rest gives its value.
//!
//!     let mut journal = Journal::<LastState>::open(alloc, &mut disk)?;
//!     journal.change(&mut disk, state)?;
#![tactic(auto)]

mod family;
mod folded;
mod journal;
mod one_word;
mod replay;
mod words;

pub use folded::Folded;
pub use journal::Journal;
pub use one_word::{read_one, write_one};

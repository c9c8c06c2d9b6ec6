//! The lock of a book: one history, each call once.
//!
//! A value behind the lock stands for a list of entries (`Stands`), the history. Whoever wants to call the value takes
//! turns with a `Pass`: `Turns::enter` waits for the value and gives it as `Held`, the call is made on `Held::value`,
//! `Held::raise` tells how many entries the call has added, and `Held::leave` gives the value back. A pass knows a
//! beginning of the history that it has seen, and its own entries in it.
//!
//! What the contracts say:
//! - The value that a pass enters stands for a list that begins with what the pass had seen.
//! - After `raise` and `leave` the pass has seen that list with the call's entries last, and its own entries are the
//!   earlier ones and these.
//! - In what a pass has seen, the entries under its number are its own, and those under the number of a pass that was
//!   joined into it are the ones that this pass had made (`HasJust`), each once and in order, whatever others do.
//! - `look` sees more, as many entries as it answers. `join_pass` leaves the longer of two lists, which begins with the
//!   other. `close` gives the value that stands for the one list, which is made of its callers' entries, each once.
//! - The value that a pass enters, and the one that `close` gives, has the origin of the value that `new` was given.
//!   The lock carries the origin, and so does each pass and held value, by the lock that it belongs to.
//!
//! What a call says of its entries (`Says`) reaches the history through `raise`, though the lock doesn't know it: so
//! `raise` takes the request and the reply too, by reference, beside the number of entries. `W::says` is one word of
//! the origin, the request, the reply, the entries before and the call's own; a `Book` is an object whose calls keep
//! such a word, and `take_turn` makes one call of it as a turn. Nothing is picked by the caller, so a turn may stand
//! in a closure.
//!
//! The rule between any two steps (`specs/Rules.antt`): one word counts the entries of the history, and every pass has
//! seen a beginning of it. The entries under a number are those of the one pass that has the number or into which it
//! was joined; a number still to come has none. While nobody holds the value it lies in its slot, stands for the
//! history and has the lock's origin; while it is out, one pass holds it, has seen the whole history, and alone raises.
//! A second word says whether it is out. The kinds of step are take, give, raise, look, split and join.
//!
//! No clause says that a thread gets on: `enter` may wait forever.
#![tactic(auto)]

mod book;
mod held;
mod pass;
mod rule;
mod stands;
pub mod tally;
mod turns;

pub use book::{Book, take_turn};
pub use held::Held;
pub use pass::Pass;
pub use stands::{Says, Stands};
pub use turns::Turns;

#[cfg(test)]
mod tests;

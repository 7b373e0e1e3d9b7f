//! Stretches of a vector, one for each list. They may have no place in common; how long each was, or is to be, says how much
//! room it gets when they are laid out anew.
ghost use Rattle.std.specs.Prelude.{◌≡◌, ◌≤◌, length};
ghost use Rattle.watch_prop.specs.Layout.{AreLaidOut};

use crate::slots::Slots;
use sat_words::Lit;

/// Where a list stands in the vector, how many watchers it has, and for how many there is room.
#[derive(Clone, Copy)]
pub(crate) struct Stretch {
    pub(crate) start: u32,
    pub(crate) len: u32,
    pub(crate) room: u32,
}

/// Lets empty stretches stand one after the other in a vector of this size, each with as much room as it had watchers, and
/// tells where the last one ends.
pub(crate) fn lay_out(stretches: &mut Vec<Stretch>, size: u32) -> u32
    ensures len { length stretches.new.items ≡ length stretches.old.items }
    ensures laid { AreLaidOut stretches.new.items (length stretches.new.items) result }
    ensures inside { result ≤ size }
{
    let mut end: u32 = 0;
    for i in 0..stretches.len() {
        let room = stretches[i].len.min(size - end);
        stretches[i] = Stretch {
            start: end,
            len: 0,
            room,
        };
        end += room;
    }
    end
}

/// Counts the watches of each literal.
pub(crate) fn count_watches(stretches: &mut Vec<Stretch>, slots: &Slots)
    ensures { length stretches.new.items ≡ length stretches.old.items }
{
    for index in 0..slots.len() {
        match slots.get(index) {
            None => {}
            Some(watch) => {
                count_watch(stretches, watch.first);
                count_watch(stretches, watch.second);
            }
        }
    }
}

/// Counts a watch of a literal.
fn count_watch(stretches: &mut Vec<Stretch>, lit: Lit)
    ensures { length stretches.new.items ≡ length stretches.old.items }
{
    let code = lit.code() as usize;
    if code < stretches.len() {
        stretches[code].len = stretches[code].len.saturating_add(1);
    }
}

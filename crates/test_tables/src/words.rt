//! Words of a table.
ghost use Rattle.std.specs.Prelude.{◌<◌, ◌↔◌, IsSome};

use share_rule::{Ledger, Shared};

/// The word at a place; none if the table is too short. It is read without a pass, so that no clause knows it.
pub fn word_at<B: Ledger>(table: &Shared<B>, place: usize) -> Option<u64>
    ensures { IsSome result ↔ (place < table.now.table.shared.table_id.words) }
{
    if place < table.table.word_count() {
        Some(table.table.shared.peek(place))
    } else {
        None
    }
}

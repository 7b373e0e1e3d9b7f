// Whether a clause has the literals of another list and just one more.
ghost use Rattle.std.specs.Prelude.{◌≡◌, ◌<◌, ◌≤◌, false, length, drop};
ghost use Rattle.std.specs.List.{slice_index_or};
ghost use Rattle.sat_words.specs.Literal.{Literal, same};
ghost use Rattle.simp_add.specs.Alike.{one_more, same_list};

use sat_words::Lit;

/// Whether the lists are equal.
fn are_equal(some: &[Lit], others: &[Lit]) -> bool
    ensures { result ≡ same_list some.now others.now }
{
    some == others
}

/// How many literals both have at the same places, from the first one on.
fn common_length(fewer: &[Lit], more: &[Lit]) -> usize
    requires { length fewer.now < length more.now }
    ensures within { result ≤ length fewer.now }
    ensures rest { one_more (drop result fewer.now) (drop result more.now) ≡ one_more fewer.now more.now }
    ensures differs { (d : Literal) → result < length fewer.now
        → same (slice_index_or fewer.now result d) (slice_index_or more.now result d) ≡ false }
{
    for i in 0..fewer.len() {
        if fewer[i] != more[i] {
            return i;
        }
    }
    fewer.len()
}

/// The literal that the second list has at one place beside those of the first; none if they differ by more.
pub(crate) fn one_more(fewer: &[Lit], more: &[Lit]) -> Option<Lit>
    ensures { result ≡ one_more fewer.now more.now }
{
    if more.len() != fewer.len() + 1 {
        return None;
    }
    let place = common_length(fewer, more);
    if are_equal(&fewer[place..], &more[place + 1..]) {
        Some(more[place])
    } else {
        None
    }
}

//! Values that pass over links between places, round by round.

ghost use Rattle.std.specs.Prelude.{◌≡◌, ◌<◌, ℕ, length, List};
ghost use Rattle.gptp_certificate.specs.Rounds.{AreLeast, LinksAreWithin, CameOver, ValuesPass, PassRound};

use gptp_vector::Identity;

/// Over a link the lesser identity passes on to the other end.
fn pass_identity(values: &mut Vec<Identity>, a: usize, b: usize)
    requires a { a < length values.old.items }
    requires b { b < length values.old.items }
    ensures { ValuesPass 0 a b values.old.items values.new.items }
{
    let here = values[a];
    let there = values[b];
    if there < here {
        values[a] = there;
        return;
    }
    if here < there {
        values[b] = here;
    }
}

/// Over a link the number at an end passes on, one greater, where it is still the lesser then.
fn pass_number(values: &mut Vec<u16>, a: usize, b: usize)
    requires a { a < length values.old.items }
    requires b { b < length values.old.items }
    ensures { ValuesPass 1 a b values.old.items values.new.items }
{
    let here = values[a];
    let there = values[b];
    if u32::from(there) + 1 < u32::from(here) {
        values[a] = there + 1;
        return;
    }
    if u32::from(here) + 1 < u32::from(there) {
        values[b] = here + 1;
    }
}

/// One round of identities: over each link in turn.
fn pass_identities(values: &mut Vec<Identity>, links: &[(usize, usize)])
    requires { LinksAreWithin (length values.old.items) links.now }
    ensures round { PassRound 0 links.now values.old.items values.new.items }
    ensures came { (starts : List ℕ) → CameOver 0 links.now starts values.old.items
        → CameOver 0 links.now starts values.new.items }
{
    for link in links {
        pass_identity(values, link.0, link.1);
    }
}

/// One round of numbers: over each link in turn.
fn pass_numbers(values: &mut Vec<u16>, links: &[(usize, usize)])
    requires { LinksAreWithin (length values.old.items) links.now }
    ensures round { PassRound 1 links.now values.old.items values.new.items }
    ensures came { (starts : List ℕ) → CameOver 1 links.now starts values.old.items
        → CameOver 1 links.now starts values.new.items }
{
    for link in links {
        pass_number(values, link.0, link.1);
    }
}

/// Leaves at each place the least of the identities at those places that at most so many links lead to.
pub(crate) fn settle_identities(values: &mut Vec<Identity>, links: &[(usize, usize)], rounds: usize)
    requires { LinksAreWithin (length values.old.items) links.now }
    ensures { AreLeast 0 links.now rounds values.old.items values.new.items }
{
    for round in 0..rounds {
        pass_identities(values, links);
    }
}

/// Leaves at each place the least of the numbers at those places that at most so many links lead to, each with how many
/// they are.
pub(crate) fn settle_numbers(values: &mut Vec<u16>, links: &[(usize, usize)], rounds: usize)
    requires { LinksAreWithin (length values.old.items) links.now }
    ensures { AreLeast 1 links.now rounds values.old.items values.new.items }
{
    for round in 0..rounds {
        pass_numbers(values, links);
    }
}

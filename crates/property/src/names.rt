// The list of names: name k is mark k. Names are looked up in the list as it is lent, without a copy.
ghost use Rattle.std.specs.Prelude.{◌≡◌, ◌+◌, ◌≤◌, length, if◌then◌else◌, Ok, Err};
ghost use Rattle.std.specs.Iterator.{YieldsFirstRef, item_count};
ghost use Rattle.basis.specs.declared.refusal.Refusal.TheVariants.{NameList};
ghost use Rattle.property.specs.Lists.{remaining as names_in, listed, place_of, proper, is_at, good_list, Listed};
ghost use Rattle.property.specs.Words.{letters_of};

use basis::Refusal;

// The names of a list that are still to come; none where the last one was taken.
#[derive(Drop)]
struct NamesLeft<'a> {
    rest: Option<&'a [u8]>,
}

impl<'a> NamesLeft<'a> {
    // All names of a list; an empty list has none.
    fn of(list: &'a [u8]) -> NamesLeft<'a>
        ensures names { names_in result.rest ≡ listed list.now }
        ensures few { length (names_in result.rest) ≤ length list.now + 1 }
    {
        NamesLeft {
            rest: if list.is_empty() { None } else { Some(list) },
        }
    }
}

impl<'a> Iterator for NamesLeft<'a> {
    type Item = &'a [u8];

    ghost next_gives = { YieldsFirstRef (λ s. names_in s.rest) };

    ghost remaining = { item_count (λ s. names_in s.rest) };

    // The next name, up to a comma or the list's end.
    fn next(&mut self) -> Option<&'a [u8]> {
        let rest = self.rest?;
        match rest.iter().position(|byte| *byte == b',') {
            Some(comma) => {
                self.rest = Some(&rest[comma + 1..]);
                Some(&rest[..comma])
            }
            None => {
                self.rest = None;
                Some(rest)
            }
        }
    }
}

// How many letters a to z a text begins with.
pub(crate) fn letters_in_front(text: &[u8]) -> usize
    ensures value { result ≡ length (letters_of text.now) }
    ensures within { result ≤ length text.now }
{
    text.iter()
        .take_while(|byte| byte.is_ascii_lowercase())
        .count()
}

// Whether a name has 1 to 8 letters a to z.
fn is_proper(name: &[u8]) -> bool
    ensures { result ≡ proper name.now }
{
    (1..=8).contains(&name.len()) && name.iter().all(|byte| byte.is_ascii_lowercase())
}

// The mark of a name: its first place in the list.
pub(crate) fn find(list: &[u8], letters: &[u8]) -> Option<usize>
    ensures { result ≡ place_of letters.now (listed list.now) }
{
    NamesLeft::of(list).position(|name| name == letters)
}

// Whether the name's first place in the list is this one.
#[tactic(auto, using(crate::proofs::Sought::own_place))]
fn is_first(list: &[u8], name: &[u8], place: usize) -> bool
    ensures { result ≡ is_at place (place_of name.now (listed list.now)) }
{
    find(list, name) == Some(place)
}

// Whether this is a list of as many names as there are marks, each of 1 to 8 letters a to z, all different.
fn is_good(list: &[u8], marks: usize) -> bool
    ensures { result ≡ good_list marks list.now }
{
    NamesLeft::of(list).enumerate().all(|(place, name)| is_proper(name)
        && is_first(list, name, place))
        && NamesLeft::of(list).count() == marks
}

// Refuses what is no list of names for so many marks.
pub fn check_names(list: &[u8], marks: usize) -> Result<(), Refusal>
    ensures value { result ≡ (if good_list marks list.now then Ok tt else Err NameList) }
    ensures meaning { Listed marks list.now }
{
    if is_good(list, marks) {
        Ok(())
    } else {
        Err(Refusal::NameList)
    }
}

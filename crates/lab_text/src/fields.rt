//! The fields of a line.
ghost use Rattle.std.specs.Prelude.{◌≡◌, ◌∷◌, option_map, take};
ghost use Rattle.lab_text.specs.Fields.{fields_of};
ghost use Rattle.lab_text.specs.FieldsAfter.{fields_after, fields_of_next, texts};

use memchr::memchr;
use std::marker::Model;

/// One more than any form has after its first field.
const MAX_FIELDS: usize = 5;

/// The first field, and what follows the space after it.
pub(crate) fn first_field(line: &[u8]) -> (&[u8], Option<&[u8]>)
    ensures { fields_of line.now ≡ result.0.now ∷ fields_after (option_map (λ rest. rest.now) result.1) }
{
    match memchr(b' ', line) {
        Some(i) => (&line[..i], Some(&line[i + 1..])),
        None => (line, None),
    }
}

/// The next field and what follows it, `None` where none is left.
pub(crate) fn next_field<'a>(rest: Option<&'a [u8]>) -> Option<(&'a [u8], Option<&'a [u8]>)>
    ensures { fields_after (option_map (λ line. line.now) rest.entry)
        ≡ fields_of_next (option_map (λ parts. (parts.0.now, option_map (λ line. line.now) parts.1)) result) }
{
    match rest {
        Some(line) => Some(first_field(line)),
        None => None,
    }
}

/// The fields after a line's first one, up to five: no form has as many.
#[derive(Drop)]
pub(crate) struct Fields<'a> {
    fields: [&'a [u8]; MAX_FIELDS],
    count: usize,
}

impl<'a> Model for Fields<'a> {
    ghost use Rattle.std.specs.Prelude.{ℕ, List, ◌≤◌, take};
    ghost use Rattle.lab_text.specs.FieldsAfter.{texts};

    ghost Value = { List (List ℕ) };

    ghost view = { λ f. texts (take f.count f.fields) };

    ghost invariant = { λ f. f.count ≤ 5 };
}

impl<'a> Fields<'a> {
    /// Splits what follows the first field.
    pub(crate) fn of(rest: Option<&'a [u8]>) -> Fields<'a>
        ensures { result ≡ take 5 (fields_after (option_map (λ line. line.now) rest.entry)) }
    {
        let mut fields: [&[u8]; MAX_FIELDS] = [&[]; MAX_FIELDS];
        let mut rest = rest;
        'fields: for count in 0..MAX_FIELDS {
            let Some((field, after)) = next_field(rest) else {
                return Fields { fields, count };
            };
            fields[count] = field;
            rest = after;
        }
        Fields {
            fields,
            count: MAX_FIELDS,
        }
    }

    pub(crate) fn as_slice(&self) -> &[&'a [u8]]
        ensures { texts result.now ≡ self.now }
    {
        &self.fields[..self.count]
    }
}

//! A field of a record, and the first of several that is not in its form.

ghost use Rattle.std.specs.Prelude.{◌≡◌, ◌≤◌, length, true, false, IfSome, IfNone};
ghost use Rattle.std.specs.List.{list_all};
ghost use Rattle.bsp_explain.specs.Fields.{field_fits, all_fit, first_unfit, is_inside, IsAtFault};

use crate::form::Form;
use crate::name::Name;
use bsp_fault_texts::Words;

/// A field of a record of 136 characters.
#[derive(Clone, Copy)]
pub struct Field {
    /// Its first column, counted from 1.
    pub first: u8,
    /// Its last column.
    pub last: u8,
    /// The form that it has to have.
    pub form: Form,
    /// What it is.
    pub name: Name,
}

/// A field by its columns, its form and its name.
#[macro_export]
macro_rules! field {
    ($first:expr, $last:expr, $form:expr, $name:expr) => {
        $crate::Field {
            first: $first,
            last: $last,
            form: $form,
            name: $name,
        }
    };
}

pub(crate) use field;

impl Field {
    /// Whether the field of a record is in its form.
    fn fits(self, line: &[u8]) -> bool
        requires wide { length line.now ≡ 136 }
        requires inside { is_inside self ≡ true }
        ensures { result ≡ field_fits line.now self }
    {
        let text = &line[self.first as usize - 1..self.last as usize];
        self.form.fits(text)
    }

    /// Says that the field is not in its form.
    pub(crate) fn say(self, words: &mut Words) {
        self.name.say(words);
        words.add(" ");
        self.form.say(words);
    }
}

/// The first of these fields that is not in its form.
pub fn first_unfit(line: &[u8], fields: &[Field]) -> Option<Field>
    requires wide { length line.now ≡ 136 }
    requires inside { list_all is_inside fields.now ≡ true }
    ensures first { result ≡ first_unfit line.now fields.now }
    ensures none { IfNone result (all_fit line.now fields.now ≡ true) }
    ensures some { IfSome result (λ field. IsAtFault line.now field × (all_fit line.now fields.now ≡ false)) }
{
    for field in fields {
        if !field.fits(line) {
            return Some(*field);
        }
    }
    None
}

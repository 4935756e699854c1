//! The fields of one name, in a head.
ghost use Rattle.std.specs.Prelude.{◌≡◌, ℕ, List, ◌∷◌, [], ◌++◌, length, IfSome};
ghost use Rattle.std.specs.Option.{option_map};
ghost use Rattle.httparse.specs.Spans.{IsWithin, span_bytes};
ghost use Rattle.bsp_routes.specs.Fields.{the_one};
ghost use Rattle.bsp_routes.specs.Found.{IsFound};

use httparse::spans::Span;

/// How many fields have a name, and where the value is if one alone has it.
#[derive(Clone, Copy)]
pub(crate) enum Found {
    /// No field has it.
    Nothing,
    /// One field, with this value.
    One(Span),
    /// Several fields.
    Several,
}

impl Found {
    /// These fields, and one more.
    pub(crate) fn and(self, value: Span) -> Found
        ensures { (text : List ℕ) (values : List (List ℕ)) → IsFound text values self → IsWithin (length text) value
            → IsFound text (values ++ span_bytes text value ∷ []) result }
    {
        match self {
            Found::Nothing => Found::One(value),
            Found::One(_) | Found::Several => Found::Several,
        }
    }

    /// Where the value of the one field is; with none or several there is none.
    pub(crate) fn the_one(self) -> Option<Span>
        ensures value { (text : List ℕ) (values : List (List ℕ)) → IsFound text values self → option_map (span_bytes text) result ≡ the_one values }
        ensures within { (text : List ℕ) (values : List (List ℕ)) → IsFound text values self → IfSome result (IsWithin (length text)) }
    {
        match self {
            Found::One(value) => Some(value),
            Found::Nothing | Found::Several => None,
        }
    }
}

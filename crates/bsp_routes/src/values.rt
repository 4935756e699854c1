//! The values that a path has.

ghost use Rattle.bsp_routes.specs.Matches.{values_in, AreFirstTwo};

use matchit::Params;

/// The first two values that a route took from its path. A value that the path lacks is empty.
pub fn first_two<'p>(params: &Params<'_, 'p>) -> (&'p [u8], &'p [u8])
    ensures { AreFirstTwo (values_in params.now.pattern.now params.now.text.now params.now.names.now params.now.path.now) result.0.now result.1.now }
{
    let mut values = params.iter();
    let Some((_, first)) = values.next() else {
        return (b"", b"");
    };
    let Some((_, second)) = values.next() else {
        return (first.as_bytes(), b"");
    };
    (first.as_bytes(), second.as_bytes())
}

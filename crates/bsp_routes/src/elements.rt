//! The elements of a field's value (RFC 9110, 5.6.1).
ghost use Rattle.std.specs.Prelude.{◌≡◌, ℕ, ◌+◌, ◌≤◌, List, [], ◌++◌, length, take, drop};
ghost use Rattle.std.specs.List.{list_all};
ghost use Rattle.bsp_routes.specs.Elements.{is_blank, without_front, begins, is_element, has_element};
ghost use Rattle.std.specs.Char.{eq_ignore_ascii_case};
ghost use Rattle.std.specs.Cmp.Lexicographic.{pointwise};

fn is_blank(b: u8) -> bool
    ensures { result ≡ is_blank b }
{
    b == b' ' || b == b'\t'
}

/// Whether two texts are the same in any letter case.
pub(crate) fn is_same(text: &[u8], name: &[u8]) -> bool
    ensures { result ≡ pointwise eq_ignore_ascii_case text.now name.now }
{
    text.eq_ignore_ascii_case(name)
}

fn without_front(text: &[u8]) -> &[u8]
    ensures { result.now ≡ without_front text.now }
{
    for (i, b) in text.iter().enumerate() {
        if !is_blank(*b) {
            return &text[i..];
        }
    }
    &[]
}

fn are_blank(text: &[u8]) -> bool
    ensures { result ≡ list_all is_blank text.now }
{
    for b in text {
        if !is_blank(*b) {
            return false;
        }
    }
    true
}

fn begins(text: &[u8], name: &[u8]) -> bool
    ensures { result ≡ begins name.now text.now }
{
    let at = name.len().min(text.len());
    let (front, back) = text.split_at(at);
    is_same(front, name) && are_blank(back)
}

fn is_element(text: &[u8], name: &[u8]) -> bool
    ensures { result ≡ is_element name.now text.now }
{
    begins(without_front(text), name)
}

/// Whether one of the elements between commas is the name.
pub(crate) fn has_element(text: &[u8], name: &[u8]) -> bool
    ensures { result ≡ has_element name.now text.now }
{
    let mut start = 0;
    for (i, b) in text.iter().enumerate() {
        if *b == b',' {
            if is_element(&text[start..i], name) {
                return true;
            }
            start = i + 1;
        }
    }
    is_element(&text[start..], name)
}

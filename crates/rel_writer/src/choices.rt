//! Choices between values that are there already, so that what follows them is one path.

ghost use Rattle.std.specs.Prelude.{◌≡◌, ◌&&◌, ◌||◌, if◌then◌else◌};

pub(crate) fn both(a: bool, b: bool) -> bool
    ensures { result ≡ (a && b) }
{
    a && b
}

pub(crate) fn either(a: bool, b: bool) -> bool
    ensures { result ≡ (a || b) }
{
    a || b
}

/// One of two counts.
pub(crate) fn pick(first: bool, a: usize, b: usize) -> usize
    ensures { result ≡ (if first then a else b) }
{
    if first { a } else { b }
}

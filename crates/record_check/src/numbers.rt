//! Which numbers may stand in single fields of rows.
ghost use Rattle.std.specs.Prelude.{◌≡◌, leb};

// War events have kinds 0 to 4.
pub(crate) fn kind_defined(kind: u32) -> bool
    ensures { result ≡ leb kind 4 }
{
    kind <= 4
}

// A point's year has four digits at most.
pub(crate) fn year_allowed(year: u32) -> bool
    ensures { result ≡ leb year 9999 }
{
    year <= 9999
}

//! What is read off some bytes: a head, and the rows of the sections that it lays out.
ghost use Rattle.std.specs.Prelude.{◌≡◌};
ghost use Rattle.format.specs.Head.{head_of};
ghost use Rattle.record_check.specs.Sections.{SectionsOf};

use crate::sections::Sections;
use format::Head;

/// The bytes, with their head and their sections. Any values may stand in the fields of the rows.
#[derive(Clone, Copy)]
pub struct Parsed<'a> {
    pub bytes: &'a [u8],
    pub head: Head,
    pub sections: Sections<'a>,
    pub ghost head_read: { head ≡ head_of bytes.now },
    pub ghost rows_read: { SectionsOf bytes.now head sections },
}

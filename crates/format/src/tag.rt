ghost use Rattle.std.specs.Prelude.{◌≡◌};
ghost use Rattle.lists.specs.Options.{ok_of};
ghost use Rattle.format.specs.Tags.{tag_byte, tag_of, is_tag, tested, same_tag, NONE, created, tag_of_word};

/// A country's tag of three bytes, held as its word a*65536 + b*256 + c: equal words are equal tags, and word order is byte order.
#[derive(Clone, Copy, Debug, PartialEq, Eq, PartialOrd, Ord)]
pub struct CountryTag(pub(crate) u32);

/// A text or a word that is no tag's.
#[derive(Clone, Copy, Debug, PartialEq, Eq)]
pub struct NotATag;

/// The one test of a tag's byte, behind every caller of the tag rule: an ASCII digit, letter or `-`. A number above 255 is none.
pub fn tag_byte(b: u32) -> bool
    ensures { result ≡ tag_byte b }
{
    (48 <= b) & (b <= 57) | (65 <= b) & (b <= 90) | (97 <= b) & (b <= 122) | (b == 45)
}

impl CountryTag {
    /// `---`, the tag of no one. It is a tag like any other.
    pub const NONE: CountryTag = CountryTag(2960685);

    /// Whether the word's three bytes are tag bytes.
    pub fn is_valid(self) -> bool
        ensures { result ≡ is_tag self }
    {
        let w = self.0;
        tag_byte(w / 65536) & tag_byte(w / 256 % 256) & tag_byte(w % 256)
    }

    /// The tag of a text of three tag bytes; any other text is no tag.
    pub fn create(s: &[u8]) -> Result<CountryTag, NotATag>
        ensures { ok_of result ≡ created s.now }
    {
        let [a, b, c] = *s else {
            return Err(NotATag);
        };
        CountryTag::from_bytes_unchecked(a, b, c).tested()
    }

    // The tag itself, if its bytes are tag bytes.
    fn tested(self) -> Result<CountryTag, NotATag>
        ensures { ok_of result ≡ tested self }
    {
        if self.is_valid() {
            Ok(self)
        } else {
            Err(NotATag)
        }
    }

    /// The tag of a word as it stands. Nothing is tested: sort keys and cells hold what was put there, and words of lent rows or from C are tested by
    /// `is_valid` where they are used, each in its turn.
    pub fn from_word_unchecked(word: u32) -> CountryTag
        ensures { result.0 ≡ word }
    {
        CountryTag(word)
    }

    /// The tag of three bytes as they stand. Nothing is tested: `create` does.
    /// A sum: where the word is divided again at once, the compiler takes the bytes as they stood.
    pub fn from_bytes_unchecked(a: u8, b: u8, c: u8) -> CountryTag
        ensures { result ≡ tag_of a b c }
    {
        CountryTag(u32::from(a) * 65536 + u32::from(b) * 256 + u32::from(c))
    }

    /// Whether it is the tag of no one.
    pub fn is_none(self) -> bool
        ensures { result ≡ same_tag self NONE }
    {
        self == CountryTag::NONE
    }
}

// The tag whose word a row holds; a word with a byte that is no tag byte is no tag.
impl TryFrom<u32> for CountryTag {
    type Error = NotATag;

    ghost try_from_gives = { λ word r. ok_of r ≡ tag_of_word word };

    fn try_from(word: u32) -> Result<CountryTag, NotATag> {
        CountryTag(word).tested()
    }
}

// The word that a row holds for a tag.
impl From<CountryTag> for u32 {
    ghost from_gives = { λ tag word. word ≡ tag.0 };

    fn from(tag: CountryTag) -> u32 {
        tag.0
    }
}

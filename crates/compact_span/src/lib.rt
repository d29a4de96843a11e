#![tactic(auto)]
// A compact span: the height where its open space starts, and one word that packs four links of six bits and a height of eight.
ghost use Rattle.std.specs.Prelude.{◌≡◌, ◌+◌, ◌*◌, ◌%◌, ◌^◌, ◌<◌, map};
ghost use Rattle.compact_span.specs.Word.{word, height_of, gap_of, held};
ghost use Rattle.compact_span.specs.Span.{fresh_span, with_link, with_height};
ghost use Rattle.compact_span.specs.Replies.{said_of_linked, said_of_con, set_con_says, con_says};

#[derive(Clone, Copy, Debug, PartialEq, Eq)]
pub struct CompactSpan {
    pub y: u16,
    pub data: u32,
}

// A direction above 3, or a layer above 62: reply 13.
#[derive(Clone, Copy, Debug, PartialEq, Eq)]
pub struct NoLink;

impl CompactSpan {
    // The largest height that the word can hold.
    pub const MAX_HEIGHT: u8 = 255;

    // The mark of an empty link.
    pub const NOT_CONNECTED: u8 = 63;

    // Directions are 0 to 3. They are numbers, and no enum, since `con` and `set_con` promise an answer to any other: 13.
    const LAST_DIRECTION: u8 = 3;

    // A span with no links.
    pub fn new(y: u16, height: u8) -> Self
        ensures { result ≡ fresh_span y height }
    {
        CompactSpan {
            y,
            data: ((height as u32) << 24) | 0x00ff_ffff,
        }
    }

    // The height of the open space between a ceiling and what is above it.
    pub fn gap(ceiling: u16, top: u16) -> u8
        ensures { result ≡ gap_of ceiling top }
    {
        top.saturating_sub(ceiling).min(Self::MAX_HEIGHT as u16) as u8
    }

    // The height in a bare word.
    pub fn height_in(data: u32) -> u8
        ensures { result ≡ height_of «data» }
    {
        (data >> 24) as u8
    }

    // The bare word of a height and a link number for each direction; a number above 63 counts as empty.
    // They are numbers, and no options, since the contract says what becomes of any number, also of one that is no link.
    pub fn with_links(height: u8, links: [u8; 4]) -> u32
        ensures { result ≡ word height (map held links) }
    {
        let from_last = links.iter().rev();
        from_last.fold(height as u32, |upper, link| Self::below(upper, *link))
    }

    // One more link below what is packed already. Of that, 26 bits stay.
    fn below(upper: u32, link: u8) -> u32
        ensures { result ≡ held link + 64 * (upper % 2 ^ 26) }
    {
        (upper << 6) | (link.min(Self::NOT_CONNECTED) as u32)
    }

    pub fn height(self) -> u8
        ensures { result ≡ height_of self.«data» }
    {
        Self::height_in(self.data)
    }

    pub fn set_height(self, height: u8) -> Self
        ensures { result ≡ with_height self height }
    {
        CompactSpan {
            y: self.y,
            data: (self.data & 0x00ff_ffff) | ((height as u32) << 24),
        }
    }

    // The link of a direction, a layer or nothing where it is empty: refused (13) above 3.
    pub fn con(self, dir: u8) -> Result<Option<u8>, NoLink>
        ensures { said_of_con result ≡ con_says self dir }
    {
        if Self::LAST_DIRECTION < dir {
            return Err(NoLink);
        }
        let shift = (dir as u32) * 6;
        let number = ((self.data >> shift) & 0x3f) as u8;
        Ok((number != Self::NOT_CONNECTED).then_some(number))
    }

    // The span with the link of a direction changed: refused (13) above direction 3 or layer 62.
    pub fn set_con(self, dir: u8, link: Option<u8>) -> Result<Self, NoLink>
        ensures { said_of_linked result ≡ set_con_says self dir link }
    {
        if Self::LAST_DIRECTION < dir {
            return Err(NoLink);
        }
        match link {
            None => Ok(self.put(dir, Self::NOT_CONNECTED)),
            Some(layer) if layer < Self::NOT_CONNECTED => Ok(self.put(dir, layer)),
            Some(_) => Err(NoLink),
        }
    }

    // The span with the six bits of one direction changed.
    fn put(self, dir: u8, number: u8) -> Self
        requires { (dir < 4) × (number < 64) }
        ensures { result ≡ with_link self dir number }
    {
        let shift = (dir as u32) * 6;
        let others = self.data & !(0x3fu32 << shift);
        CompactSpan {
            y: self.y,
            data: others | ((number as u32) << shift),
        }
    }
}

// The word of a compact span: four links and a height.
ghost use Rattle.std.specs.Prelude.{◌≡◌};
ghost use Rattle.compact_span.specs.Word.{height_of};
ghost use Rattle.compact_span.specs.Span.{span_of, with_height};
ghost use Rattle.c_api.specs.Links.{SetsLink, ReadsLink};

use compact_span::{CompactSpan, NoLink};

// The reply where a direction or a layer is above its limit.
const NO_LINK: u32 = 13;

// The span whose word it is. Where its open space starts does not matter to the word.
fn span_of(data: u32) -> CompactSpan
    ensures { result ≡ span_of 0 «data» }
{
    CompactSpan { y: 0, data }
}

fn put_link(data: &mut u32, dir: u8, link: Option<u8>) -> u32
    ensures { SetsLink «data».old dir link result «data».new }
{
    match span_of(*data).set_con(dir, link) {
        Err(NoLink) => NO_LINK,
        Ok(span) => {
            *data = span.data;
            0
        }
    }
}

// Links a direction to a layer: refused (13) above direction 3 or layer 62.
#[unsafe(no_mangle)]
pub extern "C" fn lv_set_con(data: &mut u32, dir: u8, layer: u8) -> u32
    ensures { SetsLink «data».old dir (Some layer) result «data».new }
{
    put_link(data, dir, Some(layer))
}

// Empties a direction's link: refused (13) above direction 3.
#[unsafe(no_mangle)]
pub extern "C" fn lv_clear_con(data: &mut u32, dir: u8) -> u32
    ensures { SetsLink «data».old dir None result «data».new }
{
    put_link(data, dir, None)
}

// Reads a direction's link into `link`, 63 where it is empty: refused (13) above direction 3.
#[unsafe(no_mangle)]
pub extern "C" fn lv_con(data: u32, dir: u8, link: &mut u32) -> u32
    ensures { ReadsLink «data» dir link.old result link.new }
{
    match span_of(data).con(dir) {
        Err(NoLink) => NO_LINK,
        Ok(found) => {
            *link = found.unwrap_or(CompactSpan::NOT_CONNECTED) as u32;
            0
        }
    }
}

// The word with another height.
#[unsafe(no_mangle)]
pub extern "C" fn lv_set_height(data: u32, height: u8) -> u32
    ensures { result ≡ (with_height (span_of 0 «data») height).«data» }
{
    span_of(data).set_height(height).data
}

#[unsafe(no_mangle)]
pub extern "C" fn lv_height(data: u32) -> u8
    ensures { result ≡ height_of «data» }
{
    CompactSpan::height_in(data)
}

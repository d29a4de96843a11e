// Numbers as text. A whole number is decimal or `0x` and hexadecimal digits. A float is `0x` and its bits, or decimal, or one of `nan`, `inf` and `-inf`.
ghost use Rattle.std.specs.Prelude.{◌≤◌, ◌<◌};

use std::fmt;
use std::num::{f32_from_bits_with_nan, f32_to_bits_with_nan, nearest_u32_to_f32};

// A number that a command takes, in as many bits as its place has.
pub trait Number: Sized {
    fn read(word: &[u8]) -> Option<Self>;
}

impl Number for u32 {
    fn read(word: &[u8]) -> Option<u32> {
        match word {
            [b'0', b'x', digits @ ..] if !digits.is_empty() => whole(digits, 16),
            _ => whole(word, 10),
        }
    }
}

impl Number for u16 {
    fn read(word: &[u8]) -> Option<u16> {
        u16::try_from(u32::read(word)?).ok()
    }
}

impl Number for u8 {
    fn read(word: &[u8]) -> Option<u8> {
        u8::try_from(u32::read(word)?).ok()
    }
}

impl Number for f32 {
    fn read(word: &[u8]) -> Option<f32> {
        match word {
            [b'0', b'x', digits @ ..] if !digits.is_empty() => {
                Some(f32_from_bits_with_nan(whole(digits, 16)?))
            }
            b"nan" => Some(f32::NAN),
            b"inf" => Some(f32::INFINITY),
            b"-inf" => Some(f32::NEG_INFINITY),
            _ => decimal(word),
        }
    }
}

// The number of these digits, if 32 bits hold it.
fn whole(digits: &[u8], base: u32) -> Option<u32>
    requires { (2 ≤ base) × (base ≤ 36) }
{
    digits.iter().try_fold(0u32, |n, b| {
        let digit = char::from(*b).to_digit(base)?;
        n.checked_mul(base)?.checked_add(digit)
    })
}

// A word as `0x` and eight digits.
#[derive(Clone, Copy)]
pub struct Bits(pub u32);

impl From<f32> for Bits {
    fn from(x: f32) -> Bits {
        Bits(f32_to_bits_with_nan(x))
    }
}

impl fmt::Display for Bits {
    fn fmt<W: fmt::Write>(&self, f: &mut fmt::Formatter<W>) -> fmt::Result {
        let Bits(bits) = self;
        write!(f, "0x{bits:08x}")
    }
}

// ---- decimal floats

// The most that is counted of the digits behind the point or left off, and of an exponent.
const MOST: u32 = 10000;

// Digits read so far: those kept as one number, whether there were any, how many of those after the point are kept, and how many before it were left off.
#[derive(Clone, Copy, Default)]
struct Digits {
    value: u32,
    any: bool,
    behind: u32,
    left: u32,
}

fn counted(n: u32) -> u32 {
    n.saturating_add(1).min(MOST)
}

impl Digits {
    // One digit more: nine are kept.
    fn push(&mut self, digit: u32, fraction: bool)
        requires { digit < 10 }
    {
        self.any = true;
        if self.value < 100000000 {
            self.value = self.value * 10 + digit;
            if fraction {
                self.behind = counted(self.behind);
            }
        } else if !fraction {
            self.left = counted(self.left);
        }
    }

    // Reads the digits in front, and answers what stands behind them.
    fn read<'a>(&mut self, text: &'a [u8], fraction: bool) -> &'a [u8] {
        for (i, b) in text.iter().enumerate() {
            let Some(digit) = char::from(*b).to_digit(10) else {
                return &text[i..];
            };
            self.push(digit, fraction);
        }
        &[]
    }
}

// Whether a sign says that a number is below 0, and what stands behind the sign.
fn signed(text: &[u8]) -> (bool, &[u8]) {
    match text {
        [b'-', rest @ ..] => (true, rest),
        [b'+', rest @ ..] => (false, rest),
        _ => (false, text),
    }
}

// The exponent that a text is, if it is one or is empty: whether it is below 0, and its size, held to 10,000.
fn exponent(text: &[u8]) -> Option<(bool, u32)> {
    match text {
        [] => Some((false, 0)),
        [b'e' | b'E', rest @ ..] => {
            let (below, text) = signed(rest);
            let mut digits = Digits::default();
            let behind = digits.read(text, false);
            if !digits.any || !behind.is_empty() {
                return None;
            }
            let size = if digits.left > 0 { MOST } else { digits.value };
            Some((below, size.min(MOST)))
        }
        _ => None,
    }
}

const POWERS: [f32; 11] = [
    1.0,
    10.0,
    100.0,
    1000.0,
    10000.0,
    100000.0,
    1000000.0,
    10000000.0,
    100000000.0,
    1000000000.0,
    10000000000.0,
];

fn scaled_once(x: f32, power: f32, below: bool) -> f32 {
    if below { x / power } else { x * power }
}

// x times ten to the power of k, or of -k: ten powers at a time, and at last the one to ten that are left.
fn scaled(x: f32, k: u32, below: bool) -> f32 {
    let tens = k.saturating_sub(1) / 10;
    let most = (0..tens).fold(x, |y, _| scaled_once(y, POWERS[10], below));
    scaled_once(most, POWERS[(k - tens * 10) as usize], below)
}

// The float of a decimal number: sign, digits, a point among them, an exponent. Where the digits are below 16,777,216 as one number and the power of ten is
// at most ten either way, both are floats and one rounding gives the nearest float. Of longer ones nine digits count, and each further ten of the power
// rounds once more: the float is a few places off at worst.
fn decimal(word: &[u8]) -> Option<f32> {
    let (negative, text) = signed(word);
    let mut digits = Digits::default();
    let mut rest = digits.read(text, false);
    if let [b'.', fraction @ ..] = rest {
        rest = digits.read(fraction, true);
    }
    let (below, size) = exponent(rest)?;
    if !digits.any {
        return None;
    }
    let (up, down) = if below { (0, size) } else { (size, 0) };
    let up = digits.left.saturating_add(up);
    let down = digits.behind.saturating_add(down);
    let value = nearest_u32_to_f32(digits.value);
    let x = scaled(value, up.abs_diff(down), up < down);
    Some(if negative { -x } else { x })
}

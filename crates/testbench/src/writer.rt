// What the program writes. It gathers, and goes out together when there is no more room or the program is to wait for input. After a write that failed no
// more goes out, and the next flush answers its error: so what writes has no failures to hand on.
ghost use Rattle.std.specs.Prelude.{◌<◌, ◌≤◌};

use std::alloc::Global;
use std::fmt::Display;
use std::io::{BufWriter, Stdout, Write};
use std::{fmt, io};

pub struct Out {
    to: BufWriter<Stdout>,
    failed: Option<io::Error>,
}

impl Out {
    pub fn new(alloc: Global, to: Stdout) -> io::Result<Out> {
        Ok(Out {
            to: BufWriter::with_capacity(alloc, 65536, to)?,
            failed: None,
        })
    }

    // What `write!` and `writeln!` call.
    pub fn write_fmt<D: Display + Drop>(&mut self, text: D) {
        // no piece fails: what a write answers waits for the next flush
        let _done = fmt::Write::write(self, text);
    }

    // What waits is filled up before it goes out, so that writes are as long as they can be wherever a piece ends.
    #[inline(always)]
    pub fn write_bytes(&mut self, bytes: &[u8]) {
        let room = self.to.capacity().saturating_sub(self.to.buffer().len());
        if bytes.len() <= room {
            self.gather(bytes);
        } else {
            self.overflow(bytes, room);
        }
    }

    #[inline(always)]
    fn gather(&mut self, bytes: &[u8]) {
        if self.failed.is_none() {
            self.failed = self.to.write_all(bytes).err();
        }
    }

    #[cold]
    #[inline(never)]
    fn overflow(&mut self, bytes: &[u8], room: usize) {
        let (first, rest) = bytes.split_at(room.min(bytes.len()));
        self.gather(first);
        self.gather(rest);
    }

    // Sends out what still waits.
    pub fn flush(&mut self) -> io::Result<()> {
        match self.failed.take() {
            Some(e) => Err(e),
            None => self.to.flush(),
        }
    }
}

impl fmt::Write for Out {
    fn write_str(&mut self, text: &str) -> fmt::Result {
        self.write_bytes(text.as_bytes());
        Ok(())
    }
}

// What could not be written is not tried again.
impl Drop for Out {
    fn drop(self) {
        let Out { to, failed: _ } = self;
        let _ = to.into_parts();
    }
}

// Text that is put together byte by byte, and goes out a piece at a time. Long lists and maps are written so, since `Display` takes up to three times as long for them.
pub struct Text<'a> {
    out: &'a mut Out,
    piece: [u8; 128],
    // how many of the piece's bytes wait
    waiting: usize,
}

impl<'a> Text<'a> {
    pub fn new(out: &'a mut Out) -> Text<'a> {
        Text {
            out,
            piece: [0; 128],
            waiting: 0,
        }
    }

    // Puts one byte behind those that wait.
    pub fn put(&mut self, b: u8) {
        if self.waiting >= self.piece.len() {
            self.send();
        }
        let at = self.waiting;
        if at < self.piece.len() {
            self.piece[at] = b;
            self.waiting = at + 1;
        }
    }

    pub fn say(&mut self, bytes: &[u8]) {
        for b in bytes {
            self.put(*b);
        }
    }

    // A whole number in decimal digits.
    pub fn say_number(&mut self, n: u64) {
        self.say_digits(n, 10, 1);
    }

    // A word as `0x` and eight digits.
    pub fn say_bits(&mut self, n: u32) {
        self.say(b"0x");
        self.say_digits(n as u64, 16, 8);
    }

    // A whole number in digits of this base, `least` of them or more. Where it is called the base is a literal, and then no digit takes a division.
    #[inline(always)]
    fn say_digits(&mut self, n: u64, base: u64, least: usize)
        requires { (0 < base) × (base ≤ 16) }
    {
        let mut digits = [0u8; 20];
        let mut from = 20;
        let mut rest = n;
        for i in (0..20usize).rev() {
            if rest == 0 && 19 - i >= least {
                break;
            }
            digits[i] = digit(rest % base);
            rest /= base;
            from = i;
        }
        self.say(&digits[from.min(20)..]);
    }

    // Writes the bytes that wait. From here on none does.
    #[cold]
    #[inline(never)]
    fn send(&mut self) {
        let waiting = self.waiting.min(self.piece.len());
        self.out.write_bytes(&self.piece[..waiting]);
        self.waiting = 0;
    }

    // A text that is not finished does not compile, so none of it is lost.
    pub fn finish(mut self) {
        self.send();
        let Text {
            out: _,
            piece: _,
            waiting: _,
        } = self;
    }
}

// A digit of base ten or sixteen: 0 to 9, then a to f.
fn digit(d: u64) -> u8
    requires { d < 16 }
{
    if d < 10 {
        b'0' + d as u8
    } else {
        b'a' - 10 + d as u8
    }
}

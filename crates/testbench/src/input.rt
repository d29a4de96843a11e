// The input, line by line.
use crate::commands::Unread;
use crate::words::first;
use crate::writer::Out;
use std::alloc::Global;
use std::io;
use std::io::{BufRead, BufReader, Stdin};

// No longer line is held.
const LONGEST: usize = 65535;

#[derive(Drop)]
pub struct Input {
    reader: BufReader<Stdin>,
    // the line in hand, as far as it is held, and whether it is longer
    line: Vec<u8>,
    too_long: bool,
    // how many lines were read, and whether the input ended
    count: u64,
    ended: bool,
}

// A line without its end, and its number.
#[derive(Clone, Copy)]
pub struct Line<'a> {
    pub number: u64,
    pub text: Result<&'a [u8], Unread>,
}

impl Input {
    pub fn new(alloc: Global, stdin: Stdin) -> io::Result<Input> {
        let reader = BufReader::with_capacity(alloc, 65536, stdin)?;
        Ok(Input {
            reader,
            line: Vec::with_capacity(alloc, LONGEST)?,
            too_long: false,
            count: 0,
            ended: false,
        })
    }

    // The next line, if there is one. A last line needs no end.
    pub fn next_line(&mut self, out: &mut Out) -> io::Result<Option<Line<'_>>> {
        self.line.clear();
        self.too_long = false;
        for _ in 0..u64::MAX {
            if self.ended || self.take_piece(out)? {
                break;
            }
        }
        if self.ended && self.line.is_empty() && !self.too_long {
            return Ok(None);
        }
        self.count = self.count.saturating_add(1);
        let number = self.count;
        let too_long = self.too_long;
        let line = self.line.as_slice();
        let text = if too_long {
            Err(Unread::TooLong)
        } else {
            Ok(line)
        };
        Ok(Some(Line { number, text }))
    }

    // Takes what waits of a line, and answers whether that is all of it. Where nothing waits, the answers go out before more is read, since the read may wait
    // for whoever waits for them.
    fn take_piece(&mut self, out: &mut Out) -> io::Result<bool> {
        if self.reader.buffer().is_empty() {
            out.flush()?;
        }
        let waiting = self.reader.fill_buf()?;
        self.ended = waiting.is_empty();
        let end = first(waiting, |b| b == b'\n');
        let is_whole = end < waiting.len();
        if self.line.len() + end > LONGEST {
            self.too_long = true;
        } else {
            self.line.extend_from_slice(&waiting[..end])?;
        }
        self.reader.consume(end + usize::from(is_whole));
        Ok(is_whole)
    }
}

// The words of a line: what stands between spaces, up to a `#`.
ghost use Rattle.std.specs.Prelude.{◌≤◌, length};
ghost use Rattle.std.specs.Iterator.{at_most};

fn is_space(b: u8) -> bool {
    matches!(b, b' ' | b'\t' | b'\r')
}

// The words that are still to come.
#[derive(Clone, Copy, Default)]
pub struct Words<'a>(&'a [u8]);

// Where the first byte of a kind stands, or the end.
pub(crate) fn first<F: Fn(u8) -> bool>(bytes: &[u8], is_it: F) -> usize
    requires { F.IsAlwaysCallable is_it }
    ensures { result ≤ length bytes.now }
{
    for (i, b) in bytes.iter().enumerate() {
        if is_it(*b) {
            return i;
        }
    }
    bytes.len()
}

impl<'a> Words<'a> {
    // Those of a line, without its comment.
    pub fn of(line: &'a [u8]) -> Words<'a> {
        Words(&line[..first(line, |b| b == b'#')])
    }
}

impl<'a> Iterator for Words<'a> {
    type Item = &'a [u8];

    ghost remaining = { λ s. at_most (length s.0.now) };

    fn next(&mut self) -> Option<&'a [u8]> {
        let rest = &self.0[first(self.0, |b| !is_space(b))..];
        let (_first, others) = rest.split_first()?;
        let (word, rest) = rest.split_at(1 + first(others, is_space));
        self.0 = rest;
        Some(word)
    }
}

use std::fmt;

// So many of something, in words: `1 call`, `6 calls`.
#[derive(Clone, Copy)]
pub struct Counted<'a>(pub usize, pub &'a str);

impl fmt::Display for Counted<'_> {
    fn fmt<W: fmt::Write>(&self, f: &mut fmt::Formatter<W>) -> fmt::Result {
        let Counted(count, one) = *self;
        match count {
            1 => write!(f, "1 {one}"),
            _ => write!(f, "{count} {one}s"),
        }
    }
}

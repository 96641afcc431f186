use std::fmt;

// So many steps, in words: `1 step`, `638 steps`.
#[derive(Clone, Copy, Debug, PartialEq, Eq)]
pub struct Steps(pub u32);

impl fmt::Display for Steps {
    fn fmt<W: fmt::Write>(&self, f: &mut fmt::Formatter<W>) -> fmt::Result {
        let Steps(steps) = *self;
        match steps {
            1 => f.write_str("1 step"),
            _ => write!(f, "{steps} steps"),
        }
    }
}

// When something came, by the steps made before it: `before any step`, `after 1 step`.
#[derive(Clone, Copy, Debug, PartialEq, Eq)]
pub struct AfterSteps(pub u32);

impl fmt::Display for AfterSteps {
    fn fmt<W: fmt::Write>(&self, f: &mut fmt::Formatter<W>) -> fmt::Result {
        let AfterSteps(steps) = *self;
        match steps {
            0 => f.write_str("before any step"),
            _ => write!(f, "after {}", Steps(steps)),
        }
    }
}

use crate::exchange_fault::Refused;
use crate::exchange_name::ExchangeName;
use rig::AfterSteps;
use std::fmt;

// A refused job in words: the refusal, where it came and after how many steps.
#[derive(Clone, Copy)]
pub struct RefusedJob<'a> {
    pub refused: Refused,
    // What the job counts: exchanges, or passes.
    pub unit: &'a str,
    // What they do, from the first on, where the job says it.
    pub names: &'a [ExchangeName],
}

impl fmt::Display for RefusedJob<'_> {
    fn fmt<W: fmt::Write>(&self, f: &mut fmt::Formatter<W>) -> fmt::Result {
        let Refused {
            refusal,
            exchange,
            steps,
        } = self.refused;
        write!(f, "{refusal}; ")?;
        if exchange > 0 {
            let unit = self.unit;
            write!(f, "in {unit} {exchange}, ")?;
            if let Some(name) = self.names.get(exchange as usize - 1) {
                write!(f, "{name}, ")?;
            }
        }
        write!(f, "{}", AfterSteps(steps))
    }
}
